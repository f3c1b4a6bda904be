//! What is told of printers in the heads of the account's segments.

use lpd_values::Octets;
use printer_devices::{OpenedPlace, default_file, place_of};
use program_edge::{PrinterPlace, Settings};
use segment_text::HeadPrinter;
use std::alloc::{AllocError, Global};

/// What printers print to, as their places are written, and where what they print begins: what the heads of the account's segments
/// tell.
pub(crate) fn told_places(
    alloc: Global,
    settings: &Settings<'_>,
    places: &[OpenedPlace],
) -> Result<Vec<HeadPrinter>, AllocError> {
    let mut told = Vec::new(alloc);
    let mut printer = 0;
    for opened in places {
        printer = u32::saturating_add(printer, 1);
        let place = match place_of(settings, printer) {
            Some(place) => place.to_string(alloc)?,
            None => {
                let path = default_file(settings, printer).to_string(alloc)?;
                PrinterPlace::File(path.as_str()).to_string(alloc)?
            }
        };
        told.push(HeadPrinter {
            place: Octets::from_vec(place.into_bytes()),
            begins: opened.begins(),
        })?;
    }
    Ok(told)
}
