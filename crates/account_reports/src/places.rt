//! Where printers wrote, as the words of an audit say it.

use program_edge::DefaultFile;
use std::alloc::{AllocError, Global};

/// What one of these words says.
#[derive(Clone, Copy)]
enum Said<'r> {
    /// The printer of this number printed to this path.
    Path(u32, &'r str),
    /// The printer of this number, at a place of the heads, an equals sign and a path.
    At(u32, &'r str),
    /// A directory with the files of printers that nothing else is said of.
    Directory(&'r str),
}

/// What a text before a sign and the text behind it are, where the first is a printer's number.
fn numbered(text: &str, sign: char) -> Option<(u32, &str)> {
    let (number, rest) = text.split_once(sign)?;
    let number = number.parse().ok()?;
    Some((number, rest))
}

/// What a text says: `K=PATH`, `K@PLACE=PATH`, or else a directory.
fn said_of(text: &str) -> Said<'_> {
    if let Some((number, path)) = numbered(text, '=') {
        return Said::Path(number, path);
    }
    match numbered(text, '@') {
        Some((number, rest)) => Said::At(number, rest),
        None => Said::Directory(text),
    }
}

/// The path that stands behind this place and an equals sign.
fn behind<'r>(text: &'r str, place: &[u8]) -> Option<&'r str> {
    let rest = text.as_bytes().strip_prefix(place)?;
    rest.strip_prefix(b"=")?;
    text.get(place.len().saturating_add(1)..)
}

/// The path at which the printer of a number is to be read again where it printed to this place, by what is said of that place.
///
/// AllocError where memory is refused.
pub(crate) fn path_at(
    alloc: Global,
    places: &[&str],
    printer: u32,
    place: &[u8],
) -> Result<Option<String>, AllocError> {
    for text in places {
        if let Said::At(number, rest) = said_of(text) {
            if number == printer {
                if let Some(path) = behind(rest, place) {
                    return Ok(Some(String::from_str(alloc, path)?));
                }
            }
        }
    }
    Ok(None)
}

/// The path at which the printer of a number is to be read again from the first place on that it printed to: by what is said of that place, of the
/// printer, or else of a directory.
///
/// AllocError where memory is refused.
pub(crate) fn path_of(
    alloc: Global,
    places: &[&str],
    printer: u32,
    place: &[u8],
) -> Result<Option<String>, AllocError> {
    if let Some(path) = path_at(alloc, places, printer, place)? {
        return Ok(Some(path));
    }
    let mut directory = None;
    for text in places {
        match said_of(text) {
            Said::Path(number, path) if number == printer => {
                return Ok(Some(String::from_str(alloc, path)?));
            }
            Said::Directory(path) => directory = Some(path),
            Said::Path(_, _) | Said::At(_, _) => {}
        }
    }
    match directory {
        Some(directory) if !is_asked(places, printer) => {
            Ok(Some(DefaultFile { directory, printer }.to_string(alloc)?))
        }
        _ => Ok(None),
    }
}

/// Whether something is said of the printer of a number.
pub(crate) fn is_asked(places: &[&str], printer: u32) -> bool {
    places
        .iter()
        .any(|text| asked_printer(text) == Some(printer))
}

/// The number of the printer of which a text says something. None where it is a directory.
pub(crate) fn asked_printer(text: &str) -> Option<u32> {
    match said_of(text) {
        Said::Path(number, _) | Said::At(number, _) => Some(number),
        Said::Directory(_) => None,
    }
}
