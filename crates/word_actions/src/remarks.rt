//! What is remarked of a configuration beside its fault: where that stands, and which keys aren't any.
//!
//! The text is read once more for that, and only where it is a file of a disk: what came through a pipe is gone.

use crate::fault::ActionFault;
use config_remarks::{tell_fault, tell_places_fault, warn_of_keys};
use log::Log;
use lpd_script::read_all;
use program_edge::StreamReader;
use std::alloc::Global;
use std::fs;
use std::fs::Files;

/// The text of the file at this path. None where that is no file of a disk, or it can't be read.
fn text_at<R: Files>(rt: &R, alloc: Global, path: &str) -> Option<Vec<u8>> {
    if !fs::metadata(rt, path).is_ok_and(|metadata| metadata.is_file()) {
        return None;
    }
    let mut file = StreamReader::open(rt, path);
    read_all(alloc, &mut file).ok()
}

/// Tells the log what is remarked of the configuration at this path, of which that is at fault, or nothing. A fault's own line comes after it.
pub fn remark_on<R: Files + Log>(rt: &R, alloc: Global, path: &str, fault: Option<&ActionFault>) {
    let is_of_text = match fault {
        None | Some(ActionFault::Places(_)) => true,
        Some(ActionFault::Run(lpd_script::Fault::Config(_))) => true,
        Some(_) => false,
    };
    if !is_of_text {
        return;
    }
    let Some(text) = text_at(rt, alloc, path) else {
        return;
    };
    match fault {
        Some(ActionFault::Run(lpd_script::Fault::Config(fault))) => {
            tell_fault(rt, alloc, path, text.as_slice(), *fault);
        }
        Some(ActionFault::Places(fault)) => {
            tell_places_fault(rt, alloc, path, text.as_slice(), *fault);
        }
        _ => {}
    }
    warn_of_keys(rt, alloc, path, text.as_slice());
}
