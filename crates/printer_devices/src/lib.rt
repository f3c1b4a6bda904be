//! What printers print to: found at a server's start, and written to page by page. It is a file, a device or a pipe, a printer on the
//! network, or a folder.
#![tactic(auto)]

mod device;
mod faults;
mod outlet;
mod places;
mod sharing;

pub use device::{Device, PrinterFile};
pub use faults::DeviceFault;
pub use outlet::{Outlet, has_unread};
pub use places::{OpenedPlace, default_file, open_places, pipes_of, place_of};
pub use sharing::{SHARED_FOLDERS, SharedFolder, shared_folder};
