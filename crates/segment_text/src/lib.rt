//! Segments of an account as text: the lines at their head, the last one, and all lines in turn, written and read one by one.
#![tactic(auto)]

mod config;
mod follow;
mod head;
mod items;
mod laws;
mod read;
mod reader;
mod stamp;
mod write;
mod writer;

pub use account_text::LineFault;
pub use config::parse_config;
pub use follow::{begins_run, fits_config, goes_on, names_digest, run_follows, same_base};
pub use head::{Begin, Head, HeadPrinter, Last, Origin, Start, Version};
pub use items::{SegmentLine, Stage, parse_line};
pub use laws::{lines_are_read_back, lines_have_no_feed, segments_are_in_turn};
pub use read::{parse_last, parse_origin, parse_printer, parse_start};
pub use reader::SegmentReader;
pub use stamp::{is_before, is_time};
pub use write::{write_config, write_last, write_origin, write_printer, write_start};
pub use writer::SegmentWriter;
