//! What still comes where nothing more is read.

use std::io::Read;

/// How many octets are read at once.
const PIECE_OCTETS: usize = 4_096;

/// Reads what still comes and passes it over, by so many reads at most, until nothing more comes, a read fails, or that is enough: which is
/// asked after each of them with the octets that were passed over by then. A connection that is closed with octets unread may take the last
/// answer away from its peer, and its end is told to it as an error.
pub fn pass_over<S: Read, F: Fn(usize) -> bool + Drop>(
    stream: &mut S,
    most_reads: u32,
    is_enough: F,
)
    requires { F.IsAlwaysCallable is_enough }
{
    let mut octets = [0u8; PIECE_OCTETS];
    let mut passed: usize = 0;
    for _ in 0..most_reads {
        let Ok(count) = stream.read(&mut octets) else {
            return;
        };
        passed = passed.saturating_add(count);
        if count == 0 || is_enough(passed) {
            return;
        }
    }
}
