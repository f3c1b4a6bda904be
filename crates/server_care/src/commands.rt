//! What whoever looks after a server has others do.

use server_house::{HouseLedger, HouseSeat};
use std::alloc::AllocError;

/// What came of a line that was asked at the control socket.
#[derive(Drop)]
pub enum Reply {
    /// It was done, or refused: the octets of its answer.
    Answer(Vec<u8>),
    /// The server is to stop: nobody is let in any more. After N seconds nothing is waited for any more, where there is such a number.
    Stop { seconds: Option<u32> },
    /// Nothing is waited for any more.
    StopNow,
}

/// Who does what is asked at the control socket.
pub trait Commands<E: HouseLedger> {
    /// Does what a line asks for, through this seat, but for a stop. An error where memory is refused.
    fn carry_out(&self, seat: &mut HouseSeat<E>, line: &[u8]) -> Result<Reply, AllocError>;
}
