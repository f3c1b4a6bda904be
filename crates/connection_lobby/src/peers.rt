//! What a connection's peer did, asked without waiting and from any thread.

ghost use Rattle.std.specs.Prelude.{◌≡◌, ◌+◌, ◌-◌, ◌<◌, ◌≤◌, ◌↔◌, min, length, IfSome, IsTrue};

use libc::net::{
    IPPROTO_TCP, MSG_DONTWAIT, MSG_PEEK, POLLERR, POLLHUP, POLLIN, POLLNVAL, POLLRDHUP,
    SO_KEEPALIVE, SO_SNDBUF, SOL_SOCKET, TCP_KEEPCNT, TCP_KEEPIDLE, TCP_KEEPINTVL, poll, recv,
    setsockopt,
};
use libc::types::pollfd;
use std::net::TcpStream;
use std::os::fd::AsRawFd;

/// What a peer did.
#[derive(Clone, Copy)]
pub enum Peer {
    /// It may send and is there, as far as is known.
    There,
    /// It has ended its own sending, and may still read.
    EndedSending,
    /// The connection is no more.
    Gone,
}

/// Asks the system what a stream's peer did, without waiting, from any thread. It takes no error away.
pub fn ask_peer(stream: &TcpStream) -> Peer {
    let mut asked = [pollfd {
        fd: stream.as_raw_fd(),
        events: POLLIN | POLLRDHUP,
        revents: 0,
    }];
    if poll(&mut asked, 0) < 0 {
        return Peer::There;
    }
    let told = asked[0].revents;
    if told & (POLLERR | POLLHUP | POLLNVAL) != 0 {
        Peer::Gone
    } else if told & POLLRDHUP != 0 {
        Peer::EndedSending
    } else {
        Peer::There
    }
}

/// How many octets have come that nobody has read, counted as far as this buffer has room for. None where the connection is
/// broken, or where none has come and more may come.
pub fn unread_octets(stream: &TcpStream, buffer: &mut [u8]) -> Option<usize>
    ensures { IfSome result (λ count. count ≤ length buffer.old) }
{
    let count = unsafe { recv(stream.as_raw_fd(), buffer, MSG_PEEK | MSG_DONTWAIT) };
    usize::try_from(count).ok()
}

/// Takes as many octets from a stream as this buffer has room for, without waiting for any. Whether it has.
pub(crate) fn take_octets(stream: &TcpStream, buffer: &mut [u8]) -> bool {
    let length = buffer.len();
    let count = unsafe { recv(stream.as_raw_fd(), buffer, MSG_DONTWAIT) };
    usize::try_from(count).is_ok_and(|count| count == length)
}

/// What is known of a session that waits for a page, while its peer sends no more.
#[derive(Clone, Copy)]
pub struct PeerStanding {
    /// Octets of the connection that nobody has read.
    pub unread: u64,
    /// Octets that its last read gave.
    pub last: u64,
    /// Octets that all its reads gave.
    pub received: u64,
    /// Octets of files that pages of this connection's jobs have.
    pub taken: u64,
    /// Octets that its open file lacks.
    pub left: u64,
}

/// Whether what came may still end the open file, with the octet 00 after it: what the session has read and not used is no more
/// than its last read, nor than what is in no page.
pub fn may_end(standing: &PeerStanding) -> bool
    ensures { IsTrue result ↔ standing.now.left < standing.now.unread
        + min standing.now.last (standing.now.received - standing.now.taken) }
{
    let in_hand = standing
        .last
        .min(standing.received.saturating_sub(standing.taken));
    u128::from(standing.left) < u128::from(standing.unread) + u128::from(in_hand)
}

/// A number as C keeps an int.
fn as_int(value: u32) -> [u8; 16] {
    let mut octets = [0u8; 16];
    let [first, second, third, fourth] = value.to_ne_bytes();
    octets[0] = first;
    octets[1] = second;
    octets[2] = third;
    octets[3] = fourth;
    octets
}

/// Has the system ask a silent peer every `seconds` seconds whether it is there, and end the connection where it isn't three times.
pub fn keep_asking(stream: &TcpStream, seconds: u8) {
    let seconds = u32::from(seconds);
    for (level, option, value) in [
        (IPPROTO_TCP, TCP_KEEPCNT, 3),
        (IPPROTO_TCP, TCP_KEEPIDLE, seconds),
        (IPPROTO_TCP, TCP_KEEPINTVL, seconds),
        (SOL_SOCKET, SO_KEEPALIVE, 1),
    ] {
        let _ = unsafe { setsockopt(stream.as_raw_fd(), level, option, &as_int(value), 4) };
    }
}

/// Has the system keep some N octets of what is written to a stream and its peer hasn't read, and not more: so a write comes to
/// its end soon where the peer reads, and not at all where it doesn't.
pub fn send_in_pieces(stream: &TcpStream, octets: u32) {
    let _ = unsafe {
        setsockopt(
            stream.as_raw_fd(),
            SOL_SOCKET,
            SO_SNDBUF,
            &as_int(octets),
            4,
        )
    };
}
