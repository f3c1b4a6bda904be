//! Descriptors: the three standard ones, and how many there may be.

use libc::net::{POLLNVAL, poll};
use libc::types::{pollfd, rlimit};

/// Opens /dev/null as standard input, output and error where these are closed. It comes before anything else is opened: a file
/// takes the lowest number that is free. False where /dev/null can't be opened.
pub fn fill_standard_descriptors() -> bool {
    for descriptor in 0..3 {
        let mut asked = [pollfd {
            fd: descriptor,
            events: 0,
            revents: 0,
        }];
        let is_closed = poll(&mut asked, 0) == 1 && asked[0].revents & POLLNVAL != 0;
        if is_closed && os::open_update(b"/dev/null") != descriptor {
            return false;
        }
    }
    true
}

/// How many descriptors may be open; 0 where the system doesn't say.
pub fn descriptor_limit() -> u64 {
    let mut limit = rlimit {
        rlim_cur: 0,
        rlim_max: 0,
    };
    if libc::getrlimit(libc::RLIMIT_NOFILE, &mut limit) < 0 {
        return 0;
    }
    limit.rlim_cur
}
