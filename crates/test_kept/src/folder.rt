//! A folder of the system's, as tests see it.

use job_disk::DiskRoom;
use kept_jobs::{Folder, append, begin, keep};
use std::fs;
use std::fs::Files;
use std::process::Abort;

/// What these folders have room for.
pub const ROOM: DiskRoom = DiskRoom {
    jobs: 4,
    queues: 1,
    page_size: 4_096,
};

/// Whether there is a file of this name in the folder.
pub fn is_there<R: Files + Abort + AllocGlobal>(rt: &R, folder: &str, name: &str) -> bool {
    let path = format!(in rt.alloc(); "{folder}/{name}").expect(rt, "memory");
    fs::metadata(rt, path.as_str()).is_ok()
}

/// Keeps a job with these octets.
pub fn keep_one<R: Abort, F: Folder>(rt: &R, hand: &mut F, octets: &[u8]) {
    begin(hand).expect(rt, "a file");
    append(hand, octets, None).expect(rt, "octets");
    keep(hand).expect(rt, "a job that is kept");
}
