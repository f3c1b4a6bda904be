//! Jobs that are kept in a folder of the system's, and how they end there: done, removed, failed and sent again.

use crate::folder::{ROOM, is_there, keep_one};
use job_disk::{Disk, DiskFolder, FileRemoval, NumberedJob};
use job_files::JobEnd;
use kept_jobs::{Folder, append, begin, keep};
use parked_lines::{JobSize, ParkState};
use std::fs;
use std::os::unix::fs::PermissionsExt;

/// The octets `abcd` as a file of pages of 4,096 octets has them.
const KEPT_OCTETS: &[u8; 96] =
    b"hurgwaye 2 00001000\nabcdsealed 99b51e51a3534507bb5886ccb4cedac63ea93aa13467863f6ca4ced5a823695b\n";

#[test]
fn a_kept_job_is_there_and_goes_when_it_is_done(rt: HostRuntime) {
    let path = "kept_and_done";
    let _ = fs::remove_dir_all(&rt, path);
    let disk = Disk::open(&rt, rt.alloc(), path, ROOM).expect(&rt, "a folder");
    let made = fs::metadata(&rt, path).expect(&rt, "the folder");
    assert_eq!(rt; made.permissions().mode() & 0o777, 0o700);
    let mut hand = DiskFolder::new(&disk, 0);
    begin(&mut hand).expect(&rt, "a file");
    append(&mut hand, b"ab", None).expect(&rt, "octets");
    assert!(rt; is_there(&rt, path, "1.tmp") && !is_there(&rt, path, "1.job"));
    append(&mut hand, b"cd", None).expect(&rt, "octets");
    keep(&mut hand).expect(&rt, "a job that is kept");
    assert!(rt; !is_there(&rt, path, "1.tmp"));
    let octets = fs::read(&rt, "kept_and_done/1.job").expect(&rt, "its file");
    assert_eq!(rt; octets.as_slice(), KEPT_OCTETS.as_slice());
    let file = fs::metadata(&rt, "kept_and_done/1.job").expect(&rt, "its file");
    assert_eq!(rt; file.permissions().mode() & 0o777, 0o600);
    hand.pass(70);
    // Nothing is in hand, and nothing of another job goes.
    hand.discard();
    disk.end(1, JobEnd::Done).expect(&rt, "a mark");
    assert!(rt; is_there(&rt, path, "1.job"));
    disk.end(70, JobEnd::Done).expect(&rt, "a file that goes");
    assert!(rt; !is_there(&rt, path, "1.job") && hand.take_fault().is_none());
    fs::remove_dir_all(&rt, path).expect(&rt, "the folder goes");
}

#[test]
fn jobs_end_before_they_are_passed_on(rt: HostRuntime) {
    let path = "ended_before_passed";
    let _ = fs::remove_dir_all(&rt, path);
    let disk = Disk::open(&rt, rt.alloc(), path, ROOM).expect(&rt, "a folder");
    let mut hand = DiskFolder::new(&disk, 0);
    for (job, end) in [(5, JobEnd::Removed), (6, JobEnd::Failed), (7, JobEnd::Done)] {
        keep_one(&rt, &mut hand, b"abcd");
        disk.end(job, end).expect(&rt, "a mark");
        hand.pass(job);
    }
    assert!(rt; hand.take_fault().is_none());
    assert!(rt; !is_there(&rt, path, "1.job") && !is_there(&rt, path, "3.job"));
    assert!(rt; is_there(&rt, path, "2.failed") && !is_there(&rt, path, "2.job"));
    assert_eq!(rt; disk.failed(), 1);
    disk.resend(2).expect(&rt, "a job again");
    assert!(rt; is_there(&rt, path, "2.job") && !is_there(&rt, path, "2.failed"));
    assert_eq!(rt; disk.failed(), 0);
    disk.pass(9, 2).expect(&rt, "an entry");
    disk.end(9, JobEnd::Failed)
        .expect(&rt, "a file that failed");
    assert!(rt; is_there(&rt, path, "2.failed"));
    fs::remove_dir_all(&rt, path).expect(&rt, "the folder goes");
}

/// One that waits, or has failed, goes with its file; one that is coming, or that the spool has, stays.
#[test]
fn what_is_removed_goes(rt: HostRuntime) {
    let path = "removed";
    let _ = fs::remove_dir_all(&rt, path);
    let disk = Disk::open(&rt, rt.alloc(), path, ROOM).expect(&rt, "a folder");
    let mut hand = DiskFolder::new(&disk, 0);
    for has_room in [true, false] {
        let opened = disk.lines().open(0, 0, 7, has_room);
        let NumberedJob { number, state } = opened.expect(&rt, "a number");
        assert_eq!(rt; state == ParkState::Coming, has_room);
        assert_eq!(rt; disk.drop_kept(number).ok(), Some(FileRemoval::IsElsewhere));
        keep_one(&rt, &mut hand, b"abcd");
        disk.lines().keep(0, number, JobSize::NOTHING);
        if has_room {
            hand.pass(9);
        } else {
            hand.leave();
        }
    }
    assert_eq!(rt; disk.drop_kept(1).ok(), Some(FileRemoval::IsElsewhere));
    assert_eq!(rt; disk.drop_kept(2).ok(), Some(FileRemoval::Gone));
    assert!(rt; !is_there(&rt, path, "2.job") && disk.drop_kept(2).is_err());
    disk.end(9, JobEnd::Failed)
        .expect(&rt, "a file that failed");
    assert_eq!(rt; disk.drop_kept(1).ok(), Some(FileRemoval::Gone));
    assert!(rt; !is_there(&rt, path, "1.failed") && !is_there(&rt, path, "1.job"));
    assert_eq!(rt; (disk.failed(), disk.waiting()), (0, 0));
    fs::remove_dir_all(&rt, path).expect(&rt, "the folder goes");
}
