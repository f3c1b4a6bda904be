//! Values through their public items: texts of refusals, a page, and a job that is accepted.

use claims::OpenError;
use counts::TooLarge;
use lpd_commands::Refusal;
use page_chain::ChainError;
use page_pool::Pool;
use queues::Book;
use std::test::Fail;

/// Refusals as they are printed, with their numbers and the octets that are sent.
const REFUSALS: &str = "\
1 UnknownQueue: 1 1
12 Memory: 12 2
44 BadLength: 44 1
10 NotOpen: 10 2
6 ControlTwice: 6 1
35 NoZero: 35 1
";

#[test]
fn refusals(rt: HostRuntime) {
    let mut text = String::new(rt.alloc());
    for refusal in [
        Refusal::UnknownQueue,
        Refusal::Memory,
        Refusal::BadLength,
        Refusal::NotOpen,
        Refusal::ControlTwice,
        Refusal::NoZero,
    ] {
        let (number, octet) = (refusal.number(), refusal.octet());
        write!(text, "{refusal}: {number} {octet}\n").expect(&rt, "memory");
    }
    assert_eq!(rt; text.as_str(), REFUSALS);
}

#[test]
fn texts_of_tables(rt: HostRuntime) {
    let alloc = rt.alloc();
    let (over, full, memory) = (OpenError::OverCapacity, OpenError::Full, OpenError::Memory);
    let text = format!(in alloc; "{} {over} {full} {memory}", TooLarge).expect(&rt, "memory");
    let wanted = "23 TooLarge 21 OverCapacity 22 Full 12 Memory";
    assert_eq!(rt; text.as_str(), wanted);
    let (taken, full) = (ChainError::NameTaken, ChainError::FilesFull);
    let text = format!(in alloc; "{taken} {full}").expect(&rt, "memory");
    assert_eq!(rt; text.as_str(), "7 NameTaken 8 FilesFull");
}

/// SHA-256 of `abc` (FIPS 180-4).
const ABC: [u8; 32] = [
    0xba, 0x78, 0x16, 0xbf, 0x8f, 0x01, 0xcf, 0xea, 0x41, 0x41, 0x40, 0xde, 0x5d, 0xae, 0x22, 0x23,
    0xb0, 0x03, 0x61, 0xa3, 0x96, 0x17, 0x7a, 0x9c, 0xb4, 0x10, 0xff, 0x61, 0xf2, 0x00, 0x15, 0xad,
];

#[test]
fn digest_of_abc(rt: HostRuntime) -> Result<(), Fail> {
    let mut pool = Pool::new(rt.alloc(), 1, 3)?;
    let mut is_full = false;
    match pool.take() {
        Some(mut ticket) => {
            let _ = ticket.push(b"abc");
            is_full = ticket.is_full();
            if ticket.is_empty() {
                ticket.surrender();
                assert!(rt; false);
            } else {
                let page = ticket.seal();
                let digest = page.digest();
                page.unseal().surrender();
                assert_eq!(rt; digest, ABC);
            }
        }
        None => assert!(rt; false),
    }
    assert!(rt; is_full);
    assert_eq!(rt; pool.free(), 0);
    Ok(())
}

/// A job that is accepted is the first one of its sender; a listing leaves it out until it is received.
#[test]
fn a_job_that_is_accepted(rt: HostRuntime) -> Result<(), Fail> {
    let mut book = Book::new(rt.alloc(), 2, 4, 8)?;
    book.add(7, 1, 0)?;
    assert_eq!(rt; book.head_of_sender(1, 0), Some(0));
    assert_eq!(rt; book.head_of_sender(2, 0), None);
    assert!(rt; book.listing(0, &[], true)?.as_slice().is_empty());
    Ok(())
}
