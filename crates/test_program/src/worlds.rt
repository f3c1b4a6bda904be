//! A world of sessions and printers, told by single steps and by runs of steps.

use lpd_values::Octets;
use spool_world::{Deed, Given, Progress, Reply, Step, World};
use std::alloc::{AllocError, Global};
use std::test::Fail;
use test_kit::Spool;

/// One job of 11 octets in queue lp, its data file first.
const STREAM: &[u8] =
    b"\x02lp\n\x0311 dfA001h1\nhello world\x00\x0219 cfA001h1\nHh1\nPann\nfdfA001h1\n\x00";

/// What two sessions write, each a job of one file, and what the printer is given then.
const JOBS: &str = "0000000000 1.0 hello wo going 1.1 rld done 2.0 hello wo going 2.1 rld done";

/// What is replied where there is no such session or printer, where there is nothing to print, and after the end.
const LATER: &str = " unknown unknown unknown nothing empty broken gone closed closed";

/// A world, and what it replied.
#[derive(Drop)]
struct Told {
    alloc: Global,
    world: World,
    text: String,
}

impl Told {
    /// Does a step, and tells the reply.
    fn step(&mut self, step: &Step) -> Result<(), AllocError> {
        let reply = self.world.step(step);
        tell(&mut self.text, &reply)
    }

    /// Does these steps in one run, and tells the replies.
    fn steps(&mut self, steps: &[Step]) -> Result<(), AllocError> {
        for reply in self.world.run(steps)?.iter() {
            tell(&mut self.text, reply)?;
        }
        Ok(())
    }

    /// These octets arrive on sessions 1 and 2.
    fn arrive(&mut self, octets: &[u8]) -> Result<(), AllocError> {
        for session in [1, 2] {
            let octets = Octets::copy_of(self.alloc, octets)?;
            self.step(&Step::Arrive { session, octets })?;
        }
        Ok(())
    }
}

/// Writes a reply behind a text: nothing of what only goes on, and each 00 that was written as a 0.
fn tell(text: &mut String, reply: &Reply) -> Result<(), AllocError> {
    match reply {
        Reply::Connected(_) | Reply::Taken => Ok(()),
        Reply::Turned(Deed::Waited | Deed::Asked(_, _)) => Ok(()),
        Reply::Turned(Deed::Acked) => text.push_str("0"),
        Reply::Turned(Deed::Refused(_) | Deed::Ended) => text.push_str(" over"),
        Reply::Broken => text.push_str(" broken"),
        Reply::Gave(Given::Page(page)) => {
            let octets = str::from_utf8(page.octets.as_slice()).unwrap_or("?");
            write!(text, " {}.{} {octets}", page.job, page.place)
        }
        Reply::Gave(Given::Nothing) => text.push_str(" nothing"),
        Reply::Gave(Given::Stopped) => text.push_str(" stopped"),
        Reply::Gave(Given::Busy) => text.push_str(" busy"),
        Reply::Gave(Given::Closed) => text.push_str(" closed"),
        Reply::Printed(Progress::Going) => text.push_str(" going"),
        Reply::Printed(Progress::Done) => text.push_str(" done"),
        Reply::Printed(Progress::Ended) => text.push_str(" ended"),
        Reply::Failed => text.push_str(" failed"),
        Reply::Closed => text.push_str(" closed"),
        Reply::Gone => text.push_str(" gone"),
        Reply::NoSuch => text.push_str(" unknown"),
        Reply::NoPage => text.push_str(" empty"),
        Reply::Memory => text.push_str(" memory"),
    }
}

#[test]
fn two_sessions(rt: HostRuntime) -> Result<(), Fail> {
    let alloc = rt.alloc();
    let config = Spool::SMALL.config(alloc).ok_or("no configuration")?;
    let mut told = Told {
        alloc,
        world: World::new(alloc, config)?,
        text: String::new(alloc),
    };
    told.steps(&[Step::Connect { sender: 7 }, Step::Connect { sender: 9 }])?;
    let (first, second) = STREAM.split_at(30);
    told.arrive(first)?;
    told.arrive(second)?;
    for _ in 0..20 {
        told.steps(&[Step::Turn { session: 1 }, Step::Turn { session: 2 }])?;
    }
    for _ in 0..4 {
        told.steps(&[Step::Next { printer: 1 }, Step::Printed { printer: 1 }])?;
    }
    assert_eq!(rt; told.text.as_str(), JOBS);
    told.text.clear();
    told.steps(&[
        Step::Break { session: 3 },
        Step::Next { printer: 2 },
        Step::Printed { printer: 0 },
        Step::Next { printer: 1 },
        Step::Printed { printer: 1 },
        Step::Break { session: 2 },
        Step::Turn { session: 2 },
        Step::Shutdown,
        Step::Next { printer: 1 },
    ])?;
    assert_eq!(rt; told.text.as_str(), LATER);
    assert_eq!(rt; told.world.free(), 4);
    Ok(())
}
