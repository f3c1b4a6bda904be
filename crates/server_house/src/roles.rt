//! Who gets which seat.
//!
//! That is said in this one place and by name, so that a thread more shifts no other's seat.

ghost use Rattle.std.specs.Prelude.{◌≡◌, ◌↔◌, ◌<◌, IfErr};
ghost use Rattle.server_house.specs.declared.faults.ServerFault.TheVariants.{Memory};
ghost use Rattle.connection_lobby.specs.declared.desk.Serves.TheVariants.{NoJobs};

use crate::faults::ServerFault;
use crate::ledgers::{HouseLedger, HouseSeat, PrintingSeat};
use connection_lobby::Serves;

/// How many sessions serve connections that bring no job, and those alone.
pub const NO_JOB_SESSIONS: u32 = 2;

/// How many sessions' seats are for others than sessions: the porter, the watcher, the steward and
/// the feeder.
pub const OTHERS: u32 = 4;

/// Seats at a spool.
#[derive(Drop)]
pub struct Seats<E: HouseLedger> {
    pub sessions: Vec<HouseSeat<E>>,
    pub printers: Vec<PrintingSeat<E>>,
}

/// The seats by who gets them.
#[derive(Drop)]
pub struct Roles<E: HouseLedger> {
    /// Who hands connections on.
    pub porter: HouseSeat<E>,
    /// Who looks for peers that are gone.
    pub watcher: HouseSeat<E>,
    /// Who does what is asked at the control socket and by signals.
    pub steward: HouseSeat<E>,
    /// Who has the spool take what a folder has kept.
    pub feeder: HouseSeat<E>,
    pub sessions: Vec<HouseSeat<E>>,
    pub printers: Vec<PrintingSeat<E>>,
}

impl<E: HouseLedger> Roles<E> {
    /// Deals the seats out: the last ones to others than sessions. Memory where one is missing.
    pub fn deal(
        sessions: Vec<HouseSeat<E>>,
        printers: Vec<PrintingSeat<E>>,
    ) -> Result<Roles<E>, ServerFault>
        ensures { IfErr result (λ fault. fault ≡ Memory) }
    {
        let mut sessions = sessions;
        let Some(porter) = sessions.pop() else {
            return Err(ServerFault::Memory);
        };
        let Some(watcher) = sessions.pop() else {
            return Err(ServerFault::Memory);
        };
        let Some(steward) = sessions.pop() else {
            return Err(ServerFault::Memory);
        };
        let Some(feeder) = sessions.pop() else {
            return Err(ServerFault::Memory);
        };
        Ok(Roles {
            porter,
            watcher,
            steward,
            feeder,
            sessions,
            printers,
        })
    }
}

/// Which connections the session of this seat serves.
pub fn serves_at(seat: u32) -> Serves
    ensures { (result ≡ NoJobs) ↔ seat < 2 }
{
    if seat < NO_JOB_SESSIONS {
        Serves::NoJobs
    } else {
        Serves::All
    }
}
