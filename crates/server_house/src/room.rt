//! Room in the account: new jobs wait for a rotation for a moment where it is nearly full.

ghost use Rattle.std.specs.Prelude.{◌≡◌, ◌≤◌, ◌+◌, ◌-◌, ◌*◌, ◌/◌, ℕ, max};
ghost use Rattle.config_values.specs.Config.{IsQueue, reserve_of};
ghost use Rattle.server_house.specs.Rotating.{most_beside, next_hold};

use crate::ledgers::{HouseLedger, HouseSpool};
use config_values::Config;
use log::{Log, warn};
use server_notes::milliseconds_since;
use std::rt::Clock;
use std::sync::Wait;
use std::time::Instant;

/// The time without room after which that is told, and told again, in seconds.
const TELL_SECONDS: u64 = 60;

/// Whether new jobs wait.
///
/// ```text
///        nearly full          waited in vain
///   No --------------> Since -----------------> Over
///    ^                  | ^                      | |
///    +------ room ------+ +------ a job left ----+ |
///    +------------------- room ---------------------+
/// ```
#[derive(Clone, Copy)]
pub enum Hold {
    No,
    /// They wait since this moment.
    Since(Instant),
    /// They have waited in vain: `held` jobs were held then.
    Over { held: usize },
}

impl Hold {
    /// What it is where the account is nearly full at this moment, `held` jobs are held, and those
    /// that wait have waited for `waited_ms` milliseconds, of `longest_ms` at most.
    fn goes_on(self, now: Instant, waited_ms: u64, longest_ms: u64, held: usize) -> Hold
        ensures { result ≡ next_hold self now waited_ms longest_ms held }
    {
        match self {
            Hold::No => Hold::Since(now),
            Hold::Since(start) if waited_ms < longest_ms => Hold::Since(start),
            Hold::Since(_) => Hold::Over { held },
            Hold::Over { held: before } if held < before => Hold::Since(now),
            Hold::Over { .. } => Hold::Over { held },
        }
    }

    /// For how many milliseconds new jobs have waited.
    fn waited_ms<R: Clock>(self, rt: &R) -> u64 {
        match self {
            Hold::Since(start) => milliseconds_since(rt, start),
            Hold::No | Hold::Over { .. } => 0,
        }
    }
}

/// Room in the account, where it is kept.
#[derive(Clone, Copy)]
pub struct AccountRoom {
    /// From how many counted entries on the account is rotated.
    pub least: u64,
    // Where more entries are counted than these, new jobs wait. Up to here there is room for two jobs
    // of the largest limit in each session; or the account isn't rotated yet, where that is more.
    most: u64,
    // Where more are counted than these, there is no room for a job of the largest limit.
    full: u64,
    // How many entries a job of the largest limit takes at most, and one more.
    reserve: u64,
    account: u64,
    sessions: u64,
    // For how many milliseconds new jobs wait, at most.
    longest_ms: u64,
    hold: Hold,
    // Since when there is no room, and when that was told last.
    full_since: Option<(Instant, Instant)>,
}

impl AccountRoom {
    /// Room in the account of this configuration, which is rotated once a quarter of it is counted,
    /// where `sessions` threads serve connections that may bring a job. New jobs wait for it for
    /// `longest_ms` milliseconds at most.
    pub fn new(config: &Config, sessions: u32, longest_ms: u64) -> AccountRoom
        ensures room { (queue : ℕ) → IsQueue config.now queue
            → result.full ≤ config.now.account - (reserve_of config.now queue + 1) }
        ensures least { result.least ≡ max (config.now.account / 4) 1 }
        ensures most { (queue : ℕ) → IsQueue config.now queue → result.most
            ≤ max (config.now.account - (reserve_of config.now queue + 1) * (2 * sessions))
            (result.least - 1) }
    {
        let queues = config.queues().len() as u32;
        let mut largest = 0;
        for queue in 0..queues {
            largest = config.reserve_of(queue + 1).max(largest);
        }
        // Each connection that is served, or waits for that, may bring a job that isn't counted
        // yet.
        let sessions = u64::from(sessions);
        let jobs = sessions.saturating_mul(2);
        let reserve = largest + 1;
        let account = config.account();
        let least = (account / 4).max(1);
        let most = account.saturating_sub(reserve.saturating_mul(jobs));
        AccountRoom {
            least,
            most: most.max(least.saturating_sub(1)),
            full: account.saturating_sub(reserve),
            reserve,
            account,
            sessions,
            longest_ms,
            hold: Hold::No,
            full_since: None,
        }
    }

    /// Where more entries are counted than these beside N held jobs, new jobs wait. What is held is counted and can't be given back: up to
    /// here the account isn't trimmed yet, so they would wait in vain, as long as there is room for one job in each session.
    fn most_beside(&self, held: usize) -> u64
        ensures { result ≡ most_beside self.now held }
    {
        let held = (held as u64).saturating_mul(self.reserve);
        let trimmed = self.least.saturating_add(held);
        let tight = self
            .account
            .saturating_sub(self.reserve.saturating_mul(self.sessions));
        trimmed.min(tight).max(self.most)
    }

    /// Says for how long there has been no room, after a minute and once a minute from then on.
    fn tell_full<R: Clock + Log>(&mut self, rt: &R, counted: u64) {
        if counted <= self.full {
            self.full_since = None;
            return;
        }
        let Ok(now) = Instant::now(rt) else {
            return;
        };
        let (since, told) = self.full_since.unwrap_or((now, now));
        if milliseconds_since(rt, told) < TELL_SECONDS.saturating_mul(1_000) {
            self.full_since = Some((since, told));
            return;
        }
        self.full_since = Some((since, now));
        let seconds = milliseconds_since(rt, since) / 1_000;
        warn!(rt; "the account has had no room for {seconds} s: jobs are refused until held ones have gone");
    }

    /// Whether new jobs are let in.
    pub fn lets_jobs_in<E: HouseLedger, R: Clock + Log + Wait>(
        &mut self,
        rt: &R,
        spool: &HouseSpool<E>,
    ) -> bool {
        let counted = spool.counted_reserve(rt);
        self.tell_full(rt, counted);
        if counted <= self.most {
            self.hold = Hold::No;
            return true;
        }
        let held = spool.vacancy(rt).held;
        if counted <= self.most_beside(held) {
            self.hold = Hold::No;
            return true;
        }
        let Ok(now) = Instant::now(rt) else {
            return true;
        };
        let waited_ms = self.hold.waited_ms(rt);
        self.hold = self.hold.goes_on(now, waited_ms, self.longest_ms, held);
        matches!(self.hold, Hold::Over { .. })
    }
}
