//! What a run has come to since its last base.

ghost use Rattle.std.specs.Prelude.{◌≡◌, ◌<◌, ◌≤◌, ◌+◌, ◌^◌, ◌↔◌, ◌∷◌, IfOk, IfSome, IsTrue, MatchOption};
ghost use Rattle.account.specs.Seen.{base_seen, event_seen, octets};
ghost use Rattle.config_values.specs.Config as S;
ghost use Rattle.spool_history.specs.Legal.{May};
ghost use Rattle.spool_laws.specs.Freeing.{wider};
ghost use Rattle.history_reader.specs.Seen.{state_seen};
ghost use Rattle.account_audit.specs.Giving.{given_back};
ghost use Rattle.segment_text.specs.Seen.{start_seen};
ghost use Rattle.segment_audit.specs.Audited as A;
ghost use Rattle.segment_audit.specs.Read.{IsCourse};

use account::{Base, Entry, Outline};
use account_audit::Audit;
use config_values::Config;
use segment_text::{Begin, Start, same_base};
use spool_laws::wider_is_legal;
use std::alloc::{AllocError, Global};

/// What a run has come to since its last base.
pub(crate) struct Course {
    /// What its spool is made for, with the entries more that its account may have.
    pub(crate) config: Config,
    /// How many these are: so much of what was counted was given back.
    pub(crate) freed: u64,
    /// How many entries were before that base in the run.
    pub(crate) entries: u64,
    /// The sum of the numbers of the kinds of these.
    pub(crate) kinds: u64,
    /// How many of these are hand-outs.
    pub(crate) handed: u64,
    /// The audit of the entries since.
    pub(crate) audit: Audit,
}

// Written out: each place that lets one go is then one call, and not the drops of all that it holds.
impl Drop for Course {
    fn drop(self) {
        let Course {
            config: _,
            freed: _,
            entries: _,
            kinds: _,
            handed: _,
            audit: _,
        } = self;
    }
}

/// With this configuration an account has so many entries more. None where they would be more than one may say.
fn widened(config: Config, more: u128) -> Option<Config>
    ensures { MatchOption result (more + config.account ≤ 2 ^ 62 → ⊥)
        (λ c. (more + config.account ≤ 2 ^ 62) × (c ≡ wider more config)) }
{
    let account = config.account();
    let most = (1u64 << 62) - account;
    if more > u128::from(most) {
        return None;
    }
    let mut config = config;
    config.set_account(more as u64 + account);
    Some(config)
}

/// The last acceptance number of a base has 64 bits.
fn has_range(base: &Base)
    ensures { base.now.accepted < 2 ^ 64 }
{
    let _accepted = base.accepted;
}

/// Whether two numbers are the same.
fn is_same(one: u64, other: u64) -> bool
    ensures { IsTrue result ↔ (one ≡ other) }
{
    one == other
}

/// Whether a number is the sum of others.
fn is_sum(sum: u64, more: u128, number: u64) -> bool
    ensures { IsTrue result ↔ (sum ≡ more + number) }
{
    number <= sum && u128::from(sum - number) == more
}

impl Course {
    /// A run of this configuration begins, or goes on, from a base, with this before it.
    ///
    /// AllocError where memory is refused.
    pub(crate) fn begin(
        alloc: Global,
        config: &Config,
        start: &Start,
        base: &Base,
    ) -> Result<Course, AllocError>
        ensures course { IfOk result (λ k. IsCourse k
            (A.from_base config.now (start_seen start.now) (base_seen base.now))) }
        ensures few { IfOk result (λ k. k.audit.entries ≡ 0) }
    {
        Ok(Course {
            config: Config::copy_of(alloc, config)?,
            freed: 0,
            entries: start.entries,
            kinds: start.kinds,
            handed: start.handed,
            audit: Audit::begin(alloc, config, base)?,
        })
    }

    /// One entry more. None where it may not come.
    ///
    /// AllocError where memory is refused.
    pub(crate) fn step(self, alloc: Global, entry: &Entry) -> Result<Option<Course>, AllocError>
        requires { self.audit.entries < 2 ^ 63 }
        ensures course { IfOk result (λ r. (c : A.Course) → IsCourse self c → MatchOption r
            (May octets (A.state_at c) (event_seen entry.now) → ⊥)
            (λ k. May octets (A.state_at c) (event_seen entry.now)
            × IsCourse k (record c { events = event_seen entry.now ∷ c.events }))) }
        ensures few { IfOk result (λ r. IfSome r (λ k. k.audit.entries ≡ self.audit.entries + 1)) }
    {
        let Course {
            config,
            freed,
            entries,
            kinds,
            handed,
            audit,
        } = self;
        match audit.step(alloc, &config, entry)? {
            Some(audit) => Ok(Some(Course {
                config,
                freed,
                entries,
                kinds,
                handed,
                audit,
            })),
            None => Ok(None),
        }
    }

    /// Whether this stands at the end of a segment of version 1: no job is held, and the last acceptance number has 64 bits.
    ///
    /// AllocError where memory is refused.
    pub(crate) fn is_at_rest(&self, alloc: Global) -> Result<bool, AllocError>
        ensures { IfOk result (λ b. (c : A.Course) → IsCourse self.now c
            → (IsTrue b ↔ A.IsAtRest (A.state_at c))) }
    {
        match self.audit.end(alloc)? {
            Some(base) => {
                has_range(&base);
                Ok(true)
            }
            None => Ok(false),
        }
    }

    /// Whether a segment tells of as many entries before it, of their kinds and of hand-outs.
    fn has_counted(&self, start: &Start) -> bool
        ensures { IsTrue result ↔ ((start.now.entries ≡ self.now.entries + self.now.audit.entries)
            × (start.now.kinds ≡ self.now.kinds + self.now.audit.kinds)
            × (start.now.handed ≡ self.now.handed + self.now.audit.handed)) }
    {
        u128::from(start.entries) == u128::from(self.entries) + u128::from(self.audit.entries())
            && u128::from(start.kinds) == u128::from(self.kinds) + self.audit.kinds()
            && u128::from(start.handed) == u128::from(self.handed) + self.audit.handed()
    }

    /// Whether a segment begins from the base that this leaves.
    ///
    /// AllocError where memory is refused.
    pub(crate) fn rests(&self, alloc: Global, start: &Start) -> Result<bool, AllocError>
        ensures { IfOk result (λ b. (c : A.Course) → IsCourse self.now c
            → (IsTrue b ↔ A.Rests c (start_seen start.now))) }
    {
        let Begin::Base(base) = &start.begin else {
            return Ok(false);
        };
        if !self.has_counted(start) {
            return Ok(false);
        }
        match self.audit.end(alloc)? {
            Some(left) => {
                has_range(&left);
                Ok(same_base(&left, base))
            }
            None => Ok(false),
        }
    }

    /// Whether a segment begins amid the jobs from what this has come to, where a trim gives so much back.
    fn comes_to(&self, start: &Start, more: u128) -> bool
        requires { more
            ≡ given_back (state_seen self.now.config self.now.audit.state) self.now.freed }
        ensures { (c : A.Course) → IsCourse self.now c
            → (IsTrue result ↔ (start_seen start.now ≡ A.amid c)) }
    {
        let Begin::Amid { since, freed } = &start.begin else {
            return false;
        };
        if !self.has_counted(start) {
            return false;
        }
        if !is_same(*since, self.audit.entries()) {
            return false;
        }
        is_sum(*freed, more, self.freed)
    }

    /// Goes on with a segment that begins amid the jobs. None where that one doesn't begin from what this has come to.
    pub(crate) fn go_amid(self, start: &Start) -> Option<Course>
        ensures course { (c : A.Course) → IsCourse self c → MatchOption result
            (A.GoesAmid c (start_seen start.now) → ⊥)
            (λ k. A.GoesAmid c (start_seen start.now) × IsCourse k (A.widened c)) }
        ensures few { IfSome result (λ k. k.audit.entries ≡ self.audit.entries) }
    {
        wider_is_legal::<Outline>();
        let Begin::Amid { freed, .. } = &start.begin else {
            return None;
        };
        let more = self.audit.gives_back(&self.config, self.freed);
        if !self.comes_to(start, more) {
            return None;
        }
        let Course {
            config,
            freed: _,
            entries,
            kinds,
            handed,
            audit,
        } = self;
        match widened(config, more) {
            Some(config) => Some(Course {
                config,
                freed: *freed,
                entries,
                kinds,
                handed,
                audit,
            }),
            None => None,
        }
    }
}
