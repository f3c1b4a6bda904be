//! An audit of an account.

ghost use Rattle.std.specs.Prelude.{◌≡◌, ◌<◌, ◌≤◌, ◌+◌, ◌*◌, ◌^◌, ◌↔◌, ◌∷◌, [], IfOk, IfSome, IsTrue, MatchOption, if◌then◌else◌, length, reverse};
ghost use Rattle.config_values.specs.Config as S;
ghost use Rattle.spool_history.specs.Legal as L;
ghost use Rattle.spool_history.specs.Now as N;
ghost use Rattle.spool_history.specs.Rotated as R;
ghost use Rattle.spool_history.specs.Steps as T;
ghost use Rattle.account.specs.Kinds.{is_handed_kind, kind_of, number_of};
ghost use Rattle.account.specs.Seen.{base_seen, event_seen, history, octets};
ghost use Rattle.history_reader.specs.Seen.{state_seen};
ghost use Rattle.account_audit.specs.Audited.{Decides};

use crate::steps::enter;
use account::{Base, Entry, Kind, Outline};
use config_values::Config;
use history_reader::{State, now, rotated};
use spool_laws::step_leads;
use std::alloc::{AllocError, Global};
use std::marker::Model;

/// Whether pages are handed out by entries of this kind.
fn is_hand_out(kind: Kind) -> bool
    ensures { result ≡ is_handed_kind kind }
{
    matches!(kind, Kind::Handed)
}

/// An audit of an account that is legal as far as it was read. Contracts see where the entries so far leave the spool,
/// how many they are, the sum of the numbers of their kinds, and how many are hand-outs.
#[derive(Drop)]
pub struct Audit {
    pub(crate) state: State,
    entries: u64,
    kinds: u128,
    handed: u128,
}

impl Model for Audit {
    ghost use Rattle.std.specs.Prelude.{◌≤◌, ◌*◌};
    ghost use Rattle.account_audit.specs.Audited.{AreFew, Audited};

    ghost Value = { Audited };

    ghost view = { λ a. record {
      state = a.state;
      entries = a.entries;
      kinds = a.kinds;
      handed = a.handed;
    } };

    ghost invariant = { λ a. AreFew a.entries a.state.jobs.items
        × (a.kinds ≤ 13 * a.entries)
        × (a.handed ≤ a.entries) };
}

impl Audit {
    /// An audit that has read no entry, from a base on.
    ///
    /// AllocError where memory is refused.
    pub fn begin(alloc: Global, config: &Config, base: &Base) -> Result<Audit, AllocError>
        ensures here { IfOk result (λ a. state_seen config.now a.state
            ≡ N.now config.now (base_seen base.now) []) }
        ensures none { IfOk result (λ a. (a.entries ≡ 0) × (a.kinds ≡ 0) × (a.handed ≡ 0)) }
    {
        Ok(Audit {
            state: now(alloc, config, base, &[])?,
            entries: 0,
            kinds: 0,
            handed: 0,
        })
    }

    /// Reads one entry more. None where it may not come here: then the account is not legal.
    ///
    /// AllocError where memory is refused.
    pub fn step(
        self,
        alloc: Global,
        config: &Config,
        entry: &Entry,
    ) -> Result<Option<Audit>, AllocError>
        requires { self.entries < 2 ^ 63 }
        ensures exact { IfOk result (λ r. MatchOption r
            (L.May octets (state_seen config.now self.state) (event_seen entry.now) → ⊥)
            (λ _. L.May octets (state_seen config.now self.state) (event_seen entry.now))) }
        ensures moves { IfOk result (λ r. IfSome r (λ a. state_seen config.now a.state
            ≡ T.after (event_seen entry.now) (state_seen config.now self.state))) }
        ensures counts { IfOk result (λ r. IfSome r (λ a. a.entries ≡ self.entries + 1)) }
        ensures kinds { IfOk result (λ r. IfSome r (λ a. a.kinds
            ≡ self.kinds + number_of (kind_of (event_seen entry.now)))) }
        ensures handed { IfOk result (λ r. IfSome r (λ a. a.handed
            ≡ self.handed + (if is_handed_kind (kind_of (event_seen entry.now)) then 1 else 0))) }
        ensures decides { IfOk result (Decides config.now self entry.now) }
    {
        step_leads::<Outline>();
        let Audit {
            mut state,
            entries,
            kinds,
            handed,
        } = self;
        if !enter(&mut state, alloc, config, entry, entries)? {
            return Ok(None);
        }
        let kind = entry.kind();
        Ok(Some(Audit {
            state,
            entries: entries + 1,
            kinds: kinds + u128::from(kind.number()),
            handed: handed + u128::from(is_hand_out(kind)),
        }))
    }

    /// How many entries it has read.
    pub fn entries(&self) -> u64
        ensures { result ≡ self.now.entries }
    {
        self.entries
    }

    /// The sum of the numbers of the kinds of these entries.
    pub fn kinds(&self) -> u128
        ensures value { result ≡ self.now.kinds }
        ensures within { result ≤ 13 * self.now.entries }
    {
        self.kinds
    }

    /// How many of these entries are hand-outs.
    pub fn handed(&self) -> u128
        ensures value { result ≡ self.now.handed }
        ensures within { result ≤ self.now.entries }
    {
        self.handed
    }

    /// What the next segment begins from. None exactly where no segment can end here: where a job is held, or the last
    /// acceptance number has more than 64 bits.
    ///
    /// AllocError where memory is refused.
    pub fn end(&self, alloc: Global) -> Result<Option<Base>, AllocError>
        ensures exact { IfOk result (λ r. MatchOption r (self.now.state.jobs.items ≡ []
            → self.now.state.accepted < 2 ^ 64
            → ⊥) (λ _. self.now.state.jobs.items ≡ [])) }
        ensures base { IfOk result (λ r. IfSome r (λ b. (c : S.Config)
            → base_seen b ≡ R.rotated (state_seen c self.now.state))) }
    {
        if !self.state.jobs.is_empty() || self.state.accepted > u128::from(u64::MAX) {
            return Ok(None);
        }
        let base = rotated(alloc, &self.state)?;
        Ok(Some(base))
    }
}

/// Whether these entries, in order of writing, are a legal account from a base on.
///
/// AllocError where memory is refused.
pub fn check(
    alloc: Global,
    config: &Config,
    base: &Base,
    entries: &[Entry],
) -> Result<bool, AllocError>
    requires { length entries.now < 2 ^ 63 }
    ensures { IfOk result (λ b. IsTrue b
        ↔ L.IsLegal octets config.now (base_seen base.now) (history (reverse entries.now))) }
{
    let mut audit = Audit::begin(alloc, config, base)?;
    for entry in entries {
        match audit.step(alloc, config, entry)? {
            Some(next) => audit = next,
            None => return Ok(false),
        }
    }
    Ok(true)
}
