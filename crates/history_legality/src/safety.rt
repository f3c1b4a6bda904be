//! What jobs hold and may still need, what is free, and whether they all can finish.

ghost use Rattle.std.specs.Prelude.{◌≡◌, ℕ, ◌↔◌, ◌<◌, ◌^◌, IfOk, IsTrue, length, map, filter};
ghost use Rattle.counts.specs.Amounts.{amount};
ghost use Rattle.config_values.specs.Config as S;
ghost use Rattle.spool_history.specs.Events as E;
ghost use Rattle.spool_history.specs.Now as N;
ghost use Rattle.spool_history.specs.Steps.{change};
ghost use Rattle.spool_history.specs.Legal.{MayGrant};
ghost use Rattle.history_reader.specs.Seen.{job_seen, state_seen};
ghost use Rattle.history_legality.specs.Claimed.{row_seen, rows_seen, with_lent, free_beside, AreSafe};

use crate::orders::{Claim, beyond, has_finishing_order, kinds};
use config_values::{Config, Queue};
use history_reader::{Job, State};
use std::alloc::{AllocError, Global};

/// The pages of a job that are out: one where one is lent to its session, and those that are at printers.
fn pages_out(job: &Job, lent: bool) -> u128
    ensures { result ≡ N.pages_out (record (job_seen job.now) { lent = lent }) }
{
    u128::from(lent) + u128::from(job.handed).saturating_sub(u128::from(job.back))
}

/// The pages that a job holds, where so many were lent to it, and one is lent now or not.
fn pages_held(alloc: Global, job: &Job, granted: u128, lent: bool) -> Result<u128, AllocError>
    ensures { IfOk result (λ n. n ≡ N.pages_held (with_lent granted lent (job_seen job.now))) }
{
    if job.ended {
        return Ok(pages_out(job, lent));
    }
    if !job.is_received() {
        return Ok(granted);
    }
    let kept = job.pages_kept(alloc)?;
    Ok(kept.len() as u128)
}

/// The printers that a job holds.
fn printers_held(job: &Job) -> u128
    ensures { result ≡ N.printers_held (job_seen job.now) }
{
    if job.handed == 0 { 0 } else { 1 }
}

/// The pages that a job may still need, where so many were lent to it.
fn pages_needed(config: &Config, job: &Job, granted: u128) -> u128
    ensures { result ≡ N.pages_needed config.now (record (job_seen job.now) { granted = granted }) }
{
    if job.ended || job.is_received() {
        return 0;
    }
    u128::from(config.limit_of(job.queue)).saturating_sub(granted)
}

/// The printers that a job may still need.
fn printers_needed(job: &Job) -> u128
    ensures { result ≡ N.printers_needed (job_seen job.now) }
{
    if job.ended || job.handed != 0 { 0 } else { 1 }
}

/// What a job holds and may still need, where so many pages were lent to it, and one is lent now or not.
fn claim_of(
    alloc: Global,
    config: &Config,
    job: &Job,
    granted: u128,
    lent: bool,
) -> Result<Claim, AllocError>
    ensures { IfOk result (λ x. row_seen config.now x
        ≡ N.row_of config.now (with_lent granted lent (job_seen job.now))) }
{
    Ok(Claim {
        number: job.number,
        sender: job.sender,
        queue: job.queue,
        held_pages: pages_held(alloc, job, granted, lent)?,
        held_printers: printers_held(job),
        need_pages: pages_needed(config, job, granted),
        need_printers: printers_needed(job),
    })
}

/// The claims of these jobs.
fn claims_of(alloc: Global, config: &Config, jobs: &[Job]) -> Result<Vec<Claim>, AllocError>
    ensures { IfOk result (λ v. rows_seen config.now v.items
        ≡ map (N.row_of config.now) (map job_seen jobs.now)) }
{
    let Some((job, rest)) = jobs.split_first() else {
        return Ok(Vec::new(alloc));
    };
    let claim = claim_of(alloc, config, job, u128::from(job.granted), job.lent)?;
    let mut claims = claims_of(alloc, config, rest)?;
    claims.insert(0, claim)?;
    Ok(claims)
}

/// The claims of these jobs that are held once a page more was lent to the job of this number.
fn claims_with_page(
    alloc: Global,
    config: &Config,
    jobs: &[Job],
    number: u64,
) -> Result<Vec<Claim>, AllocError>
    ensures { IfOk result (λ v. rows_seen config.now v.items
        ≡ map (N.row_of config.now)
        (filter N.is_held
        (map (change (E.Event.OfJob number E.Act.Granted)) (map job_seen jobs.now)))) }
{
    let Some((job, rest)) = jobs.split_first() else {
        return Ok(Vec::new(alloc));
    };
    let mut claims = claims_with_page(alloc, config, rest, number)?;
    if number == job.number {
        let claim = claim_of(alloc, config, job, u128::from(job.granted) + 1, true)?;
        claims.insert(0, claim)?;
    } else if job.is_held() {
        let claim = claim_of(alloc, config, job, u128::from(job.granted), job.lent)?;
        claims.insert(0, claim)?;
    }
    Ok(claims)
}

/// The printers of the queue at a place, or 0 where there is none.
fn printers_at(queues: &[Queue], place: usize) -> u32
    ensures { result ≡ amount (map (λ (q : S.Queue). q.printers) queues.now) place }
{
    let Some((first, rest)) = queues.split_first() else {
        return 0;
    };
    if place == 0 {
        return first.printers();
    }
    printers_at(rest, place - 1)
}

/// What there is of a kind.
fn capacity_of(config: &Config, kind: usize) -> u32
    ensures { result ≡ amount (N.capacity config.now) kind }
{
    if kind == 0 {
        return config.pages();
    }
    printers_at(config.queues(), kind - 1)
}

/// What is free of a kind, where these claims are all.
fn free_of(config: &Config, claims: &[Claim], kind: usize) -> u128
    ensures value { result ≡ free_beside config.now (rows_seen config.now claims.now) kind }
    ensures within { result < 2 ^ 32 }
{
    let total = u128::from(capacity_of(config, kind));
    beyond(config, total, claims, kind)
}

/// What is free of each kind, where these claims are all.
fn free_amounts(alloc: Global, config: &Config, claims: &[Claim]) -> Result<Vec<u128>, AllocError>
    ensures { IfOk result (λ v. (kind : ℕ) → amount v.items kind
        ≡ free_beside config.now (rows_seen config.now claims.now) kind) }
{
    let mut free = Vec::new(alloc);
    for kind in 0..kinds(config) {
        free.push(free_of(config, claims, kind))?;
    }
    Ok(free)
}

/// Whether an order exists in which each of these claims can be met, where they are all.
fn are_safe(alloc: Global, config: &Config, claims: &[Claim]) -> Result<bool, AllocError>
    ensures { IfOk result (λ b. IsTrue b ↔ AreSafe config.now (rows_seen config.now claims.now)) }
{
    let free = free_amounts(alloc, config, claims)?;
    has_finishing_order(alloc, config, free.as_slice(), claims)
}

/// How many pages no held job holds.
pub fn free_pages(alloc: Global, config: &Config, state: &State) -> Result<u64, AllocError>
    ensures { IfOk result (λ n. n ≡ N.free_pages (state_seen config.now state.now)) }
{
    let claims = claims_of(alloc, config, state.jobs.as_slice())?;
    Ok(free_of(config, claims.as_slice(), 0) as u64)
}

/// Whether an order exists in which all held jobs can finish.
pub fn is_safe_now(alloc: Global, config: &Config, state: &State) -> Result<bool, AllocError>
    ensures { IfOk result (λ b. IsTrue b ↔ N.IsSafeNow (state_seen config.now state.now)) }
{
    let claims = claims_of(alloc, config, state.jobs.as_slice())?;
    are_safe(alloc, config, claims.as_slice())
}

/// Whether a page is free, and the spool is safe once it is lent to the job of this number.
pub fn may_grant(
    alloc: Global,
    config: &Config,
    state: &State,
    number: u64,
) -> Result<bool, AllocError>
    ensures { IfOk result (λ b. IsTrue b ↔ MayGrant (state_seen config.now state.now) number) }
{
    if free_pages(alloc, config, state)? == 0 {
        return Ok(false);
    }
    let claims = claims_with_page(alloc, config, state.jobs.as_slice(), number)?;
    are_safe(alloc, config, claims.as_slice())
}
