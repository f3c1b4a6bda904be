//! Whether an order exists in which each of some claims can be met: the plain search over all orders.

ghost use Rattle.std.specs.Prelude.{◌≡◌, ◌+◌, ◌-◌, ◌↔◌, IfOk, IsTrue, length};
ghost use Rattle.std.specs.List.{AllByRecursion};
ghost use Rattle.counts.specs.Amounts.{amount, Fits};
ghost use Rattle.claims.specs.Safety.{KeepsLine, HasFinishingOrder};
ghost use Rattle.spool_history.specs.Now.{amounts};
ghost use Rattle.history_legality.specs.Claimed.{row_seen, rows_seen, held_in, with_back};

use config_values::Config;
use std::alloc::{AllocError, Global};

/// What a job holds and may still need: pages, and printers of its queue.
#[derive(Clone, Copy)]
pub struct Claim {
    /// Its number.
    pub number: u64,
    /// Who sent it.
    pub sender: u32,
    /// The number of its queue.
    pub queue: u32,
    /// The pages that it holds.
    pub held_pages: u128,
    /// The printers that it holds.
    pub held_printers: u128,
    /// The pages that it may still need.
    pub need_pages: u128,
    /// The printers that it may still need.
    pub need_printers: u128,
}

/// How many kinds there are: pages, and the printers of each queue.
pub(crate) fn kinds(config: &Config) -> usize
    ensures { result ≡ length config.now.queues + 1 }
{
    config.queues().len() + 1
}

/// So many pages and so many printers of a queue, as an amount of this kind.
fn amount_of(config: &Config, pages: u128, queue: u32, printers: u128, kind: usize) -> u128
    ensures { result ≡ amount (amounts config.now pages queue printers) kind }
{
    if kind == 0 {
        return pages;
    }
    if kind > config.queues().len() {
        return 0;
    }
    if kind == queue as usize { printers } else { 0 }
}

/// What is left of a total of a kind without what these claims hold.
pub(crate) fn beyond(config: &Config, total: u128, claims: &[Claim], kind: usize) -> u128
    ensures { result ≡ total - held_in kind (rows_seen config.now claims.now) }
{
    let Some((claim, rest)) = claims.split_first() else {
        return total;
    };
    let held = amount_of(
        config,
        claim.held_pages,
        claim.queue,
        claim.held_printers,
        kind,
    );
    beyond(config, total.saturating_sub(held), rest, kind)
}

/// The amount of a kind, and 0 of a kind that the list lacks.
fn amount_at(amounts: &[u128], kind: usize) -> u128
    ensures { result ≡ amount amounts.now kind }
{
    amounts.get(kind).copied().unwrap_or(0)
}

/// Whether what a claim needs is free, where these others gave back what they held.
fn fits(config: &Config, free: &[u128], gone: &[Claim], claim: &Claim) -> bool
    ensures { IsTrue result
        ↔ Fits (row_seen config.now claim.now).need (with_back config.now (amount free.now) gone.now) }
{
    for kind in 0..kinds(config) {
        let need = amount_of(
            config,
            claim.need_pages,
            claim.queue,
            claim.need_printers,
            kind,
        );
        if beyond(config, need, gone, kind) > amount_at(free, kind) {
            return false;
        }
    }
    true
}

/// Whether a claim has a lower number than each of these others of its sender and queue.
fn stands_first(config: &Config, claim: &Claim, others: &[Claim]) -> bool
    ensures { IsTrue result
        ↔ AllByRecursion (KeepsLine (row_seen config.now claim.now)) (rows_seen config.now others.now) }
{
    let Some((other, rest)) = others.split_first() else {
        return true;
    };
    if claim.sender == other.sender && claim.queue == other.queue && other.number <= claim.number {
        return false;
    }
    stands_first(config, claim, rest)
}

/// Whether an order exists in which each of these claims can be met, where those that are gone gave back what they held.
fn has_order(
    alloc: Global,
    config: &Config,
    free: &[u128],
    gone: &[Claim],
    claims: &[Claim],
) -> Result<bool, AllocError>
    ensures { IfOk result (λ b. IsTrue b
        ↔ HasFinishingOrder (with_back config.now (amount free.now) gone.now) (rows_seen config.now claims.now)) }
{
    if claims.is_empty() {
        return Ok(true);
    }
    for place in 0..claims.len() {
        let mut others = Vec::from_slice(alloc, claims)?;
        let claim = others.remove(place);
        if stands_first(config, &claim, &others) && fits(config, free, gone, &claim) {
            let mut more = Vec::from_slice(alloc, gone)?;
            more.push(claim)?;
            if has_order(alloc, config, free, &more, &others)? {
                return Ok(true);
            }
        }
    }
    Ok(false)
}

/// Whether an order exists in which each of these claims can be met from what is free of each kind: pages, and then the
/// printers of each queue.
pub fn has_finishing_order(
    alloc: Global,
    config: &Config,
    free: &[u128],
    claims: &[Claim],
) -> Result<bool, AllocError>
    ensures { IfOk result (λ b. IsTrue b
        ↔ HasFinishingOrder (amount free.now) (rows_seen config.now claims.now)) }
{
    has_order(alloc, config, free, &[], claims)
}
