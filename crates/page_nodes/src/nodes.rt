//! The chains: which pages each has, in order.

ghost use Rattle.std.specs.Prelude.{◌≡◌, ◌+◌, ◌<◌, ◌≤◌, ◌++◌, ◌∷◌, [], Some, IfOk, length, drop, map, replicate};
ghost use Rattle.page_nodes.specs.Chains.{Chains, chain_of, with_chain, total, AreOfSize};

use crate::slots::{empty, fill, no_pages, page_in, surrender_all};
use crate::strand::{Strand, extended};
use page_pool::{FilledPage, Pool};
use slab::Slab;
use std::alloc::{AllocError, Global};
use std::marker::Model;

/// The pages of many chains, which are numbered from 0. Room is for so many pages in all, in whichever chains they lie.
///
/// Nodes that are dropped spend the pages that are left: no pool gets those back.
pub struct Nodes {
    /// The next node of each node in use.
    links: Slab<usize>,
    /// The page of each node in use.
    slots: Vec<Option<FilledPage>>,
    /// The nodes of each chain.
    strands: Vec<Strand>,
    room: usize,
}

impl Model for Nodes {
    ghost use Rattle.page_nodes.specs.Chains.{Chains};

    ghost Value = { Chains };

    ghost use Rattle.page_nodes.specs.Links.{chains_of, IsSound};

    ghost view = { λ n. record {
      chains = chains_of n.links n.slots.items n.strands.items;
      room = n.room;
    } };

    ghost invariant = { λ n. IsSound n.links n.slots.items n.strands.items n.room };
}

impl Drop for Nodes {
    fn drop(self) {
        let Nodes {
            links: _,
            slots,
            strands: _,
            room: _,
        } = self;
        surrender_all(slots);
    }
}

impl Nodes {
    /// `chains` chains with no page, and room for `pages` pages in all.
    ///
    /// AllocError where memory for them is refused. No other call is given an allocator.
    pub fn new(alloc: Global, pages: usize, chains: usize) -> Result<Nodes, AllocError>
        ensures { IfOk result (λ n. n ≡ record { chains = replicate chains []; room = pages }) }
    {
        let links = Slab::with_capacity(alloc, pages)?;
        let none = Strand {
            first: 0,
            last: 0,
            len: 0,
        };
        let strands = vec![in alloc; none; chains]?;
        let slots = no_pages(alloc, links.capacity())?;
        Ok(Nodes {
            links,
            slots,
            strands,
            room: pages,
        })
    }

    /// How many more pages there is room for, in whichever chains.
    pub fn free(&self) -> usize
        ensures { result + total self.now.chains ≡ self.now.room }
    {
        self.room - self.links.len()
    }

    /// How many pages the chain `key` has. The chain is there: its number is below that of the chains.
    pub fn len(&self, key: usize) -> usize
        requires { key < length self.now.chains }
        ensures { result ≡ length (chain_of self.now key) }
    {
        self.strands[key].len
    }

    /// The first page of the chain `key`, which stays where it is. The chain is there and has a page.
    pub fn first(&self, key: usize) -> &FilledPage
        requires here { key < length self.now.chains }
        requires some { 0 < length (chain_of self.now key) }
        ensures { chain_of self.now key ≡ result.now ∷ drop 1 (chain_of self.now key) }
    {
        page_in(self.slots.as_slice(), self.strands[key].first)
    }

    /// Adds a page to the end of the chain `key`, and leaves all others as they are. The chain is there, and there is
    /// room for one page more.
    pub fn push(&mut self, key: usize, page: FilledPage)
        requires here { key < length self.old.chains }
        requires room { total self.old.chains < self.old.room }
        ensures { self.new ≡ with_chain self.old key (chain_of self.old key ++ page ∷ []) }
    {
        let node = self.links.insert_reserved(0);
        fill(&mut self.slots, node, page);
        let strand = self.strands[key];
        self.strands[key] = extended(&mut self.links, strand, node);
    }

    /// Takes the first page of the chain `key`, and leaves all others as they are. The chain is there and has a page.
    pub fn take(&mut self, key: usize) -> FilledPage
        requires here { key < length self.old.chains }
        requires some { 0 < length (chain_of self.old key) }
        ensures page { chain_of self.old key ≡ result ∷ drop 1 (chain_of self.old key) }
        ensures nodes { self.new ≡ with_chain self.old key (drop 1 (chain_of self.old key)) }
    {
        let strand = self.strands[key];
        let next = self.links.remove(strand.first);
        self.strands[key] = Strand {
            first: next,
            last: strand.last,
            len: strand.len - 1,
        };
        empty(&mut self.slots, strand.first)
    }

    /// Puts all pages of the chain `key` back into the pool, emptied, and leaves all other chains as they are. The chain
    /// is there, its pages have the size of the pool's, and no more of them than the pool has lent.
    pub fn drain_into(&mut self, key: usize, pool: &mut Pool)
        requires here { key < length self.old.chains }
        requires sizes { AreOfSize pool.old.page_size (chain_of self.old key) }
        requires room { pool.old.free + length (chain_of self.old key) ≤ pool.old.pages }
        ensures nodes { self.new ≡ with_chain self.old key [] }
        ensures pool { pool.new
            ≡ record pool.old { free = pool.old.free + length (chain_of self.old key) } }
    {
        'pages: while self.len(key) > 0 {
            let page = self.take(key);
            pool.put_back(page.unseal());
        }
    }
}
