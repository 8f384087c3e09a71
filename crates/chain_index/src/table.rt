//! The table of chains. The hash of a place says in which chain it is.

ghost use Rattle.std.specs.Prelude.{◌≡◌, ◌<◌, ◌++◌, [], IfOk, OnOk};
ghost use Rattle.place_index.specs.Steps.{IsShuffled};
ghost use Rattle.chain_index.specs.Chains.{chain_of};

use crate::chain::Chain;
use entry::{KeyRef, NoMemory};
use place_index::Table;
use places::{Held, Place, Resolve};
use std::alloc::{AllocError, Global};
use std::marker::Model;

/// The most keys for each chain, on average, before the table grows.
const KEYS_PER_CHAIN: usize = 3;

/// A table of chains. A place is in the chain to which its hash belongs. A contract sees the places of all chains, one
/// chain after another.
#[derive(Drop)]
pub struct ChainTable {
    alloc: Global,
    chains: Vec<Chain>,
}

impl Model for ChainTable {
    ghost use Rattle.std.specs.Prelude.{List, length};
    ghost use Rattle.places.specs.declared.place.Held.{Held};
    ghost use Rattle.place_index.specs.Parted.{places_in, AreInParts};
    ghost use Rattle.chain_index.specs.Chains.{chain_of};

    ghost Value = { List Held };

    ghost view = { λ t. places_in t.chains.items };

    ghost invariant = { λ t. AreInParts (chain_of (length t.chains.items)) 0 t.chains.items };
}

/// Returns the number of the chain to which a hash belongs, of `count` chains. If `count` is a power of two, then some
/// hashes belong to each chain.
#[inline]
fn chain_at(count: usize, hash: u64) -> usize
    requires { 0 < count }
    ensures chain { result ≡ chain_of count hash }
    ensures within { result < count }
{
    hash as usize & (count - 1)
}

impl ChainTable {
    /// Makes a table of this many chains without places.
    fn with_chains(alloc: Global, count: usize) -> Result<ChainTable, NoMemory>
        ensures { IfOk result (λ table. table ≡ []) }
    {
        let mut chains = Vec::with_capacity(alloc, count)?;
        for _ in 0..count {
            chains.push(Chain::new(alloc))?;
        }
        Ok(ChainTable { alloc, chains })
    }

    /// Adds each place of a list. If memory runs out, some of them may have been added.
    fn push_all(&mut self, places: &[Held]) -> Result<(), NoMemory>
        ensures { OnOk result (IsShuffled (self.old ++ places.now) self.new) }
    {
        for held in places {
            self.push(*held)?;
        }
        Ok(())
    }

    /// Adds each place of a chain. If memory runs out, some of them may have been added.
    fn push_chain(&mut self, chain: &Chain) -> Result<(), NoMemory>
        ensures { OnOk result (IsShuffled (self.old ++ chain.now) self.new) }
    {
        let (front, more) = chain.parts();
        self.push_all(front)?;
        self.push_all(more)
    }

    /// Adds each place of another table. If memory runs out, some of them may have been added.
    fn push_table(&mut self, other: &ChainTable) -> Result<(), NoMemory>
        ensures { OnOk result (IsShuffled (self.old ++ other.now) self.new) }
    {
        for chain in &other.chains {
            self.push_chain(chain)?;
        }
        Ok(())
    }

    /// Makes a table of this many chains that has the same places as this table.
    fn grown(&self, count: usize) -> Result<ChainTable, NoMemory>
        ensures { IfOk result (λ grown. IsShuffled self.now grown) }
    {
        let mut grown = ChainTable::with_chains(self.alloc, count)?;
        grown.push_table(self)?;
        Ok(grown)
    }
}

impl Table for ChainTable {
    ghost places = { λ t. t };

    fn new(alloc: Global) -> ChainTable {
        ChainTable {
            alloc,
            chains: Vec::new(alloc),
        }
    }

    #[inline]
    fn get<R: Resolve>(&self, hash: u64, resolver: &R, key: &KeyRef<'_>) -> Option<Place> {
        if self.chains.is_empty() {
            return None;
        }
        let at = chain_at(self.chains.len(), hash);
        let chain = &self.chains[at];
        chain.get(hash, resolver, key)
    }

    #[inline]
    fn candidate(&self, hash: u64) -> Option<Place> {
        if self.chains.is_empty() {
            return None;
        }
        let at = chain_at(self.chains.len(), hash);
        let chain = &self.chains[at];
        chain.candidate(hash)
    }

    #[inline]
    fn holds(&self, held: Held) -> bool {
        if self.chains.is_empty() {
            return false;
        }
        let at = chain_at(self.chains.len(), held.hash);
        let chain = &self.chains[at];
        chain.holds(held)
    }

    #[inline]
    fn holds_first(&self, held: Held) -> bool {
        if self.chains.is_empty() {
            return false;
        }
        let at = chain_at(self.chains.len(), held.hash);
        let chain = &self.chains[at];
        chain.holds_first(held)
    }

    #[inline(always)]
    fn touch(&self, hash: u64) -> u64 {
        if self.chains.is_empty() {
            return 0;
        }
        let at = chain_at(self.chains.len(), hash);
        self.chains[at].touch()
    }

    fn relocate(&mut self, held: Held, to: Place) -> bool {
        if self.chains.is_empty() {
            return false;
        }
        let at = chain_at(self.chains.len(), held.hash);
        let chain = &mut self.chains[at];
        chain.relocate(held, to)
    }

    fn take_out(&mut self, held: Held) -> bool {
        if self.chains.is_empty() {
            return false;
        }
        let at = chain_at(self.chains.len(), held.hash);
        let chain = &mut self.chains[at];
        chain.take_out(held)
    }

    /// Adds a place to the chain of its hash. The call fails if memory runs out, or if the table has no chains yet.
    fn push(&mut self, held: Held) -> Result<(), NoMemory> {
        if self.chains.is_empty() {
            return Err(AllocError);
        }
        let at = chain_at(self.chains.len(), held.hash);
        let chain = &mut self.chains[at];
        chain.push(held)
    }

    fn presize(&mut self, _keys: usize) {}

    fn grow(&mut self, keys: usize) {
        let chains = keys.div_ceil(KEYS_PER_CHAIN);
        if chains <= self.chains.len() {
            return;
        }
        if let Ok(table) = self.grown(chains.next_power_of_two()) {
            *self = table;
        }
    }
}
