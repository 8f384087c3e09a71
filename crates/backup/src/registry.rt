//! The registry of least heads.

ghost use Rattle.std.specs.Prelude.{◌≡◌, [], OnOk, OnErr};
ghost use Rattle.replica.specs.Registry.{with_least};
ghost use Rattle.backup.specs.Registry.{least_in};

use entry::NoMemory;
use std::alloc::Global;
use std::collections::BTreeMap;
use std::marker::Model;

/// Of each master that was raised the least id of a head that may be used. A contract sees them as a list.
#[derive(Drop)]
pub(crate) struct Registry {
    heads: BTreeMap<u64, u64>,
}

impl Model for Registry {
    ghost use Rattle.backup.specs.Registry.{Heads};

    ghost Value = { Heads };

    ghost view = { λ r. r.heads.entries };
}

impl Registry {
    /// No master was raised. It takes no memory.
    pub(crate) fn new(alloc: Global) -> Registry
        ensures { result ≡ [] }
    {
        Registry {
            heads: BTreeMap::new(alloc),
        }
    }

    /// The least head of a master.
    pub(crate) fn least(&self, master: u64) -> u64
        ensures { result ≡ least_in self.now master }
    {
        match self.heads.get(&master) {
            Some(id) => *id,
            None => 0,
        }
    }

    /// Raises the least head of a master. An id that isn't above it changes nothing, and takes no memory.
    pub(crate) fn raise(&mut self, master: u64, id: u64) -> Result<(), NoMemory>
        ensures raised { OnOk result (least_in self.new ≡ with_least (least_in self.old) master id) }
        ensures refused { OnErr result (self.new ≡ self.old) }
    {
        if id <= self.least(master) {
            return Ok(());
        }
        match self.heads.insert(master, id) {
            Ok(_) => Ok(()),
            Err(_) => Err(NoMemory),
        }
    }
}
