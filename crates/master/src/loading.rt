//! A master that is loaded with recovered objects before its history begins.

ghost use Rattle.std.specs.Prelude.{◌≡◌, ◌≤◌, ℕ, None, true, false, IfOk, IfErr, OnOk, OnErr};
ghost use Rattle.entry.specs.View.{shown_object};
ghost use Rattle.master_core.specs.master_state.Causes.{is_done};
ghost use Rattle.master_core.specs.master_state.Config.{config_fault};
ghost use Rattle.master_core.specs.master_state.Loading.{restored_data, IsNewObject, Loads, Settles};
ghost use Rattle.master.specs.Loading.{IsNewEntry, LoadsEntry, DeclinesLoad, KeepsLoading};
ghost use Rattle.master.specs.Registry.{IsUnraised};
ghost use Rattle.master.specs.Steps.{Accepts, Declines};
ghost use Rattle.master.specs.Valid.{IsValid};
ghost use Rattle.master.specs.World.{world};

use crate::master::Master;
use crate::pushing;
use entry::{Entry, NoMemory, ObjectRef, SafeVersion};
use master_core::{
    Config, Core, Refusal, Step, StepAnswer, begin_history, begin_roll, can_finish, load, presize,
};
use replica::Fleet;
use std::alloc::Global;
use std::marker::Model;

/// A master that isn't one yet. Its history begins with what it loads.
#[derive(Drop)]
pub struct Loading<F: Fleet> {
    alloc: Global,
    core: Core,
    fleet: F,
}

impl<F: Fleet> Model for Loading<F> {
    ghost use Rattle.master.specs.Invariant.{IsWellLoaded};
    ghost use Rattle.master.specs.World.{MasterValue};

    ghost Value = { MasterValue F };

    ghost view = { λ l. record { knows = l.core; fleet = l.fleet } };

    ghost invariant = { λ l. IsWellLoaded l.core (F.state l.fleet) };
}

impl<F: Fleet> Master<F> {
    /// A master that is to be loaded with objects of versions below `safe`. Its head is not open yet. It asks nothing
    /// of the fleet. If memory runs out, it hands the fleet back.
    pub fn restore(
        alloc: Global,
        config: Config,
        safe: SafeVersion,
        fleet: F,
    ) -> Result<Loading<F>, (NoMemory, F)>
        requires config { config_fault config ≡ None }
        requires backups { config.backups ≤ (F.state fleet).backups }
        requires none { (b s : ℕ) → (F.state fleet).picture b config.master s ≡ None }
        requires least { IsUnraised config.master (F.state fleet) }
        ensures made { IfOk result (λ l. (l.knows ≡ restored_data config safe) × (l.fleet ≡ fleet)) }
        ensures refused { IfErr result (λ e. e.1 ≡ fleet) }
    {
        match Core::restore(alloc, config, safe) {
            Ok(core) => {
                let loading = Loading { alloc, core, fleet };
                Ok(loading)
            }
            Err(fault) => Err((fault, fleet)),
        }
    }
}

impl<F: Fleet> Loading<F> {
    /// Makes the index as large as it is to be for so many objects, as far as memory is given: it then doesn't grow
    /// while they are loaded. Nothing else changes, and an index that has a key stays as it is.
    pub fn presize(&mut self, objects: usize)
        ensures { self.new ≡ self.old }
    {
        presize(&mut self.core, objects);
    }

    /// Loads an object with its own version: it is appended to the head, and the history begins with it. The fleet
    /// stays as it is. The entry is an object, its key was not loaded before, and its version is below the safe one.
    pub fn load(&mut self, entry: &Entry) -> Result<(), Refusal>
        requires entry { IsNewEntry self.old.knows entry.now }
        ensures loaded { OnOk result (LoadsEntry self.old.knows entry.now self.new.knows) }
        ensures refused { IfErr result (λ r. DeclinesLoad self.old.knows entry.now r self.new.knows) }
        ensures fleet { self.new.fleet ≡ self.old.fleet }
    {
        match entry {
            Entry::Object(object) => {
                let key = object.key.view();
                self.load_object(&ObjectRef {
                    key,
                    version: object.version,
                    value: object.value.as_slice(),
                })
            }
            _ => unreachable!(),
        }
    }

    /// Loads an object as `load` does. The object may lie anywhere, and is copied once, into the head.
    pub fn load_object(&mut self, object: &ObjectRef<'_>) -> Result<(), Refusal>
        requires object { IsNewObject self.old.knows (shown_object object.now) }
        ensures loaded { OnOk result (Loads self.old.knows (shown_object object.now) self.new.knows) }
        ensures refused { IfErr result (λ r.
            DeclinesLoad self.old.knows (Entry.Object (shown_object object.now)) r self.new.knows) }
        ensures fleet { self.new.fleet ≡ self.old.fleet }
    {
        load(&mut self.core, object)
    }

    /// Hands one op to one backup, as a master's push.
    pub fn push(&mut self) -> Result<StepAnswer, Refusal>
        ensures accepted { IfOk result (λ a. Accepts (world F.state self.old) Step.Push a (world F.state self.new)) }
        ensures refused { IfErr result (λ r. Declines (world F.state self.old) Step.Push r (world F.state self.new)) }
        ensures keeps { KeepsLoading (world F.state self.old) (world F.state self.new) }
    {
        pushing::push(&mut self.core, &mut self.fleet)
    }

    /// Begins a roll, as a master does.
    pub fn begin_roll(&mut self) -> Result<StepAnswer, Refusal>
        ensures accepted { IfOk result (λ a.
            Accepts (world F.state self.old) Step.BeginRoll a (world F.state self.new)) }
        ensures refused { IfErr result (λ r.
            Declines (world F.state self.old) Step.BeginRoll r (world F.state self.new)) }
        ensures keeps { KeepsLoading (world F.state self.old) (world F.state self.new) }
    {
        begin_roll(&mut self.core)
    }

    /// Drops what was loaded, and hands the fleet back as it is.
    pub fn crash(self) -> F
        ensures { result ≡ self.fleet }
    {
        let Loading {
            alloc: _,
            core,
            fleet,
        } = self;
        drop(core);
        fleet
    }

    /// The master whose history begins with what was loaded. Before each replica of the head has all of it, and while a
    /// roll is under way, it hands itself back.
    pub fn finish(self) -> Result<Master<F>, Loading<F>>
        ensures settled { IfOk result (λ m. Settles self.knows m.knows × (m.fleet ≡ self.fleet)) }
        ensures valid { IfOk result (λ m. IsValid m.knows (F.state m.fleet)) }
        ensures done { OnOk result (is_done self.knows ≡ true) }
        ensures refused { IfErr result (λ l. l ≡ self) }
        ensures lags { OnErr result (is_done self.knows ≡ false) }
    {
        if !can_finish(&self.core) {
            return Err(self);
        }
        let Loading {
            alloc,
            mut core,
            fleet,
        } = self;
        begin_history(&mut core);
        let master = Master { alloc, core, fleet };
        master.show_valid();
        Ok(master)
    }
}
