//! The live objects of a table of a master.

ghost use Rattle.std.specs.Prelude.{IfOk};
ghost use Rattle.master_core.specs.master_space.Objects.{AreObjectsOf};
ghost use Rattle.master_core.specs.master_state.Log.{state_now};

use crate::master::Master;
use entry::NoMemory;
use master_core::{ObjectList, sorted_objects};
use replica::Fleet;

impl<F: Fleet> Master<F> {
    /// Lists the live objects of a table, sorted by the bytes of their keys. Nothing changes. The list copies their
    /// bytes, for which it takes memory once. The call reads every entry of the log in memory, and sorts the n objects
    /// of the table in n log n steps. Meanwhile they take 64 bytes each, and up to twice that while their number grows.
    pub fn objects(&self, table: u64) -> Result<ObjectList, NoMemory>
        ensures { IfOk result (λ objects. AreObjectsOf (state_now self.now.knows).contents table objects) }
    {
        sorted_objects(&self.core, table)
    }
}
