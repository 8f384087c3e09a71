//! What is done between the lines of a run.

use file_fleet::FleetRegistry;
use file_store::FileStore;
use take_journal::Device;

/// What is done between the lines of a run: it tends what the store stands on, such as its files.
pub trait Upkeep<D: Device, G: FleetRegistry> {
    ghost use Rattle.std.specs.Prelude.{◌≡◌};

    /// Tends what the store stands on. What the master knows stays as it is.
    fn between(&mut self, store: &mut FileStore<D, G>)
        ensures { store.new.master.knows ≡ store.old.master.knows };
}
