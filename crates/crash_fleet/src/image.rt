//! A device that says which file a crash leaves.

ghost use Rattle.std.specs.Prelude.{◌≡◌, IfOk, List, ℕ, false};
ghost use Rattle.std.proofs.Common.{inl, refl};
ghost use Rattle.take_journal.specs.Device.{LeavesJust};
ghost use Rattle.take_journal.specs.Memory.{memory_bytes};

use entry::NoMemory;
use std::alloc::Global;
use take_journal::{Device, MemoryDevice, Tear};

/// A device that says which file a crash leaves: its *crash image*. It may be any of those that a crash may leave.
pub trait CrashImage: Device {
    /// The file that a crash right now leaves.
    ghost crash_image: { Self → List ℕ };

    /// Returns the file that a crash right now leaves.
    fn image(&self) -> &[u8]
        ensures { result.now ≡ crash_image self.now };

    /// A device over a file, all of which is on the disk.
    fn reopened(alloc: Global, file: &[u8]) -> Result<Self, NoMemory>
        ensures bytes { IfOk result (λ device. Self.contents device ≡ file.now) }
        ensures durable { IfOk result (λ device. LeavesJust file.now (Self.may_leave device)) }
        ensures unfailed { IfOk result (λ device. Self.has_failed device ≡ false) };

    /// It is one of the files that a crash may leave.
    ghost may_be: { (device : Self) → Self.may_leave device (crash_image device) };

    /// What a crash may leave now counts as left since each moment.
    ghost counts: { (device : Self) (moment : ℕ) (file : List ℕ)
        → Self.may_leave device file → Self.left_since device moment file };
}

/// The file that a crash of the process leaves: what a read returns.
impl CrashImage for MemoryDevice {
    ghost crash_image = { λ m. memory_bytes m };

    fn image(&self) -> &[u8] {
        self.bytes()
    }

    fn reopened(alloc: Global, file: &[u8]) -> Result<Self, NoMemory> {
        let tear = Tear {
            kept: 0,
            junk: None,
        };
        match MemoryDevice::new(alloc, file, u64::MAX, tear) {
            Ok(device) => Ok(device),
            Err(_) => Err(NoMemory),
        }
    }

    ghost may_be = { λ m. inl refl };

    ghost counts = { λ m moment file may. inl may };
}
