//! A file that is written through to a disk: what a read returns, and what a crash may leave.
//!
//! The trait has no read. Whoever opens a file reads it first, and makes a device of it then.

ghost use Rattle.std.specs.Prelude.{◌≡◌, ◌≤◌, ◌||◌, Bool, List, ℕ, is_err, length, take, OnOk};
ghost use Rattle.take_journal.specs.Device.{EachFrom, IsTornCut, IsTornWrite, LeavesJust, Passes, overwritten};

use thiserror::Error;

/// A call of a device failed. Nobody knows how much of the call reached the disk.
#[derive(Clone, Copy, Debug, PartialEq, Eq, Error)]
#[error("the disk failed")]
pub struct DeviceFailed;

/// A file on a disk.
///
/// A crash may cut a call short, and it may undo in part what no sync has confirmed. What it may leave is a premise on
/// the disk: bytes outside of the range that a write names stay, and what a sync confirmed stays.
pub trait Device {
    /// What a read of the whole file returns.
    ghost contents: { Self → List ℕ };

    /// The files that the disk may have after a crash right now.
    ghost may_leave: { Self → List ℕ → Type 0 };

    /// The present moment. It never falls.
    ghost clock: { Self → ℕ };

    /// The files that the disk may have had after a crash at any moment from the named one on, amid a call too.
    ghost left_since: { Self → ℕ → List ℕ → Type 0 };

    /// Whether a call has failed.
    ghost has_failed: { Self → Bool };

    /// Writes the bytes over those that stand from `at` on, and past the end of the file. `at` is a place in the file
    /// or its end. Until a sync confirms it, a crash may leave any bytes in that range.
    fn write_at(&mut self, at: usize, bytes: &[u8]) -> Result<(), DeviceFailed>
        requires { at ≤ length (contents self.old) }
        ensures written { OnOk result (contents self.new ≡ overwritten at bytes.now (contents self.old)) }
        ensures crash { EachFrom (IsTornWrite at (length bytes.now)) (may_leave self.old) (may_leave self.new) }
        ensures time { Passes clock left_since may_leave self.old self.new }
        ensures failure { has_failed self.new ≡ (has_failed self.old || is_err result) };

    /// Cuts the file to its first `len` bytes. Until a sync confirms it, a crash may leave more of them.
    fn cut(&mut self, len: usize) -> Result<(), DeviceFailed>
        requires { len ≤ length (contents self.old) }
        ensures cut { OnOk result (contents self.new ≡ take len (contents self.old)) }
        ensures crash { EachFrom (IsTornCut len) (may_leave self.old) (may_leave self.new) }
        ensures time { Passes clock left_since may_leave self.old self.new }
        ensures failure { has_failed self.new ≡ (has_failed self.old || is_err result) };

    /// Waits until all that was written is on the disk. After `Ok` a crash leaves just what a read returns.
    fn sync(&mut self) -> Result<(), DeviceFailed>
        ensures same { contents self.new ≡ contents self.old }
        ensures durable { OnOk result (LeavesJust (contents self.new) (may_leave self.new)) }
        ensures crash { (file : List ℕ) → may_leave self.new file → may_leave self.old file }
        ensures time { Passes clock left_since may_leave self.old self.new }
        ensures failure { has_failed self.new ≡ (has_failed self.old || is_err result) };

    /// The present moment is one of those since an earlier one.
    ghost counts_now: { (device : Self) (moment : ℕ) (file : List ℕ)
        → moment ≤ clock device → may_leave device file → left_since device moment file };

    /// Since the present moment there was no other one.
    ghost just_now: { (device : Self) (file : List ℕ) → left_since device (clock device) file → may_leave device file };
}
