//! What a fleet asks of the file of its registry.

ghost use Rattle.std.specs.Prelude.{◌≡◌, ◌≤◌, ◌<◌, Err, OnErr, OnOk, ℕ};
ghost use Rattle.replica.specs.Take.{no_limit};
ghost use Rattle.file_fleet.specs.Files.{Noted, with_file, with_head, with_master, with_span};
ghost use Rattle.file_fleet.specs.declared.registry.Span.TheVariants.{First};
ghost use Rattle.file_fleet.specs.Moments.{LeavesEither};

use std::alloc::Global;
use thiserror::Error;

/// Why the registry was not written.
#[derive(Clone, Copy, Debug, PartialEq, Eq, Error)]
pub enum NoteFault {
    /// Nothing was done: memory ran out, or the file is full.
    #[error("no memory")]
    NoMemory,
    /// The disk failed. Nobody knows whether the frame is on it.
    #[error("the disk failed")]
    Failed,
}

/// How much of a backup's journal counts.
#[derive(Clone, Copy)]
pub enum Span {
    /// There is no journal, or it is lost.
    Nothing,
    /// All of its frames.
    Whole,
    /// Its first frames, so many.
    First(u64),
}

/// A registry in a file: the least heads, of each backup which file its journal is, and how much of it counts, and the
/// master that a recovery is for.
pub trait FleetRegistry {
    /// What it keeps: all that was answered Ok.
    ghost noted: { Self → Noted };

    /// All that it keeps is on the disk, and it takes more.
    ghost is_sound: { Self → Type 0 };

    /// What a crash right now may leave of it.
    ghost leaves: { Self → Noted → Type 0 };

    /// The present moment. It never falls.
    ghost time: { Self → ℕ };

    /// What a crash may have left of it at any moment from the named one on, amid a call too.
    ghost left_of: { Self → ℕ → Noted → Type 0 };

    /// Returns the least head of a master. It takes no memory.
    fn least(&self, master: u64) -> u64
        ensures { result ≡ (noted self.now).least master };

    /// Returns how much of a backup's journal counts. It takes no memory.
    fn span(&self, backup: u64) -> Span
        ensures { result ≡ (noted self.now).span backup };

    /// Returns the id of the file that is a backup's journal, or 0 if there is none. It takes no memory.
    fn file(&self, backup: u64) -> u64
        ensures { result ≡ (noted self.now).file backup };

    /// Returns the master that a recovery is for, or `None` if none was named. It takes no memory.
    fn master(&self) -> Option<u64>
        ensures { result ≡ (noted self.now).master };

    /// Raises the least head of a master to `id`, on the disk. A lower `id` leaves it as it is.
    fn raise(&mut self, alloc: Global, master: u64, id: u64) -> Result<(), NoteFault>
        requires sound { is_sound self.old }
        ensures raised { OnOk result (noted self.new ≡ with_head (noted self.old) master id) }
        ensures refused { OnErr result (noted self.new ≡ noted self.old) }
        ensures sound { OnOk result (is_sound self.new) }
        ensures memory { result ≡ Err NoteFault.NoMemory → is_sound self.new }
        ensures any_moment { LeavesEither noted time left_of (with_head (noted self.old) master id)
            self.old self.new };

    /// Notes on the disk that only the first frames of a backup's journal count, so many.
    fn end_journal(&mut self, alloc: Global, backup: u64, frames: u64) -> Result<(), NoteFault>
        requires sound { is_sound self.old }
        requires limit { frames < no_limit }
        ensures ended { OnOk result (noted self.new ≡ with_span (noted self.old) backup (First frames)) }
        ensures refused { OnErr result (noted self.new ≡ noted self.old) }
        ensures sound { OnOk result (is_sound self.new) }
        ensures any_moment { LeavesEither noted time left_of (with_span (noted self.old) backup (First frames))
            self.old self.new };

    /// Notes on the disk that a backup's journal is the file with this id, which isn't 0, and that all of it counts.
    fn name_file(&mut self, alloc: Global, backup: u64, id: u64) -> Result<(), NoteFault>
        requires sound { is_sound self.old }
        requires live { id ≡ 0 → ⊥ }
        ensures named { OnOk result (noted self.new ≡ with_file (noted self.old) backup id) }
        ensures refused { OnErr result (noted self.new ≡ noted self.old) }
        ensures sound { OnOk result (is_sound self.new) }
        ensures memory { result ≡ Err NoteFault.NoMemory → is_sound self.new }
        ensures any_moment { LeavesEither noted time left_of (with_file (noted self.old) backup id)
            self.old self.new };

    /// Names the master that a recovery is for, on the disk.
    fn name_master(&mut self, alloc: Global, master: u64) -> Result<(), NoteFault>
        requires sound { is_sound self.old }
        ensures named { OnOk result (noted self.new ≡ with_master (noted self.old) master) }
        ensures refused { OnErr result (noted self.new ≡ noted self.old) }
        ensures sound { OnOk result (is_sound self.new) }
        ensures memory { result ≡ Err NoteFault.NoMemory → is_sound self.new }
        ensures any_moment { LeavesEither noted time left_of (with_master (noted self.old) master)
            self.old self.new };

    /// The present moment is one of those since an earlier one.
    ghost counts: { (r : Self) (moment : ℕ) (left : Noted) → moment ≤ time r → leaves r left → left_of r moment left };

    /// Since the present moment there was no other one.
    ghost just_now: { (r : Self) (left : Noted) → left_of r (time r) left → leaves r left };

    /// If all of it is on the disk, a crash leaves nothing else.
    ghost just_kept: { (r : Self) (left : Noted) → is_sound r → leaves r left → left ≡ noted r };
}
