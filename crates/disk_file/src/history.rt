//! The calls of the system on a file, each with its answer. Only clauses of contracts read the list.

ghost use Rattle.std.specs.Prelude.{◌≡◌, List, [], ◌∷◌};
ghost use Rattle.std.specs.Borrow.{ftrue};
ghost use Rattle.disk_file.specs.Events.{Event, event_of};

use std::fs::File;
use std::marker::Model;

/// A call of the system on an open file.
#[derive(Clone, Copy)]
pub(crate) enum Call<'a> {
    /// Puts the names of this folder on the disk.
    SyncFolder(&'a File),
    /// Puts the bytes and the length of the file on the disk.
    Sync,
    /// Writes bytes at an offset.
    Write { at: usize, bytes: &'a [u8] },
    /// Cuts the file to a length.
    Cut { len: usize },
}

/// What happened to a file.
#[derive(Clone, Copy)]
pub(crate) enum Note<'a> {
    /// It was made, and has no bytes.
    Made,
    /// It was there, and was opened.
    Found,
    /// It was read from its start to its end, and has these bytes.
    Read(&'a [u8]),
    /// A call was asked for and not made, since one before it failed.
    Refused,
    /// The system was asked, and answered. A write has the count of the bytes that were taken, and any other call 0. A
    /// call that failed has None.
    Answered {
        call: Call<'a>,
        taken: Option<usize>,
    },
}

/// All calls on a file, the last one first. The list has no bytes when the program runs.
#[derive(Drop)]
pub(crate) struct History {
    pub ghost events: { List Event },
}

impl Model for History {
    ghost also_owns = { λ _. ftrue };
}

// A struct with `also_owns` is by itself neither Send nor Sync. This one owns nothing.
unsafe impl Send for History {}

unsafe impl Sync for History {}

impl History {
    /// Makes the list without calls.
    pub(crate) fn empty() -> History
        ensures { result.events ≡ [] }
    {
        History {}
    }

    /// Makes the list with one call more.
    pub(crate) fn with(_before: &History, _note: &Note<'_>) -> History
        ensures { result.events ≡ event_of _note.now ∷ _before.now.events }
    {
        History {}
    }
}
