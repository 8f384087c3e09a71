//! What a fleet answered Ok, for contracts alone.

ghost use Rattle.std.specs.Prelude.{◌≡◌, List, [], ◌∷◌};
ghost use Rattle.std.specs.Borrow.{ftrue};
ghost use Rattle.replica.specs.Picture.{Ack};
ghost use Rattle.file_fleet.specs.Acks.{ack_of};

use replica::Op;
use std::marker::Model;

/// An op, and the backup that it is handed to.
#[derive(Clone, Copy)]
pub(crate) struct Handed<'a> {
    pub(crate) backup: u64,
    pub(crate) op: Op<'a>,
}

/// All ops that were answered Ok, the last one first. It takes no bytes.
#[derive(Drop)]
pub(crate) struct Acks {
    pub ghost list: { List Ack },
}

impl Model for Acks {
    ghost also_owns = { λ _. ftrue };
}

// A struct with `also_owns` has neither by itself. This one owns nothing.
unsafe impl Send for Acks {}

unsafe impl Sync for Acks {}

impl Acks {
    /// Nothing was answered yet.
    pub(crate) fn none() -> Acks
        ensures { result.list ≡ [] }
    {
        Acks {}
    }

    /// One op more.
    #[inline(always)]
    pub(crate) fn with(_before: &Acks, _handed: &Handed<'_>) -> Acks
        ensures { result.list ≡ ack_of _handed.now ∷ _before.now.list }
    {
        Acks {}
    }
}
