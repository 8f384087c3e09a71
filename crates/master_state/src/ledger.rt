//! What a master's backups answered. Only clauses of contracts read it, so it has no bytes when the program runs.

ghost use Rattle.std.specs.Prelude.{◌≡◌, List, [], ◌∷◌};
ghost use Rattle.std.specs.Borrow.{ftrue};
ghost use Rattle.master_state.specs.declared.ledger.Posting.{Posting as PostingValue};
ghost use Rattle.log_head.specs.log_laws.Heads.{Start};
ghost use Rattle.master_state.specs.Steps.{new_heads_in};

use log_head::Head;
use std::marker::Model;

/// One event in the log of a master, such as an op that a backup took.
#[derive(Clone, Copy)]
pub enum Posting {
    /// A roll began, or a failover began to open its new head: the id of the new head.
    Began(u64),
    /// A pass began: the first id of its survivors, and how many they are.
    Survivors(u64, u64),
    /// A backup took an Open or a Seal of a segment: the segment, and the backup.
    Took(u64, u64),
    /// A backup took units of the head: the backup, and how many units of the head it has now.
    Has(u64, usize),
    /// The old head was closed on this backup.
    Shut(u64),
    /// A roll ended, or a first head was opened: the new head is in force.
    Ended,
    /// The loading ended: the history begins with the objects that were loaded.
    Settled,
}

/// All postings, the last one first. The list has no bytes when the program runs.
#[derive(Drop)]
pub struct Ledger {
    pub ghost postings: { List PostingValue },
}

impl Model for Ledger {
    ghost also_owns = { λ _. ftrue };
}

// A struct with `also_owns` is neither Send nor Sync by itself. This one owns nothing, so it may be both.
unsafe impl Send for Ledger {}

unsafe impl Sync for Ledger {}

impl Ledger {
    /// Makes a ledger without postings.
    pub fn empty() -> Ledger
        ensures { result.postings ≡ [] }
    {
        Ledger {}
    }

    /// Makes the ledger with one posting more.
    #[inline(always)]
    pub fn with(_before: &Ledger, _posting: &Posting) -> Ledger
        ensures { result.postings ≡ _posting.now ∷ _before.now.postings }
    {
        Ledger {}
    }
}

/// The heads that a roll was opening as a failover began. The list has no bytes when the program runs.
#[derive(Drop)]
pub struct Abandoned {
    pub ghost heads: { List Start },
}

impl Model for Abandoned {
    ghost also_owns = { λ _. ftrue };
}

// This struct owns nothing either, so it may be both, as `Ledger` is.
unsafe impl Send for Abandoned {}

unsafe impl Sync for Abandoned {}

impl Abandoned {
    /// Makes the list without heads.
    pub fn none() -> Abandoned
        ensures { result.heads ≡ [] }
    {
        Abandoned {}
    }

    /// The head that a roll is opening, or this head itself if not all its replicas were opened yet.
    pub fn of(_head: &Head) -> Abandoned
        ensures { result.heads ≡ new_heads_in _head.now }
    {
        Abandoned {}
    }
}
