//! What a store answers.

ghost use Rattle.std.specs.Prelude.{◌≡◌};
ghost use Rattle.history.specs.View.{shown_reply};
ghost use Rattle.embedded.specs.Replies.{answer_of, answered, no_master, number_of, refused, too_big, unsure};

use history::ReplyRef;
use recovery::master::Refusal;

/// What came of a command.
#[derive(Clone, Copy, PartialEq, Eq)]
pub enum Status {
    /// The command was done, and a get found the key.
    Ok,
    /// The key is absent. A delete of it changed nothing.
    None,
    /// A put was not done, since its condition failed.
    Mismatch,
    /// The command was refused, and the store is as if it had never come.
    Refused,
    /// The command was applied, but its record isn't durable: a push of it was refused. The store has it, and a
    /// recovery may find it or not. `Store::settle` tries again.
    Unsure,
}

/// What a store answers to a command.
#[derive(Clone, Copy)]
pub struct Reply {
    pub status: Status,
    /// Why the command was refused or isn't durable: the number of the `Refusal`, 1 to 14, or 0 if there is no
    /// master. It is 0, too, under the other statuses.
    pub refusal: u64,
    /// The version that the key has since, that a get found, or that a delete ended. Under `Mismatch` the version
    /// that the key has, or 0 if it is absent. Else 0.
    pub version: u64,
    /// The place of the command's record in the history, from 0. Under `Refused` it has none, and this is 0.
    pub place: u64,
}

/// The number of a refusal, as its comments give it.
pub(crate) fn number_of(refusal: &Refusal) -> u64
    ensures { result ≡ number_of refusal.now }
{
    match refusal {
        Refusal::TooBig => 1,
        Refusal::Full => 2,
        Refusal::VersionsSpent => 3,
        Refusal::HistoryFull => 4,
        Refusal::NoMemory => 5,
        Refusal::Halted => 6,
        Refusal::Rolling => 7,
        Refusal::Nothing => 8,
        Refusal::Pass(_) => 9,
        Refusal::Spent => 10,
        Refusal::SegmentsSpent => 11,
        Refusal::NoTablet => 12,
        Refusal::Lost(_) => 13,
        Refusal::Overcommit => 14,
    }
}

impl Reply {
    /// The answer to a command whose record, at this place, has this reply.
    pub(crate) fn answered(place: u64, reply: &ReplyRef<'_>) -> Reply
        ensures { result ≡ answered place (shown_reply reply.now) }
    {
        match reply {
            ReplyRef::Found(version, _) => Reply::answer_of(place, Status::Ok, version.get()),
            ReplyRef::None => Reply::answer_of(place, Status::None, 0),
            ReplyRef::Ok(version) => Reply::answer_of(place, Status::Ok, version.get()),
            ReplyRef::Mismatch(None) => Reply::answer_of(place, Status::Mismatch, 0),
            ReplyRef::Mismatch(Some(version)) => {
                Reply::answer_of(place, Status::Mismatch, version.get())
            }
        }
    }

    /// The answer to a command whose record is at this place.
    fn answer_of(place: u64, status: Status, version: u64) -> Reply
        ensures { result ≡ answer_of place status version }
    {
        Reply {
            status,
            refusal: 0,
            version,
            place,
        }
    }

    /// The answer to a command that was refused.
    pub(crate) fn refused(refusal: &Refusal) -> Reply
        ensures { result ≡ refused refusal.now }
    {
        Reply {
            status: Status::Refused,
            refusal: number_of(refusal),
            version: 0,
            place: 0,
        }
    }

    /// The answer to a command whose record, at this place, isn't durable.
    pub(crate) fn unsure(place: u64, refusal: &Refusal) -> Reply
        ensures { result ≡ unsure place refusal.now }
    {
        Reply {
            status: Status::Unsure,
            refusal: number_of(refusal),
            version: 0,
            place,
        }
    }

    /// The answer of a store without a master.
    pub(crate) fn no_master() -> Reply
        ensures { result ≡ no_master }
    {
        Reply {
            status: Status::Refused,
            refusal: 0,
            version: 0,
            place: 0,
        }
    }

    /// The answer to a command whose key is empty or too long, or whose value is too long.
    pub fn too_big() -> Reply
        ensures { result ≡ too_big }
    {
        Reply {
            status: Status::Refused,
            refusal: 1,
            version: 0,
            place: 0,
        }
    }
}
