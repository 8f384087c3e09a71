//! What lies under the lock, as the calls of a seat see it.

ghost use Rattle.std.specs.Prelude.{◌≡◌, ◌≤◌, IfErr, MatchBool};
ghost use Rattle.store_seat.specs.Claims.{ClaimsSeat};
ghost use Rattle.store_seat.specs.Seats.{answered};
ghost use Rattle.store_seat.specs.Shared.{AdvancesSeat, AttemptsSeat, TriesSeat};
ghost use Rattle.store_seat.specs.Stops.{StopsPush};

use crate::fault::CallFault;
use crate::naming::Naming;
use crate::seat::Seat;
use history_row::Receipt;
use master_core::Refusal;
use versioned_map::{Command, Reply};

/// A command that was applied.
#[derive(Drop)]
pub struct Applied {
    /// The place of its record.
    pub place: u64,
    pub reply: Reply,
    /// Whether the record was durable at once, so that the seat was answered up to it.
    pub is_answered: bool,
}

/// What became of a command.
#[derive(Drop)]
pub enum Attempt {
    /// The command was applied or refused.
    Done(Result<Applied, CallFault>),
    /// A roll has to come before the command. The roll was begun, or its begin was refused for this reason.
    Waits(Option<Refusal>),
}

/// Whether the seat was answered up to the place of its record.
#[derive(Clone, Copy)]
pub enum Progress {
    /// The record is durable, and the seat was answered up to it.
    Answered,
    /// The record is not durable yet.
    Waits,
    /// The book's numbers of the seat aren't the seat's own.
    Unknown,
}

/// The log under the lock. Each call holds the lock once, and makes at most one step of the log. The log itself says
/// what a call does to it.
pub trait Log<B: Naming> {
    /// Applies one command of this seat. If the record is durable at once, the seat is marked as answered up to it. If
    /// a roll has to come first, the result is `None`, and nothing changes.
    fn apply(&mut self, seat: &mut Seat<B>, command: &Command) -> Option<Result<Applied, CallFault>>
        ensures seat { TriesSeat seat.old command.now result seat.new };

    /// Does the same, but if a roll has to come first, it begins that roll, which is one step too.
    fn attempt(&mut self, seat: &mut Seat<B>, command: &Command) -> Attempt
        ensures seat { AttemptsSeat seat.old command.now result seat.new };

    /// Marks the seat as answered up to the place of its record, if that is durable. If it isn't, makes one push, and
    /// marks the seat so if the record is durable then. If the book's numbers of the seat aren't the seat's own, all
    /// later calls are refused.
    fn advance(&mut self, seat: &mut Seat<B>, place: u64) -> Result<Progress, Refusal>
        requires { seat.old.first ≤ place }
        ensures seat { AdvancesSeat seat.old place result seat.new };

    /// Marks the seat as answered up to this place, if that is durable and the book's numbers of the seat are the
    /// seat's own. Answers whether it did. If not, nothing changes.
    fn settle(&mut self, seat: &mut Seat<B>, place: u64) -> bool
        requires { seat.old.first ≤ place }
        ensures seat { MatchBool result (seat.new ≡ answered seat.old place) (seat.new ≡ seat.old) };

    /// The reply of a record that is the seat's own, and a receipt of its place.
    fn claim(&mut self, seat: &Seat<B>, place: u64) -> Result<(Reply, Receipt<B>), CallFault>
        ensures seat { ClaimsSeat seat.now place result };

    /// Makes one push. It is no refusal if nothing waits, since another thread made the push. Nor is it one if a
    /// backup fails in the push: then a failover is open, which further pushes end.
    fn push(&mut self) -> Result<(), Refusal>
        ensures stops { IfErr result StopsPush };
}
