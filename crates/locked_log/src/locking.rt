//! The value under the lock, as the calls of a seat see it.

ghost use Rattle.std.specs.Prelude.{◌≡◌, ◌≤◌, ◌↔◌, Err, IfErr, IsTrue, MatchBool};
ghost use Rattle.locked_log.specs.Applies.{Advances, Attempts, ClaimsHeld, DoesNotSettle, Enters, Proceeds, Settles};
ghost use Rattle.locked_log.specs.Applies.{Tries};
ghost use Rattle.locked_log.specs.Held.{held};
ghost use Rattle.locked_log.specs.States.{Lasts};
ghost use Rattle.locked_log.specs.Steps.{PushesHeld};
ghost use Rattle.store_seat.specs.Claims.{ClaimsSeat};
ghost use Rattle.store_seat.specs.Seats.{answered};
ghost use Rattle.store_seat.specs.Shared.{AdvancesSeat, AttemptsSeat, ProceedsSeat, TriesSeat};
ghost use Rattle.store_seat.specs.Stops.{StopsPush};

use crate::state::State;
use history_row::Receipt;
use replica::Fleet;
use store_seat::{Applied, Attempt, CallFault, Log, Naming, Progress, Seat};
use store_step::CleanTurn;
use store_step::master::{Command, Refusal, Reply};

impl<F: Fleet, B: Naming> State<F, B> {
    /// Applies one command of this seat, and then marks the seat as answered up to its record, if that is durable.
    fn enter_held(&mut self, seat: &mut Seat<B>, command: &Command) -> Result<Applied, CallFault>
        ensures enters { Enters (held F.state self.old) seat.old command.now result (held F.state self.new) seat.new }
        ensures lasts { Lasts 1 (held F.state self.old) (held F.state self.new) }
    {
        let (place, reply) = match self.apply_held(seat, command) {
            Ok(applied) => applied,
            Err(fault) => return Err(fault),
        };
        let is_answered = self.settle_held(seat, place);
        Ok(Applied {
            place,
            reply,
            is_answered,
        })
    }

    /// Marks the seat as answered up to the place of its record, if that is durable. If the book's numbers of the seat
    /// aren't the seat's own, all later calls are refused.
    fn proceed_held(&mut self, seat: &mut Seat<B>, place: u64) -> Progress
        requires { seat.old.first ≤ place }
        ensures seat { ProceedsSeat seat.old place result seat.new }
        ensures held { Proceeds (held F.state self.old) seat.old place result (held F.state self.new) seat.new }
        ensures lasts { Lasts 0 (held F.state self.old) (held F.state self.new) }
    {
        if self.settle_held(seat, place) {
            return Progress::Answered;
        }
        if self.knows(seat) {
            return Progress::Waits;
        }
        self.is_refused = true;
        Progress::Unknown
    }

    /// Makes one push. It is no refusal if nothing waits, since another thread made the push. Nor is it one if a
    /// backup fails in the push: then a failover is open, which further pushes end.
    fn push_held(&mut self) -> Result<(), Refusal>
        ensures stops { IfErr result StopsPush }
        ensures pushes { PushesHeld (held F.state self.old) result (held F.state self.new) }
        ensures lasts { Lasts 1 (held F.state self.old) (held F.state self.new) }
    {
        match self.step_held(CleanTurn::Push) {
            Ok(_) => Ok(()),
            Err(refusal) => match refusal {
                Refusal::Nothing => Ok(()),
                Refusal::Lost(_) => Ok(()),
                _ => Err(refusal),
            },
        }
    }
}

impl<F: Fleet, B: Naming> Log<B> for State<F, B> {
    fn apply(&mut self, seat: &mut Seat<B>, command: &Command) -> Option<Result<Applied, CallFault>>
        ensures seat { TriesSeat seat.old command.now result seat.new }
        ensures held { Tries (held F.state self.old) seat.old command.now result (held F.state self.new) seat.new }
        ensures lasts { Lasts 1 (held F.state self.old) (held F.state self.new) }
    {
        let made = self.enter_held(seat, command);
        if is_rolling(&made) {
            return None;
        }
        Some(made)
    }

    fn attempt(&mut self, seat: &mut Seat<B>, command: &Command) -> Attempt
        ensures seat { AttemptsSeat seat.old command.now result seat.new }
        ensures held { Attempts (held F.state self.old) seat.old command.now result (held F.state self.new) seat.new }
        ensures lasts { Lasts 1 (held F.state self.old) (held F.state self.new) }
    {
        if !self.waits_for_roll(seat, command) {
            return Attempt::Done(self.enter_held(seat, command));
        }
        match self.step_held(CleanTurn::BeginRoll) {
            Ok(_) => Attempt::Waits(None),
            Err(refusal) => Attempt::Waits(Some(refusal)),
        }
    }

    fn advance(&mut self, seat: &mut Seat<B>, place: u64) -> Result<Progress, Refusal>
        requires { seat.old.first ≤ place }
        ensures seat { AdvancesSeat seat.old place result seat.new }
        ensures held { Advances (held F.state self.old) seat.old place result (held F.state self.new) seat.new }
        ensures lasts { Lasts 1 (held F.state self.old) (held F.state self.new) }
    {
        match self.proceed_held(seat, place) {
            Progress::Answered => return Ok(Progress::Answered),
            Progress::Unknown => return Ok(Progress::Unknown),
            Progress::Waits => {}
        }
        match self.push_held() {
            Ok(()) => {}
            Err(refusal) => return Err(refusal),
        }
        Ok(self.proceed_held(seat, place))
    }

    fn settle(&mut self, seat: &mut Seat<B>, place: u64) -> bool
        requires { seat.old.first ≤ place }
        ensures seat { MatchBool result (seat.new ≡ answered seat.old place) (seat.new ≡ seat.old) }
        ensures settles { MatchBool result
            (Settles (held F.state self.old) seat.old place (held F.state self.new) seat.new)
            (DoesNotSettle (held F.state self.old) seat.old place (held F.state self.new) seat.new) }
    {
        self.settle_held(seat, place)
    }

    fn claim(&mut self, seat: &Seat<B>, place: u64) -> Result<(Reply, Receipt<B>), CallFault>
        ensures seat { ClaimsSeat seat.now place result }
        ensures claims { ClaimsHeld (held F.state self.old) seat.now place result }
        ensures same { held F.state self.new ≡ held F.state self.old }
    {
        self.claim_held(seat, place)
    }

    fn push(&mut self) -> Result<(), Refusal>
        ensures stops { IfErr result StopsPush }
        ensures pushes { PushesHeld (held F.state self.old) result (held F.state self.new) }
        ensures lasts { Lasts 1 (held F.state self.old) (held F.state self.new) }
    {
        self.push_held()
    }
}

/// Whether a command was refused since a roll has to come first.
fn is_rolling(made: &Result<Applied, CallFault>) -> bool
    ensures { IsTrue result ↔ (made.now ≡ Err (CallFault.Refused Refusal.Rolling)) }
{
    match made {
        Ok(_) => false,
        Err(fault) => match fault {
            CallFault::Refused(refusal) => *refusal == Refusal::Rolling,
            _ => false,
        },
    }
}
