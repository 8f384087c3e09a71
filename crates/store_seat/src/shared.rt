//! The calls of a seat over a log that threads share.

ghost use Rattle.std.specs.Prelude.{◌≡◌, ◌≤◌, false, max, OnOk, IfErr, IfSome, MatchBool};
ghost use Rattle.store_seat.specs.Calls.{Calls, IsLeft, met};
ghost use Rattle.store_seat.specs.Claims.{SettlesSeat};
ghost use Rattle.store_seat.specs.Seats.{SeatValue, answered};
ghost use Rattle.store_seat.specs.Shared.{MakesSeat};
ghost use Rattle.store_seat.specs.Stops.{RefusesCall, RefusesRoll};

use crate::fault::CallFault;
use crate::log::{Applied, Attempt, Log, Progress};
use crate::naming::Naming;
use crate::seat::Seat;
use crate::waiting::take;
use history_row::Receipt;
use mark_word::{Mark, load, raise};
use master_core::Refusal;
use std::marker::PhantomData;
use std::sync::{Mutex, Wait};
use versioned_map::{Command, Reply};

/// A log under a lock, and the mark, which nobody waits for.
#[derive(Drop)]
pub struct Shared<L: Log<B>, B: Naming> {
    pub state: Mutex<L>,
    pub(crate) mark: Mark,
    pub(crate) of: PhantomData<B>,
    pub ghost named: { mark.shared.table_id ≡ B.table },
    pub ghost one_word: { mark.shared.table_id.words ≡ 1 },
}

impl<L: Log<B>, B: Naming> Shared<L, B> {
    /// This log, to be shared, and this mark beside it.
    pub fn new(log: L, mark: Mark) -> Shared<L, B>
        requires { (mark.shared.table_id ≡ B.table) × (mark.shared.table_id.words ≡ 1) }
    {
        Shared {
            state: Mutex::new(log),
            mark,
            of: PhantomData,
        }
    }

    /// Takes the log out, without the mark.
    pub fn into_log(self) -> L {
        let Shared {
            state,
            mark: _,
            of: _,
        } = self;
        state.into_inner()
    }

    /// Takes the log and the mark out, for whoever shares them again with another log around this one.
    pub fn into_parts(self) -> (L, Mark)
        ensures mark { result.1 ≡ self.mark }
        ensures named { (result.1.shared.table_id ≡ B.table) × (result.1.shared.table_id.words ≡ 1) }
    {
        let Shared { state, mark, of: _ } = self;
        (state.into_inner(), mark)
    }

    /// The greatest place to which any seat raised the mark. It waits for nobody, and takes no memory.
    pub fn mark(&self, seat: &mut Seat<B>) -> u64
        ensures value { (seat.old.mark.seen ≤ result) × (seat.old.mark.raised ≤ result) }
        ensures seat { seat.new ≡ record seat.old {
          mark = record { raised = seat.old.mark.raised; seen = result };
        } }
    {
        load(&self.mark, &mut seat.pen)
    }

    /// Raises the mark to the receipt's place. It waits for nobody, and takes no memory.
    pub fn raise(&self, seat: &mut Seat<B>, receipt: &Receipt<B>)
        ensures { seat.new ≡ record seat.old {
          mark = record { raised = max seat.old.mark.raised receipt.now.place; seen = seat.old.mark.seen };
        } }
    {
        raise(&self.mark, &mut seat.pen, receipt.place())
    }

    /// Applies one command, and answers once its record is durable. The call rolls and pushes one step at a time, and
    /// frees the lock between the steps. It pushes an open failover to its end, whoever opened it. After Unsure or
    /// CellRefused the command may have been applied.
    pub fn ask<R: Wait>(
        &self,
        rt: &R,
        seat: &mut Seat<B>,
        command: &Command,
    ) -> Result<(Reply, Receipt<B>), CallFault>
        ensures { Calls seat.old command.now result seat.new }
    {
        let Applied {
            place,
            reply,
            is_answered,
        } = match self.apply(rt, seat, command) {
            Ok(applied) => applied,
            Err(fault) => return Err(fault),
        };
        match self.conclude(rt, seat, place, is_answered) {
            Ok(()) => {}
            Err(fault) => return Err(fault),
        }
        match &mut seat.last {
            Some(receipt) => Ok((reply, receipt.again())),
            None => unreachable!(),
        }
    }

    /// Goes on with the record at this place, which a call of this seat left without an answer, and answers once the
    /// record is durable. It adds no record.
    pub fn settle<R: Wait>(
        &self,
        rt: &R,
        seat: &mut Seat<B>,
        place: u64,
    ) -> Result<(Reply, Receipt<B>), CallFault>
        ensures { SettlesSeat seat.old place result seat.new }
    {
        let mut answer = match take(rt, &self.state).claim(seat, place) {
            Ok(answer) => answer,
            Err(fault) => return Err(fault),
        };
        seat.compare(&mut answer.1);
        match self.finish(rt, seat, place) {
            Ok(()) => Ok(answer),
            Err(fault) => Err(fault),
        }
    }

    /// Applies the command, and rolls before that if it has to.
    fn apply<R: Wait>(
        &self,
        rt: &R,
        seat: &mut Seat<B>,
        command: &Command,
    ) -> Result<Applied, CallFault>
        ensures { MakesSeat seat.old command.now result seat.new }
    {
        // A statement of its own, so that the lock is free again before the roll.
        let tried = take(rt, &self.state).apply(seat, command);
        match tried {
            Some(result) => result,
            None => self.roll_and_apply(rt, seat, command),
        }
    }

    /// Rolls, and then applies the command.
    fn roll_and_apply<R: Wait>(
        &self,
        rt: &R,
        seat: &mut Seat<B>,
        command: &Command,
    ) -> Result<Applied, CallFault>
        ensures { MakesSeat seat.old command.now result seat.new }
    {
        for _ in rt.forever() {
            let refusal = match take(rt, &self.state).attempt(seat, command) {
                Attempt::Done(result) => return result,
                Attempt::Waits(refusal) => refusal,
            };
            if let Err(refusal) = self.roll(rt, refusal) {
                return Err(CallFault::Refused(refusal));
            }
        }
        unreachable!()
    }

    /// Goes on with a roll that was begun, or that could not be begun for this reason.
    fn roll<R: Wait>(&self, rt: &R, refusal: Option<Refusal>) -> Result<(), Refusal>
        requires { IfSome refusal RefusesRoll }
        ensures { IfErr result RefusesCall }
    {
        match refusal {
            None => Ok(()),
            Some(Refusal::Rolling) => take(rt, &self.state).push(),
            Some(refusal) => Err(refusal),
        }
    }

    /// Does the same as `finish`, unless the seat was answered already.
    fn conclude<R: Wait>(
        &self,
        rt: &R,
        seat: &mut Seat<B>,
        at: u64,
        is_answered: bool,
    ) -> Result<(), CallFault>
        requires { is_answered ≡ false → seat.old.first ≤ at }
        ensures ok { OnOk result (MatchBool is_answered (seat.new ≡ seat.old) (seat.new ≡ answered seat.old at)) }
        ensures err { IfErr result (λ e. (is_answered ≡ false) × (seat.new ≡ seat.old) × IsLeft at e) }
    {
        if is_answered {
            return Ok(());
        }
        self.finish(rt, seat, at)
    }

    /// Pushes until the record at this place is durable, and the seat was answered up to it.
    fn finish<R: Wait>(&self, rt: &R, seat: &mut Seat<B>, place: u64) -> Result<(), CallFault>
        requires { seat.old.first ≤ place }
        ensures ok { OnOk result (seat.new ≡ answered seat.old place) }
        ensures err { IfErr result (λ e. (seat.new ≡ seat.old) × IsLeft place e) }
    {
        for _ in rt.forever() {
            match take(rt, &self.state).advance(seat, place) {
                Ok(Progress::Answered) => return Ok(()),
                Ok(Progress::Unknown) => return Err(CallFault::CellRefused),
                Ok(Progress::Waits) => {}
                Err(refusal) => return Err(CallFault::Unsure(place, refusal)),
            }
        }
        unreachable!()
    }

    /// Shows the seat a receipt of any seat: every place that the seat is answered later is above that of the receipt.
    /// Answers whether the receipt was shown. If not, nothing changed.
    pub fn meet<R: Wait>(&self, rt: &R, seat: &mut Seat<B>, receipt: &Receipt<B>) -> bool
        ensures { MatchBool result (seat.new ≡ met seat.old receipt.now.place)
            ((seat.new ≡ seat.old) × (seat.old.first ≤ receipt.now.place)) }
    {
        let place = receipt.place();
        if place < seat.first {
            return true;
        }
        take(rt, &self.state).settle(seat, place)
    }
}
