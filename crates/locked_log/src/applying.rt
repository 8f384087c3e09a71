//! A command under the lock.

ghost use Rattle.std.specs.Prelude.{◌≡◌, ◌<◌, ◌≤◌, ◌+◌, ◌↔◌, None, Err, false, IfErr, IsTrue, OnOk, length};
ghost use Rattle.locked_log.specs.Applies.{AppliesHeld, WaitsForRoll};
ghost use Rattle.locked_log.specs.Held.{held};
ghost use Rattle.locked_log.specs.States.{IsState, Lasts};
ghost use Rattle.store_seat.specs.Accounts.{Knows};
ghost use Rattle.store_step.specs.master.master_state.Causes.{command_refusal};

use crate::state::State;
use history::{RecordRef, view_command, view_reply};
use replica::Fleet;
use store_seat::{CallFault, Naming, Seat, file};
use store_step::apply_command;
use store_step::master::{Command, Refusal, Reply};

impl<F: Fleet, B: Naming> State<F, B> {
    /// Applies one command of this seat. Before the step its record has a cell, and memory for the cell.
    pub fn apply_held(
        &mut self,
        seat: &mut Seat<B>,
        command: &Command,
    ) -> Result<(u64, Reply), CallFault>
        ensures applies { AppliesHeld (held F.state self.old) seat.old command.now result
            (held F.state self.new) seat.new }
        ensures lasts { Lasts 1 (held F.state self.old) (held F.state self.new) }
        ensures valid { IsState (held F.state self.new) B.made }
    {
        self.show_valid();
        if !self.has_cell() {
            return Err(self.lacks_cell(seat, command));
        }
        if !self.reserve() {
            return Err(self.want(seat, command));
        }
        self.apply_reserved(seat, command)
    }

    /// Whether there is a cell for the next record.
    fn has_cell(&self) -> bool
        ensures { IsTrue result ↔ (length self.now.master.knows.history < self.now.start + length self.now.row) }
    {
        self.row.reaches(self.master.history().len())
    }

    /// Takes memory for the cell of one record, unless it has some. Answers whether it has it then. Nothing else
    /// changes.
    fn reserve(&mut self) -> bool
        ensures same { self.new ≡ self.old }
        ensures valid { IsState (held F.state self.new) B.made }
    {
        self.row.reserve(self.alloc).is_ok()
    }

    /// Why a command of this seat is refused before its record's cell is looked at, if it is.
    fn test(&self, seat: &Seat<B>, command: &Command) -> Result<(), CallFault>
        ensures passes { OnOk result ((self.now.is_refused ≡ false) × Knows self.now.book seat.now
            × (command_refusal self.now.master.knows command.now ≡ None)) }
        ensures refused { IfErr result (λ fault. AppliesHeld (held F.state self.now) seat.now command.now (Err fault)
            (held F.state self.now) seat.now) }
    {
        if self.is_refused {
            return Err(CallFault::CellRefused);
        }
        if !self.knows(seat) {
            return Err(CallFault::SeatUnknown);
        }
        match self.master.would(seat.number(), command) {
            Ok(()) => Ok(()),
            Err(refusal) => Err(CallFault::Refused(refusal)),
        }
    }

    /// Why a command of this seat is refused if its cell gets no memory: by the test that fails, or else for want of
    /// memory.
    fn want(&self, seat: &Seat<B>, command: &Command) -> CallFault
        ensures { AppliesHeld (held F.state self.now) seat.now command.now (Err result)
            (held F.state self.now) seat.now }
    {
        match self.test(seat, command) {
            Ok(()) => CallFault::Refused(Refusal::NoMemory),
            Err(fault) => fault,
        }
    }

    /// Why a command of this seat is refused if there is no cell for its record: by the test that fails, or else
    /// because the cells are spent.
    fn lacks_cell(&self, seat: &Seat<B>, command: &Command) -> CallFault
        requires { self.now.start + length self.now.row ≤ length self.now.master.knows.history }
        ensures { AppliesHeld (held F.state self.now) seat.now command.now (Err result)
            (held F.state self.now) seat.now }
    {
        match self.test(seat, command) {
            Ok(()) => CallFault::CellsSpent,
            Err(fault) => fault,
        }
    }

    /// Applies one command of this seat, once its record has a cell, and the cell has memory.
    fn apply_reserved(
        &mut self,
        seat: &mut Seat<B>,
        command: &Command,
    ) -> Result<(u64, Reply), CallFault>
        requires { length self.old.master.knows.history < self.old.start + length self.old.row }
        ensures applies { AppliesHeld (held F.state self.old) seat.old command.now result
            (held F.state self.new) seat.new }
        ensures lasts { Lasts 1 (held F.state self.old) (held F.state self.new) }
        ensures valid { IsState (held F.state self.new) B.made }
    {
        if self.is_refused {
            return Err(CallFault::CellRefused);
        }
        if !self.knows(seat) {
            return Err(CallFault::SeatUnknown);
        }
        self.master.show_kept();
        let number = seat.number();
        let view = view_command(command);
        let (place, reply) = match apply_command(&mut self.master, number, &view) {
            Ok(applied) => applied,
            Err(refusal) => return Err(CallFault::Refused(refusal)),
        };
        let what = RecordRef {
            seat: number,
            command: view,
            reply: view_reply(&reply),
        };
        if !file(
            self.alloc,
            &mut self.row,
            &mut self.book,
            &mut self.total,
            &mut self.is_refused,
            seat,
            place,
            &what,
        ) {
            return Err(CallFault::CellRefused);
        }
        Ok((place, reply))
    }

    /// Whether the command of this seat would be applied if no roll had to come first.
    pub(crate) fn waits_for_roll(&self, seat: &Seat<B>, command: &Command) -> bool
        ensures { IsTrue result ↔ WaitsForRoll (held F.state self.now) seat.now command.now }
    {
        if self.is_refused || !self.knows(seat) {
            return false;
        }
        match self.master.would(seat.number(), command) {
            Ok(()) => false,
            Err(refusal) => refusal == Refusal::Rolling,
        }
    }
}
