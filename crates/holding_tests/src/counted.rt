//! A log around the state of a store, which counts how often it is held.

use locked_log::master::{Command, Refusal, Reply};
use locked_log::{CallFault, Naming, Receipt, Seat, State};
use replica::Fleet;
use store_seat::{Applied, Attempt, Log, Progress};

/// The state of a store, and how often a call held it.
#[derive(Drop)]
pub struct CountedLog<F: Fleet, B: Naming> {
    pub state: State<F, B>,
    pub held: u64,
}

impl<F: Fleet, B: Naming> Log<B> for CountedLog<F, B> {
    fn apply(
        &mut self,
        seat: &mut Seat<B>,
        command: &Command,
    ) -> Option<Result<Applied, CallFault>> {
        self.held = self.held.saturating_add(1);
        self.state.apply(seat, command)
    }

    fn attempt(&mut self, seat: &mut Seat<B>, command: &Command) -> Attempt {
        self.held = self.held.saturating_add(1);
        self.state.attempt(seat, command)
    }

    fn advance(&mut self, seat: &mut Seat<B>, place: u64) -> Result<Progress, Refusal> {
        self.held = self.held.saturating_add(1);
        self.state.advance(seat, place)
    }

    fn settle(&mut self, seat: &mut Seat<B>, place: u64) -> bool {
        self.held = self.held.saturating_add(1);
        self.state.settle(seat, place)
    }

    fn claim(&mut self, seat: &Seat<B>, place: u64) -> Result<(Reply, Receipt<B>), CallFault> {
        self.held = self.held.saturating_add(1);
        self.state.claim(seat, place)
    }

    fn push(&mut self) -> Result<(), Refusal> {
        self.held = self.held.saturating_add(1);
        self.state.push()
    }
}
