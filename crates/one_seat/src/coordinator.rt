//! What outlives a master, and how the next master's beginning is found.

ghost use Rattle.std.specs.Prelude.{IfOk};
ghost use Rattle.backup.specs.State.{fleet_state};
ghost use Rattle.store_lines.specs.Lives.{CanBegin};

use backup::MemoryFleet;
use entry::NoMemory;
use lines::ReplayOrder;
use replica::{Fleet, Inventory};
use std::alloc::Global;
use store_lines::master::Config;
use store_lines::recovery::{GroupOrder, Rebuilt, RecoveryFault, Will, make_will, recover};
use store_lines::replay::seglets_needed;
use store_lines::{
    Answer, FIRST_MASTER, Later, LineFault, Options, check_later, configuration, next_config, want,
};

/// What outlives a master: its number, the will, and what later masters have in place of the options.
#[derive(Drop)]
pub struct Coordinator {
    /// The number of the master that a recovery is for.
    pub master: u64,
    /// The greatest number that a master had, or was to have.
    pub used: u64,
    /// The will by which a recovery divides the master's log.
    pub will: Will,
    /// What masters that start later have in place of the options.
    pub later: Later,
}

/// The table of a master, and what the master that is to adopt it begins with.
#[derive(Drop)]
pub struct Inheritance {
    pub rebuilt: Rebuilt,
    pub config: Config,
    pub will: Will,
}

/// The will that is one partition over all tables.
pub fn whole_will(alloc: Global, options: &Options) -> Result<Will, NoMemory> {
    let config = configuration(alloc, options, FIRST_MASTER)?;
    match make_will(alloc, config.tablets.as_slice(), &[], u64::MAX, u64::MAX) {
        Ok(will) => Ok(will),
        Err(_) => Err(NoMemory),
    }
}

impl Coordinator {
    /// The coordinator of the first master.
    pub fn new(will: Will) -> Coordinator {
        Coordinator {
            master: FIRST_MASTER,
            used: FIRST_MASTER,
            will,
            later: Later::none(),
        }
    }

    /// Lets masters that start later have this in place of the options, if they are within their limits then.
    pub fn set_later(
        &mut self,
        alloc: Global,
        options: &Options,
        later: Later,
    ) -> Result<(), LineFault> {
        check_later(alloc, options, &later)?;
        self.later = later;
        Ok(())
    }

    /// Runs the line that sets the format of later masters.
    pub fn list_lengths(&mut self, alloc: Global, options: &Options) -> Result<Answer, LineFault> {
        let later = self.later.with_lengths();
        self.set_later(alloc, options, later)?;
        Ok(Answer::Format)
    }

    /// Runs the line that sets how many seglets later masters have.
    pub fn set_seglets(
        &mut self,
        alloc: Global,
        options: &Options,
        seglets: u64,
    ) -> Result<Answer, LineFault> {
        let later = self.later.with_seglets(seglets);
        self.set_later(alloc, options, later)?;
        Ok(Answer::Seglets(seglets))
    }

    /// Answers how many seglets a new master needs for the table that a recovery would find.
    pub fn needs(&self, alloc: Global, options: &Options, fleet: &MemoryFleet) -> Answer {
        match self.find_inheritance(alloc, options, fleet, ReplayOrder::Forward) {
            Ok(found) => Answer::Needs(seglets_needed(&found.rebuilt, &found.config)),
            Err(answer) => answer,
        }
    }

    /// Recovers the table of the last master, and chooses the next master's number. An answer tells why this failed.
    pub fn find_inheritance(
        &self,
        alloc: Global,
        options: &Options,
        fleet: &MemoryFleet,
        order: ReplayOrder,
    ) -> Result<Inheritance, Answer>
        ensures { IfOk result (λ f. CanBegin options.now (fleet_state fleet.now) f.config) }
    {
        let Ok(inventory) = fleet.inventory(alloc) else {
            return Err(want());
        };
        let rebuilt = match self.rebuild(alloc, &inventory, fleet.least(self.master), order) {
            Ok(rebuilt) => rebuilt,
            Err(fault) => return Err(Answer::NotRecovered(fault)),
        };
        let greatest = self.master.max(self.used);
        let config = match next_config(alloc, options, &self.later, greatest, fleet, &inventory) {
            Ok(config) => config,
            Err(answer) => return Err(answer),
        };
        match whole_will(alloc, options) {
            Ok(will) => Ok(Inheritance {
                rebuilt,
                config,
                will,
            }),
            Err(NoMemory) => Err(want()),
        }
    }

    /// The table of the last master.
    fn rebuild(
        &self,
        alloc: Global,
        inventory: &Inventory<'_>,
        least: u64,
        order: ReplayOrder,
    ) -> Result<Rebuilt, RecoveryFault> {
        let groups = match order {
            ReplayOrder::Forward => GroupOrder::Forward,
            ReplayOrder::Reverse => GroupOrder::Reverse,
            // Workers take the groups in order, and give what this one thread gives.
            ReplayOrder::Threads(_) => GroupOrder::Forward,
        };
        recover(alloc, inventory, self.master, least, &self.will, &groups)
    }
}
