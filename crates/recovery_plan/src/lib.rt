//! Which replicas a recovery reads: those of the newest log in an inventory, or the loss that hides it.
//!
//! The layer above uses `plan` alone. With Ok the plan is a choice of the newest log, with the preferred replica of
//! each segment (`IsPlanOf`). A fault is one that the inventory has (`IsPlanFault`). If it names a loss, there is
//! nothing to choose (`NamesLoss`). A plan copies no bytes: its segments lie where the backups hold them. The crate
//! uses `segment`, which reads replicas, and `replica`, which defines a choice.
#![tactic(auto)]

mod chosen;
mod fault;
mod finding;
mod head;
mod listed;
mod missing;
mod planning;
mod preferred;
mod reading;
mod usable;

pub use chosen::{Plan, Segments};
pub use fault::PlanFault;
pub use planning::plan;
