//! The theorem on recovery: from what some backups still hold of a master, a recovery rebuilds the master's map after
//! a prefix of its commands.
//!
//! `recover` promises this for each sound state of a master of which an inventory shows a part. `run_drill` promises
//! it for a whole life: any steps of any master, its end, and the recovery from the backups that are kept. Any will
//! may divide the segments, and their groups may be replayed in any order. Both promises rest on the definitions of
//! `log_bytes` and `log_laws` alone: what a sound picture is, and which commands are durable.
//! `specs/Recovered.antt` defines what comes back, and `specs/Orders.antt` which wills cover the tablets.
#![tactic(auto)]

mod drill;
mod inventory;
mod laws;
mod recovery;
mod succession;
mod threaded;

pub use claims::{Rebuilt, ReplayFault};
pub use drill::{Drill, run_drill};
pub use inventory::inventory_of;
pub use laws::{
    acknowledged_outlive, acknowledged_recovered, drilled_are_lives, orders_name_groups,
    versions_rise,
};
pub use rebuilding::{GroupOrder, numbers, rebuild, rebuild_plain};
pub use recovery::{RecoveryFault, recover};
pub use recovery_plan::{Plan, PlanFault, plan};
pub use replay;
pub use replay::{driving, master};
pub use succession::{Course, Drills, End, Lived, NotAdopted, run_lives};
pub use tablet_will::{Will, make_will};
pub use threaded::recover_threads;
