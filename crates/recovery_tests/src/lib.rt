//! The tests of what backups hold and of what is rebuilt from it: ops on a small fleet, plans of damaged inventories,
//! logs that are replayed partition by partition, and logs that are rebuilt by wills in several orders, on one thread
//! and by workers.
#![tactic(auto)]

#[cfg(test)]
mod backups;
#[cfg(test)]
mod divided;
#[cfg(test)]
mod large;
#[cfg(test)]
mod logs;
#[cfg(test)]
mod plans;
#[cfg(test)]
mod rebuilds;
#[cfg(test)]
mod shares;
#[cfg(test)]
mod workers;
