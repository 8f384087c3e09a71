//! A log whose backups may fail, with what its master has in memory, apart from any code: compaction, passes, commits
//! and repairs, through rolls and failovers, also of a master that is loading.
//!
//! `specs/` has the definitions, and `laws` and `fleets` have the theorems on them; the crate has no other code. An
//! image begins with its segment's opening, and its objects and tombstones follow (`AreImages`). A log is *intact*
//! (`IsIntact`) if it is kept, if images and index track the map over its texts, and if each image that a failover
//! sealed still has all objects and tombstones of the segment's image in memory. The crate promises to the layer
//! above:
//! - An intact log is covered (`IntactIsCovered`), at every point of a roll and of a failover.
//! - A new master's log is intact (`FreshIsIntact`). It stays intact through a command, compaction, a pass that
//!   begins, a copy, a roll, a commit and its end (`CommitKeeps`, `FinishKeeps`), a backup's failure, and the end of a
//!   failover. It stays intact through each op, also if the master doesn't learn that the op was taken (`OpKeeps`).
//! - The master knows what the backups that haven't failed hold (`Knows`), so its ops fit (`OpFits`).
//! - A failover may seal a segment's image while a pass is open too (`ImageIsRepair`, `RepairKeeps`).
//! - A loading master goes on to load with each object, op and roll, and through a failover. Once all that it loaded
//!   is on the backups, its log is intact (`FinishIsIntact`).
//! - A fleet *holds* all of a master (`HoldsAll`) if it spells an intact log and the master knows what is held. The
//!   fleet still holds all after each op that it answers Ok (`OkHoldsAll`), and after a fault that opens a failover
//!   (`FaultFailsOver`). If a fault halts the master, the fleet still *keeps* all (`FaultKeepsAll`): it spells an
//!   intact log. The fleet never answers Wrong (`OpIsNeverWrong`).
//! - A fleet that keeps all shows a sound picture, memory and replicas are covered, and each backup of the head has
//!   the head's durable units (`KeptIsSound`, `KeptIsCovered`, `KeptIsDurable`).
//!
//! This crate uses `log_bytes`, `log_laws`, `versioned_map`, `replica` and `entry`.
#![tactic(auto)]

mod fleets;
mod laws;
