//! Laws of a log of many segments whose backups may fail, over entries, apart from any code.
//!
//! `specs/` has the definitions, `proofs/` has lemmas on them, and `laws` has the theorems. The crate has no other
//! code. The definitions come in three steps, each in the words of the one before it.
//!
//! **Heads, units and digests.** The layers above share these words:
//! - A head has one unit for each record that appended something, and a digest, which lists ids and, under format 2,
//!   lengths (`Heads`).
//! - `AreNumbered` says that units are those of a history, and `Rise` that their numbers rise. The least number of
//!   units that a replica has (`fewest`) tells how many records all replicas have (`records_before`).
//! - `IsTextOfSegment` says that bytes are a segment's text, and `BearOneDigest` (`ReplicaBytes`) that all replicas of
//!   a segment have the same digest.
//! - A log with one more loaded object represents the state with this object (`LoadedIsRepresented`).
//!
//! **Memory compaction and combined cleaning.** Each lemma on these words says that one change keeps one of them:
//! - What compaction keeps of a segment's image, and where the kept entries go (`Compaction`).
//! - What is true of the images, the index and the texts of a log set. The index finds each live object, and each dead
//!   object has its tombstone (`IsTracked`). What an open pass still has to copy lies ahead of its cursor
//!   (`IsPassing`). Ids and versions are below the next ones (`IsAround`).
//! - How images and index change when a pass begins, an entry is copied or entries are appended (`ImageSteps`), which
//!   segments a pass has (`IsPassOf`), and which digest its commit has (`IsCommit`).
//!
//! `log_memory` says when a master with such a memory is intact, and that each step keeps it intact.
//!
//! **What backups hold.** This step has the registry of the least head that may be used, and the parts of a failover. A
//! replica has an opening, entries and a length, and no bytes. Both formats are here: under format 1 digests list ids
//! alone, and a fault halts the master. The backups hold a log (`IsLogHeld`) if each replica of the head in force has
//! some first units of the head, each replica of a new head has the opening alone, and each other replica is whole, or
//! too short to be used. A log is *kept* (`IsKept`) if, moreover, whatever a recovery may choose of the replicas
//! represents the history. A master *knows* (`IsKnown`) what the backups that haven't failed hold. The crate promises
//! to the layer above:
//! - A kept log is sound, whichever backups are left (`KeptIsSound`).
//! - A new master's log is kept (`FreshIsKept`). The log stays kept through each op, also if the master doesn't learn
//!   that the op was taken (`BothHeld`), and through each command, each roll and each part of a failover. Every op
//!   fits what the backups hold (`Fits`).
//! - A replica may have anything between its segment's image and text (`BetweenStands`), so a failover may seal an
//!   image.
//! - The durable count never falls (`DurableStays`), and is at most the length of the history (`DurableIsWithin`).
//!
//! This crate uses `versioned_map`, `replica`, `segment` and `entry`.
#![tactic(auto)]

mod laws;
