//! One master: a log-structured store in memory whose log is replicated on a fleet of backups.
//!
//! The layer above calls `Master::step`: one command, the begin of a roll or of a pass, the compaction of a segment,
//! the copy of one entry, or one op that is handed to one backup. `Master::answer` is the same for a command that lies
//! elsewhere, and `Master::accept` for one whose reply is read from the history.
//! `specs/Steps.antt` says what a step does and when it is refused, and `specs/Keeps.antt` what it keeps.
//! `specs/Valid.antt` says what is true after each step: whatever backups are left, they hold a prefix of the history
//! with each durable command in it, or the loss is named. A refused step changes nothing, except after a fault of a
//! backup: then that backup may have taken one op, and the master stays halted or goes on without that backup. In this
//! case a failover is open, which pushes end (`specs/Pushes.antt`), and `Master::failover_left` says how many are left
//! (`specs/Left.antt`). What a master knows is `master_core`'s, and the fleet is `replica`'s.
//!
//! `Loading` is a master that isn't one yet. It loads what a recovery rebuilt, and then its history begins with that
//! (`specs/Loading.antt`). `Master::retire` frees what other masters left on the backups, and `Master::forget` the
//! memory of the first records that are durable.
#![tactic(auto)]

mod cleaning;
mod commands;
mod laws;
mod listing;
mod loading;
mod master;
mod pushing;
mod retiring;
mod segments;
mod showing;
mod tallying;

pub use history::{CommandRef, History, RecordRef, ReplyRef, ValueRef};
pub use images::Image;
pub use laws::stuck_push_halts;
pub use loading::Loading;
pub use master::Master;
pub use master_core;
pub use master_core::{
    Config, ConfigFault, Core, KeyHasher, ObjectList, PassFault, Refusal, Secret, Step, StepAnswer,
    Survivors, Tally,
};
pub use segment::{Segment, SegmentFault, read_segment};
pub use segments::{Role, SegmentRow};
pub use showing::{Look, Shown};
pub use versioned_map::{Command, If, Record, Reply};
