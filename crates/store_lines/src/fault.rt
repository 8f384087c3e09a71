//! Why a line has no answer.

use crate::dialogue::Dialogue;
use entry::NoMemory;
use lines::Reason;
use next_master::answers::ScriptFault;
use std::io::{BufRead, Write};

/// Why a line has no answer.
#[derive(Clone, Copy)]
pub enum LineFault {
    /// The line names a backup that isn't there. The fleet has this many.
    NoBackup(u64),
    /// With what the line sets, no master that starts later would be within its limits.
    NoLaterMaster,
    NoMemory,
    /// The store doesn't know the seat. Only tests show that this never comes.
    SeatUnknown,
    /// A cell refused its record. Only tests show that this never comes.
    CellRefused,
    /// Each cell of the store has its record.
    CellsSpent,
}

impl From<NoMemory> for LineFault {
    fn from(_fault: NoMemory) -> LineFault {
        LineFault::NoMemory
    }
}

/// Says why a line has no answer, and ends the run if nothing can follow.
pub fn tell<I: BufRead + Drop, O: Write + Drop>(dialogue: &mut Dialogue<I, O>, fault: LineFault) {
    match fault {
        LineFault::NoBackup(backups) => dialogue.refuse_line(Reason::NoBackup(backups)),
        LineFault::NoLaterMaster => dialogue.refuse_line(Reason::NoLaterMaster),
        LineFault::NoMemory => dialogue.fail(ScriptFault::NoMemory),
        LineFault::SeatUnknown => dialogue.say("refused SeatUnknown"),
        LineFault::CellRefused => dialogue.say("refused CellRefused"),
        LineFault::CellsSpent => dialogue.say("refused CellsSpent"),
    }
}
