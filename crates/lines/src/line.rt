//! The lines of a script.

use crate::command::CommandLine;
use crate::numbers::Numbers;

/// In which order a recovery replays the groups of a log.
#[derive(Clone, Copy, Debug)]
pub enum ReplayOrder {
    /// In the order in which the log lists them.
    Forward,
    /// The last group comes first.
    Reverse,
    /// In the order of the log, by this many workers, each in a thread of its own.
    Threads(u64),
}

/// A line of a script. Keys, values and rows of numbers are borrowed from the text that was parsed.
#[derive(Clone, Copy, Debug)]
pub enum Line<'a> {
    /// Nothing to do: an empty line, or one that begins with `#`.
    Idle,
    /// Ask the map for something: put, new, cas, get or del.
    Command(CommandLine<'a>),
    /// Drop from the image of a closed segment, in memory, the entries that aren't kept.
    Compact {
        segment: u64,
    },
    /// Begin a roll, and push until the new head is open.
    Roll,
    /// Begin a roll.
    BeginRoll,
    /// Hand one op to one backup.
    Push,
    /// Show the ids of the digest in force.
    Log,
    /// Show how many seglets of memory are counted, and how many are free.
    Room,
    /// Show the segments of the master, with what each is to it and how many of its bytes are kept.
    Segments,
    /// Show the live objects of a table, in the order of their keys' bytes, and how many there are.
    List {
        table: u64,
    },
    /// Show the bytes of the live objects, and their limit.
    Live,
    /// Show how many seglets a new master needs for the table that a recovery would find now.
    Needs,
    /// Show the bytes of a segment.
    Hex {
        segment: u64,
    },
    /// Stop after this many further takes.
    Stop {
        takes: u64,
    },
    /// Let one take end in a fault: number 1 is the next take. `taken` says whether the op of that take is taken.
    Fault {
        takes: u64,
        taken: bool,
    },
    /// Let masters that start later write format 2.
    Format,
    /// Let masters that start later have this many seglets of memory: 1 to 4,294,967,296.
    Seglets {
        seglets: u64,
    },
    /// Drop the master.
    Crash,
    /// Take from a backup all that it holds.
    Lose {
        backup: u64,
    },
    /// Make the will of the live objects, and hand it to the coordinator.
    Will,
    /// Recover the crashed master.
    Recover {
        order: ReplayOrder,
    },
    /// Show each replica that backups hold.
    Holdings,
    /// Clean these segments to the end: one or more.
    Clean {
        segments: Numbers<'a>,
    },
    /// Begin to clean these segments: one or more.
    Begin {
        segments: Numbers<'a>,
    },
    /// Treat the next entry of the segments that are being cleaned: copy it to a survivor, or drop it.
    Copy,
    /// Seal one replica of a survivor on its backup.
    Seal,
    /// Free one replica of a segment that was cleaned.
    Free,
    /// Make this many steps of the cleaner, or fewer if nothing is left to do: 1 to 65,536.
    Tend {
        steps: u64,
    },
    /// Run this many clients at one time, beside a cleaner. Each client makes these rounds of a put and a get, and the
    /// cleaner makes these passes.
    Clients {
        clients: u64,
        rounds: u64,
        passes: u64,
    },
}
