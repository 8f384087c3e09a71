//! A life of a master, behind a store of one seat.

use crate::coordinator::Coordinator;
use backup::MemoryFleet;
use entry::NoMemory;
use lines::Line;
use std::alloc::Global;
use std::io::{BufRead, Write};
use std::sync::Wait;
use store_lines::locked_log::{CallFault, Naming, Receipt, Row, Seat, Store};
use store_lines::master::{Command, History, Refusal, Reply, ReplyRef};
use store_lines::{
    Answer, Dialogue, LineFault, Options, command_of, look_line, refuse, renew, turn_line,
};

/// A store of one seat, and what the seat was answered.
#[derive(Drop)]
pub struct Life<B: Naming> {
    alloc: Global,
    pub store: Store<MemoryFleet, B>,
    seats: Vec<Seat<B>>,
    /// The receipts of all calls that were answered.
    receipts: Vec<Receipt<B>>,
    /// The replies that were printed. The last one may be missing.
    replies: Vec<Reply>,
    /// How many calls made a record.
    calls: usize,
}

impl<B: Naming> Life<B> {
    /// A life before its first call.
    pub fn new(alloc: Global, store: Store<MemoryFleet, B>, seats: Vec<Seat<B>>) -> Life<B> {
        Life {
            alloc,
            store,
            seats,
            receipts: Vec::new(alloc),
            replies: Vec::new(alloc),
            calls: 0,
        }
    }

    /// Runs one line. The answer is Crashed or Stopped if the line ends the life.
    pub fn run_line<R: Wait>(
        &mut self,
        rt: &R,
        options: &Options,
        coordinator: &mut Coordinator,
        line: Line<'_>,
    ) -> Result<Answer, LineFault> {
        if let Line::Command(command) = line {
            let command = command_of(self.alloc, command)?;
            return self.call(rt, command);
        }
        if let Some(answer) = turn_line(rt, self.alloc, &self.store, line)? {
            return Ok(answer);
        }
        if let Some(answer) = look_line(rt, &self.store, line) {
            return Ok(answer);
        }
        self.run_other(rt, options, coordinator, line)
    }

    /// Runs a line that isn't a command, a turn or a look.
    fn run_other<R: Wait>(
        &mut self,
        rt: &R,
        options: &Options,
        coordinator: &mut Coordinator,
        line: Line<'_>,
    ) -> Result<Answer, LineFault> {
        match line {
            Line::Stop { takes } => {
                self.store.limit(rt, takes);
                Ok(Answer::Stop(takes))
            }
            Line::Fault { takes, taken } => {
                self.store.fault_at(rt, takes, taken);
                Ok(Answer::Fault(takes, taken))
            }
            Line::Format => coordinator.list_lengths(self.alloc, options),
            Line::Seglets { seglets } => coordinator.set_seglets(self.alloc, options, seglets),
            Line::Crash => Ok(Answer::Crashed),
            Line::Will => Ok(renew(rt, self.alloc, &self.store, options, &mut coordinator.will)),
            Line::Lose { backup } if backup >= options.backups => {
                Err(LineFault::NoBackup(options.backups))
            }
            Line::Lose { .. } => Ok(Answer::Up),
            Line::Recover { .. } | Line::Needs => Ok(Answer::Up),
            // A store of one seat serves no clients.
            Line::Clients { .. } => Ok(Answer::Refused(Refusal::NoMemory)),
            _ => Ok(Answer::Silent),
        }
    }

    /// Calls with a command, and keeps the receipt.
    fn call<R: Wait>(&mut self, rt: &R, command: Command) -> Result<Answer, LineFault> {
        match call_first(rt, &self.store, &mut self.seats, command) {
            Ok((reply, receipt)) => {
                self.calls = self.calls.saturating_add(1);
                match self.receipts.push(receipt) {
                    Ok(()) => Ok(Answer::Reply(reply)),
                    Err(_) => Err(LineFault::NoMemory),
                }
            }
            Err(CallFault::Refused(refusal)) => Ok(refuse(rt, &self.store, refusal)),
            Err(CallFault::Unsure(_, refusal)) => {
                self.calls = self.calls.saturating_add(1);
                Ok(refuse(rt, &self.store, refusal))
            }
            Err(CallFault::SeatUnknown) => Err(LineFault::SeatUnknown),
            Err(CallFault::CellRefused) => Err(LineFault::CellRefused),
            Err(CallFault::CellsSpent) => Err(LineFault::CellsSpent),
            // Nothing is settled here, so this never comes.
            Err(CallFault::NotYours) => Err(LineFault::SeatUnknown),
        }
    }

    /// Keeps an answer that was printed, if it is a reply. Answers whether the life goes on.
    pub fn keep(&mut self, answer: Answer) -> Result<bool, NoMemory> {
        match answer {
            Answer::Reply(reply) => {
                self.replies.push(reply)?;
                Ok(true)
            }
            Answer::Crashed => Ok(false),
            Answer::Stopped => Ok(false),
            _ => Ok(true),
        }
    }

    /// Closes the store, and prints which receipts don't fit the history. The master is dropped, and the fleet is
    /// left.
    pub fn close<I: BufRead + Drop, O: Write + Drop>(
        self,
        dialogue: &mut Dialogue<I, O>,
    ) -> MemoryFleet {
        let Life {
            alloc: _,
            store,
            seats,
            mut receipts,
            replies,
            calls,
        } = self;
        match store.close(seats) {
            Ok((master, row)) => {
                let mut row = row;
                compare(
                    dialogue,
                    &mut row,
                    receipts.as_mut_slice(),
                    replies.as_slice(),
                    calls,
                    master.history(),
                );
                master.crash()
            }
            Err(master) => {
                dialogue.say("refused Close");
                master.crash()
            }
        }
    }
}

/// A call of the only seat.
fn call_first<B: Naming, R: Wait>(
    rt: &R,
    store: &Store<MemoryFleet, B>,
    seats: &mut Vec<Seat<B>>,
    command: Command,
) -> Result<(Reply, Receipt<B>), CallFault> {
    match seats.get_mut(0) {
        Some(seat) => store.call(rt, seat, command),
        None => Err(CallFault::SeatUnknown),
    }
}

/// Prints which receipts don't fit the history, and whether the history has other records.
fn compare<B: Naming, I: BufRead + Drop, O: Write + Drop>(
    dialogue: &mut Dialogue<I, O>,
    row: &mut Row<B>,
    receipts: &mut [Receipt<B>],
    replies: &[Reply],
    calls: usize,
    history: &History,
) {
    if history.len() != calls {
        dialogue.say("history differs");
    }
    for i in 0..receipts.len() {
        let receipt = &mut receipts[i];
        if !is_told(row, receipt, replies.get(i), history) {
            dialogue.say_differs(receipt.place());
        }
    }
}

/// Whether the history has the receipt's record at its place, of seat 0 and with this reply.
fn is_told<B: Naming>(
    row: &mut Row<B>,
    receipt: &mut Receipt<B>,
    reply: Option<&Reply>,
    history: &History,
) -> bool {
    let place = receipt.place() as usize;
    if !row.reaches(place) {
        return false;
    }
    row.tell(receipt);
    match history.get(place) {
        Some(record) => record.seat == 0 && is_reply(&record.reply, reply),
        None => false,
    }
}

/// Whether the reply is the printed one, if that is known.
fn is_reply(reply: &ReplyRef<'_>, printed: Option<&Reply>) -> bool {
    match printed {
        Some(printed) => is_same(reply, printed),
        None => true,
    }
}

fn is_same(reply: &ReplyRef<'_>, other: &Reply) -> bool {
    match reply {
        ReplyRef::Found(version, value) => match other {
            Reply::Found(same, bytes) => {
                version.get() == same.get() && value.bytes == bytes.as_slice()
            }
            _ => false,
        },
        ReplyRef::None => matches!(other, Reply::None),
        ReplyRef::Ok(version) => match other {
            Reply::Ok(same) => version.get() == same.get(),
            _ => false,
        },
        ReplyRef::Mismatch(Some(version)) => match other {
            Reply::Mismatch(Some(same)) => version.get() == same.get(),
            _ => false,
        },
        ReplyRef::Mismatch(None) => matches!(other, Reply::Mismatch(None)),
    }
}
