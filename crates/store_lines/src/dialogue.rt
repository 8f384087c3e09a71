//! The script that is run: its lines, and where their answers go.

use lines::{LineReader, ReadFault, Reason, Taken};
use next_master::answers::{Answer, ScriptFault, write_answer};
use std::alloc::Global;
use std::io::{BufRead, Write};

/// An open script. Lines come from the reader, and answers go to the writer.
#[derive(Drop)]
pub struct Dialogue<I: BufRead + Drop, O: Write + Drop> {
    reader: I,
    writer: O,
    /// The reader of the lines. It shows the last one.
    pub lines: LineReader,
    /// The number of the last line, counted from 1.
    number: u64,
    /// Whether no line follows.
    is_over: bool,
    /// Why the run ends early, if it does.
    fault: Option<ScriptFault>,
}

impl<I: BufRead + Drop, O: Write + Drop> Dialogue<I, O> {
    /// A script of which no line was read yet.
    pub fn new(alloc: Global, reader: I, writer: O) -> Dialogue<I, O> {
        Dialogue {
            reader,
            writer,
            lines: LineReader::new(alloc),
            number: 0,
            is_over: false,
            fault: None,
        }
    }

    /// Reads the next line, and answers whether there is one to run.
    pub fn advance(&mut self) -> bool {
        if self.is_over {
            return false;
        }
        self.number = self.number.saturating_add(1);
        match self
            .lines
            .next_line(&mut self.reader, &mut self.writer, false)
        {
            Ok(Taken::Ended) => true,
            Ok(Taken::Last) => {
                self.is_over = true;
                true
            }
            Ok(Taken::Nothing) => {
                self.is_over = true;
                false
            }
            Ok(Taken::TooLong) => {
                self.refuse_line(Reason::TooLong);
                false
            }
            Err(fault) => {
                self.fail(fault_of(fault));
                false
            }
        }
    }

    /// Writes an answer.
    pub fn print(&mut self, answer: &Answer) {
        if write_answer(&mut self.writer, answer).is_err() {
            self.fail(ScriptFault::WriteFailed);
        }
    }

    /// Writes an answer, and drops it.
    pub fn answer(&mut self, answer: Answer) {
        self.print(&answer);
    }

    /// Writes a line of words.
    pub fn say(&mut self, words: &str) {
        if writeln!(self.writer, "{words}").is_err() {
            self.fail(ScriptFault::WriteFailed);
        }
    }

    /// Writes that the record at a place isn't the one of its receipt.
    pub fn say_differs(&mut self, place: u64) {
        if writeln!(self.writer, "receipt {place} differs").is_err() {
            self.fail(ScriptFault::WriteFailed);
        }
    }

    /// Ends the run at a bad line.
    pub fn refuse_line(&mut self, reason: Reason) {
        self.fail(ScriptFault::BadLine(self.number, reason));
    }

    /// Ends the run. Only the first fault is kept.
    pub fn fail(&mut self, fault: ScriptFault) {
        self.is_over = true;
        if self.fault.is_none() {
            self.fault = Some(fault);
        }
    }

    /// Flushes the writer, and tells how the run ended.
    pub fn end(&mut self) -> Result<(), ScriptFault> {
        if self.writer.flush().is_err() {
            self.fail(ScriptFault::WriteFailed);
        }
        match self.fault {
            Some(fault) => Err(fault),
            None => Ok(()),
        }
    }
}

fn fault_of(fault: ReadFault) -> ScriptFault {
    match fault {
        ReadFault::ReadFailed => ScriptFault::ReadFailed,
        ReadFault::WriteFailed => ScriptFault::WriteFailed,
        ReadFault::NoMemory => ScriptFault::NoMemory,
    }
}
