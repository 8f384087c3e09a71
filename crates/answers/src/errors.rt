//! The error output.

ghost use Rattle.std.specs.Prelude.{◌≡◌, [], false};
ghost use Rattle.answers.specs.Errors.{Errors, Writes};

use crate::handing::hand;
use std::io::Write;
use std::marker::Model;

/// The output for the lines about faults. Once writing has failed, it writes no more.
#[derive(Drop)]
pub struct ErrorOutput<W: Write + Drop> {
    writer: W,
    has_failed: bool,
    explains: bool,
}

impl<W: Write + Drop> Model for ErrorOutput<W> {
    ghost Value = { Errors };

    ghost view = { λ e. record {
      holds = W.contents e.writer;
      has_failed = e.has_failed;
      explains = e.explains;
    } };
}

impl<W: Write + Drop> ErrorOutput<W> {
    /// An output for faults. If it `explains`, a second line says why, for a reader at a terminal.
    pub fn new(writer: W, explains: bool) -> ErrorOutput<W>
        ensures { result ≡ record { holds = W.contents writer; has_failed = false; explains = explains } }
    {
        ErrorOutput {
            writer,
            has_failed: false,
            explains,
        }
    }

    /// Whether a second line says why.
    pub fn explains(&self) -> bool
        ensures { result ≡ self.now.explains }
    {
        self.explains
    }

    /// The writer that has the lines.
    pub fn writer(&self) -> &W
        ensures { W.contents result.now ≡ self.now.holds }
    {
        &self.writer
    }

    /// Writes the bytes, unless writing failed before.
    pub fn write(&mut self, bytes: &[u8])
        ensures { Writes self.old self.new bytes.now }
    {
        if !self.has_failed {
            self.has_failed = hand(&mut self.writer, bytes).is_err();
        }
    }

    /// Flushes the writer, unless writing failed before.
    pub fn flush(&mut self)
        ensures { Writes self.old self.new [] }
    {
        if !self.has_failed {
            self.has_failed = self.writer.flush().is_err();
        }
    }
}
