//! Text that is written word by word.

ghost use Rattle.std.specs.Prelude.{◌≡◌, ◌++◌, codes, decimal, OnOk, []};

use entry::NoMemory;
use itoa::Buffer;
use std::alloc::Global;

/// Lines of words, with a blank between two words and a line feed behind each line.
#[derive(Drop)]
pub struct Lines {
    pub text: Vec<u8>,
}

impl Lines {
    /// No lines.
    pub fn new(alloc: Global) -> Lines
        ensures { result.text.items ≡ [] }
    {
        Lines {
            text: Vec::new(alloc),
        }
    }

    /// Writes the first word of a line.
    pub fn first(&mut self, word: &[u8]) -> Result<(), NoMemory>
        ensures { OnOk result (self.new.text.items ≡ self.old.text.items ++ word.now) }
    {
        self.text.extend_from_slice(word)?;
        Ok(())
    }

    /// Writes the number that a line begins with.
    pub fn first_number(&mut self, number: u64) -> Result<(), NoMemory>
        ensures { OnOk result (self.new.text.items ≡ self.old.text.items ++ decimal number) }
    {
        let mut buffer = Buffer::new();
        self.first(buffer.format(number).as_bytes())
    }

    /// Writes a blank and a word.
    pub fn word(&mut self, word: &[u8]) -> Result<(), NoMemory>
        ensures { OnOk result (self.new.text.items ≡ (self.old.text.items ++ codes " ") ++ word.now) }
    {
        self.text.extend_from_slice(b" ")?;
        self.text.extend_from_slice(word)?;
        Ok(())
    }

    /// Writes a blank and a number.
    pub fn number(&mut self, number: u64) -> Result<(), NoMemory>
        ensures { OnOk result (self.new.text.items ≡ (self.old.text.items ++ codes " ") ++ decimal number) }
    {
        let mut buffer = Buffer::new();
        self.word(buffer.format(number).as_bytes())
    }

    /// Ends the line.
    pub fn end(&mut self) -> Result<(), NoMemory>
        ensures { OnOk result (self.new.text.items ≡ self.old.text.items ++ codes "\n") }
    {
        self.text.extend_from_slice(b"\n")?;
        Ok(())
    }
}
