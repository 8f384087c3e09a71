//! A reader that doesn't read from its source again once that has ended.

use std::io::{self, Read};

/// A reader over another one, from which it doesn't read again once that gave no byte. So at a terminal it is enough
/// to end the input once, however often the program looks for the end.
#[derive(Drop)]
pub struct UntilEnd<R> {
    reader: R,
    has_ended: bool,
}

impl<R> UntilEnd<R> {
    pub fn new(reader: R) -> UntilEnd<R> {
        UntilEnd {
            reader,
            has_ended: false,
        }
    }
}

impl<R: Read> Read for UntilEnd<R> {
    fn read(&mut self, buffer: &mut [u8]) -> io::Result<usize> {
        if self.has_ended {
            return Ok(0);
        }
        let count = self.reader.read(buffer)?;
        self.has_ended = count == 0 && !buffer.is_empty();
        Ok(count)
    }
}
