//! The lines that ask the map for something.

ghost use Rattle.lines.specs.Keys.{IsKey};

/// A key of a line.
#[derive(Clone, Copy, Debug)]
pub struct KeyWord<'a> {
    /// 1 to 1,024 bytes.
    pub bytes: &'a [u8],
    ghost word: { IsKey bytes.now },
}

/// A line that is a command. Keys and values are borrowed from the text that was parsed.
#[derive(Clone, Copy, Debug)]
pub enum CommandLine<'a> {
    /// Put a value under a key of a table.
    Put {
        table: u64,
        key: KeyWord<'a>,
        value: &'a [u8],
    },
    /// Put a value under a key only if the key is absent.
    New {
        table: u64,
        key: KeyWord<'a>,
        value: &'a [u8],
    },
    /// Put a value under a key only if the key has this version.
    Cas {
        table: u64,
        key: KeyWord<'a>,
        version: u64,
        value: &'a [u8],
    },
    /// Get the value of a key of a table.
    Get {
        table: u64,
        key: KeyWord<'a>,
    },
    /// Delete a key of a table.
    Del {
        table: u64,
        key: KeyWord<'a>,
    },
}
