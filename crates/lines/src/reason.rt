//! Why a line is bad.

ghost use Rattle.std.specs.Prelude.{◌≡◌, ◌++◌, Some};
ghost use Rattle.lines.specs.Texts.{number_text, reason_text, shape_text};

use std::fmt;

/// Why a line is bad.
#[derive(Clone, Copy, Debug, PartialEq, Eq)]
pub enum Reason {
    /// The line ends with a carriage return.
    CarriageReturn,
    /// The line has this byte, which is neither a space nor visible.
    Byte(u8),
    /// Two spaces of the line come together, or one is at an end of it.
    Spaces,
    /// The first word of the line has a capital letter.
    Capital,
    /// The first word of the line names no command.
    Unknown,
    /// The words behind the name of this command are not those that it has.
    Shape(&'static str, Shape),
    /// A word that has to be a number isn't one.
    Number,
    /// The key of the line is too long.
    LongKey,
    /// In a script with raw bytes, the key or the value of the line isn't behind its length.
    Uncounted,
    /// The line is too long.
    TooLong,
    /// The line comes after the last line that a script may have.
    TooMany,
    /// The line names a backup that isn't there. The fleet has this many, numbered from 0.
    NoBackup(u64),
    /// No master could begin with what the line sets for masters that start later.
    NoLaterMaster,
}

/// The words that a command has behind its name.
#[derive(Clone, Copy, Debug, PartialEq, Eq)]
pub enum Shape {
    Key,
    Value,
    Version,
    Table,
    Segment,
    Segments,
    Ops,
    Fault,
    Backup,
    Order,
    Alone,
    Clients,
    Format,
    Seglets,
    Steps,
}

impl Shape {
    /// The text that says which words the command has.
    fn words(self) -> &'static str
        ensures { result.now ≡ shape_text self }
    {
        match self {
            Shape::Key => " has a table and a key",
            Shape::Value => " has a table, a key and a value",
            Shape::Version => " has a table, a key, a version and a value",
            Shape::Table => " has the number of a table",
            Shape::Segment => " has the number of a segment",
            Shape::Segments => " has the numbers of one segment or more",
            Shape::Ops => " has a number of ops",
            Shape::Fault => " has the number of a take, counted from 1, and taken or lost",
            Shape::Backup => " has the number of a backup",
            Shape::Order => {
                " has nothing behind it, or reverse, or threads and a number of workers (1 to 64)"
            }
            Shape::Alone => " has nothing behind it",
            Shape::Clients => {
                " has a number of clients (1 to 63), of rounds (1 to 1000000) and of passes"
            }
            Shape::Format => " has the word 2",
            Shape::Seglets => " has a number of seglets (1 to 4294967296)",
            Shape::Steps => " has a number of steps (1 to 65536)",
        }
    }
}

impl Reason {
    /// The text of the reason, in two parts, and the number behind them, if there is one.
    pub fn words(&self) -> (&'static str, &'static str, Option<u64>)
        ensures { reason_text self.now ≡ result.0.now ++ result.1.now ++ number_text result.2 }
    {
        let text = match self {
            Reason::CarriageReturn => "a carriage return ends the line",
            Reason::Byte(byte) => {
                return (
                    "a word has visible characters, and not the byte ",
                    "",
                    Some(u64::from(*byte)),
                );
            }
            Reason::Spaces => "one space stands between two words, and none at an end",
            Reason::Capital => "the name of a command has lower case letters",
            Reason::Unknown => "the first word is no command",
            Reason::Shape(name, shape) => return (name, shape.words(), None),
            Reason::Number => "a number has digits, no sign and no leading zero, and is below 2^64",
            Reason::LongKey => "a key has at most 1024 bytes",
            Reason::Uncounted => {
                "with --raw a key or a value is its length, a colon and so many bytes"
            }
            Reason::TooLong => "a line has at most 4096 bytes",
            Reason::TooMany => "a script has at most 2^64 - 2 lines",
            Reason::NoLaterMaster => {
                "masters that start later need memory for four segments, and sizes that --live fits"
            }
            Reason::NoBackup(count) => return (
                "backups count from 0, and there are ",
                "",
                Some(*count),
            ),
        };
        (text, "", None)
    }
}

impl fmt::Display for Reason {
    ghost output = { λ reason. Some (reason_text reason) };

    fn fmt<W: fmt::Write>(&self, f: &mut fmt::Formatter<W>) -> fmt::Result {
        match self.words() {
            (first, second, Some(number)) => write!(f, "{first}{second}{number}"),
            (first, second, None) => write!(f, "{first}{second}"),
        }
    }
}
