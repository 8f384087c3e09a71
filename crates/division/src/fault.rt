//! Why a segment is not divided.

ghost use Rattle.std.specs.Prelude.{Some};
ghost use Rattle.division.specs.Texts.{divide_fault_text};

use entry::KeyRef;
use std::error::Error;
use std::fmt;

/// Why a segment is not divided. The numbers are fixed.
#[derive(Drop)]
pub enum DivideFault<'a> {
    /// 1: the key of an object or a tombstone is in no partition. The key is borrowed from the segment's bytes.
    Stray(KeyRef<'a>),
    /// 2: memory ran out, and each key of the segment is in a partition.
    NoMemory,
}

impl<'a> Error for DivideFault<'a> {}

impl<'a> fmt::Display for DivideFault<'a> {
    ghost output = { λ fault. Some (divide_fault_text fault) };

    fn fmt<W: fmt::Write>(&self, f: &mut fmt::Formatter<W>) -> fmt::Result {
        match self {
            DivideFault::Stray(_) => write!(f, "Stray"),
            DivideFault::NoMemory => write!(f, "NoMemory"),
        }
    }
}

impl<'a> fmt::Debug for DivideFault<'a> {
    fn fmt<W: fmt::Write>(&self, f: &mut fmt::Formatter<W>) -> fmt::Result {
        write!(f, "{self}")
    }
}
