//! Writing the texts of a registry.

ghost use Rattle.std.specs.Prelude.{◌≡◌, ◌<◌, ◌^◌, ◌++◌, ◌∷◌, OnOk};
ghost use Rattle.entry.specs.Format.{number_bytes};
ghost use Rattle.registry_text.specs.RecordText.{FitsFleet, FitsRecord, fleet_text, record_text};

use crate::Record;
use byteorder::{BigEndian, ByteOrder};
use entry::NoMemory;
use std::alloc::AllocError;
use take_journal::VERSION;

/// The second byte of a registry's file.
pub(crate) const REGISTRY: u8 = b'R';

/// The most options that a store has.
const MAX_OPTIONS: usize = (1 << 16) - 1;

/// What stands before the options: the version, the byte of a registry, the id, and how many options there are.
#[tactic(auto, unfolding(entry::specs::Format::number_bytes))]
fn front(id: u64, count: u16) -> [u8; 12]
    ensures text { result ≡ 1 ∷ 82 ∷ number_bytes 8 id ++ number_bytes 2 count }
    ensures fits { id < 2 ^ 64 }
{
    let mut bytes = [VERSION; 12];
    bytes[1] = REGISTRY;
    BigEndian::write_u64(&mut bytes[2..], id);
    BigEndian::write_u16(&mut bytes[10..], count);
    bytes
}

/// The eight bytes of a number.
#[tactic(auto, unfolding(entry::specs::Format::number_bytes))]
fn spelled(number: u64) -> [u8; 8]
    ensures { result ≡ number_bytes 8 number }
{
    let mut bytes = [0; 8];
    BigEndian::write_u64(&mut bytes, number);
    bytes
}

/// Appends the text that names a store: its id and its options, at most 65,535 numbers of 64 bits. With more of them
/// the answer is `NoMemory`. After `NoMemory` a front of the text may have been appended.
pub fn write_fleet(out: &mut Vec<u8>, id: u64, options: &[u64]) -> Result<(), NoMemory>
    ensures text { OnOk result (out.new.items ≡ out.old.items
        ++ fleet_text (record { id = id; options = options.now })) }
    ensures fits { OnOk result (FitsFleet (record { id = id; options = options.now })) }
{
    if options.len() > MAX_OPTIONS {
        return Err(AllocError);
    }
    out.extend_from_slice(&front(id, options.len() as u16))?;
    for option in options {
        out.extend_from_slice(&spelled(*option))?;
    }
    Ok(())
}

/// The text of a kind with one number.
#[tactic(auto, unfolding(entry::specs::Format::number_bytes))]
fn one(kind: u8, number: u64) -> [u8; 9]
    ensures text { result ≡ kind ∷ number_bytes 8 number }
    ensures fits { number < 2 ^ 64 }
{
    let mut bytes = [kind; 9];
    BigEndian::write_u64(&mut bytes[1..], number);
    bytes
}

/// The text of a kind with two numbers.
#[tactic(auto, unfolding(entry::specs::Format::number_bytes))]
fn two(kind: u8, first: u64, second: u64) -> [u8; 17]
    ensures text { result ≡ kind ∷ number_bytes 8 first ++ number_bytes 8 second }
    ensures first { first < 2 ^ 64 }
    ensures second { second < 2 ^ 64 }
{
    let mut bytes = [kind; 17];
    BigEndian::write_u64(&mut bytes[1..], first);
    BigEndian::write_u64(&mut bytes[9..], second);
    bytes
}

/// The text of a kind with three numbers.
#[tactic(auto, unfolding(entry::specs::Format::number_bytes))]
fn three(kind: u8, first: u64, second: u64, third: u64) -> [u8; 25]
    ensures text { result ≡ kind ∷ number_bytes 8 first ++ number_bytes 8 second ++ number_bytes 8 third }
    ensures first { first < 2 ^ 64 }
    ensures second { second < 2 ^ 64 }
    ensures third { third < 2 ^ 64 }
{
    let mut bytes = [kind; 25];
    BigEndian::write_u64(&mut bytes[1..], first);
    BigEndian::write_u64(&mut bytes[9..], second);
    BigEndian::write_u64(&mut bytes[17..], third);
    bytes
}

/// Appends the text of a record to `out`. After `NoMemory` nothing was appended.
pub fn write_record(out: &mut Vec<u8>, record: &Record) -> Result<(), NoMemory>
    ensures text { OnOk result (out.new.items ≡ out.old.items ++ record_text record.now) }
    ensures fits { OnOk result (FitsRecord record.now) }
{
    match *record {
        Record::Journal { backup, id, count } => out.extend_from_slice(&three(
            2, backup, id, count,
        )),
        Record::Raise { master, head } => out.extend_from_slice(&two(3, master, head)),
        Record::Master(number) => out.extend_from_slice(&one(4, number)),
        Record::Format(number) => out.extend_from_slice(&one(5, number)),
    }
}
