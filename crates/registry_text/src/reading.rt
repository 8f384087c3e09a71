//! Reading the texts of a registry.

ghost use Rattle.std.specs.Prelude.{◌≡◌, ◌+◌, ◌*◌, ◌≤◌, length, IfOk, true};
ghost use Rattle.std.specs.Option.{option_map};
ghost use Rattle.entry.specs.Format.{ids_at, number_at};
ghost use Rattle.registry_text.specs.RecordText.{fleet_in, fleet_of, is_fleet, record_behind, record_in, shown_fleet};

use crate::writing::REGISTRY;
use crate::{Fleet, Record};
use byteorder::{BigEndian, ByteOrder};
use entry::NoMemory;
use std::alloc::Global;
use take_journal::VERSION;

/// The number in the eight bytes from a place on.
#[tactic(auto, unfolding(entry::specs::Format::number_at))]
fn number_at(bytes: &[u8], at: usize) -> u64
    requires { at + 8 ≤ length bytes.now }
    ensures { result ≡ number_at 8 at bytes.now }
{
    BigEndian::read_u64(&bytes[at..])
}

/// How many options these bytes name.
#[tactic(auto, unfolding(entry::specs::Format::number_at))]
fn count_in(bytes: &[u8]) -> u16
    requires { 10 ≤ length bytes.now }
    ensures { result ≡ number_at 2 8 bytes.now }
{
    BigEndian::read_u16(&bytes[8..])
}

/// Whether these bytes are an id, a count, and so many options.
fn is_fleet(rest: &[u8]) -> bool
    ensures { result ≡ is_fleet rest.now }
{
    rest.len() >= 10 && rest.len() == 10 + 8 * count_in(rest) as usize
}

/// So many options, which stand from the tenth byte on.
fn options_in(alloc: Global, rest: &[u8], count: usize) -> Result<Vec<u64>, NoMemory>
    requires { 10 + 8 * count ≤ length rest.now }
    ensures { IfOk result (λ options. options.items ≡ ids_at count 10 rest.now) }
{
    let mut options = Vec::new(alloc);
    for i in 0..count {
        options.push(number_at(rest, 10 + 8 * i))?;
    }
    Ok(options)
}

/// The store that these bytes name.
fn fleet_of(alloc: Global, rest: &[u8]) -> Result<Fleet, NoMemory>
    requires { is_fleet rest.now ≡ true }
    ensures { IfOk result (λ fleet. shown_fleet fleet ≡ fleet_of rest.now) }
{
    let options = options_in(alloc, rest, count_in(rest) as usize)?;
    Ok(Fleet {
        id: number_at(rest, 0),
        options,
    })
}

/// Reads the store that a first text names. The answer is `None` if the text names none.
pub fn read_fleet(alloc: Global, text: &[u8]) -> Result<Option<Fleet>, NoMemory>
    ensures { IfOk result (λ fleet. option_map shown_fleet fleet ≡ fleet_in text.now) }
{
    match text {
        [VERSION, REGISTRY, rest @ ..] if is_fleet(rest) => match fleet_of(alloc, rest) {
            Ok(fleet) => Ok(Some(fleet)),
            Err(fault) => Err(fault),
        },
        _ => Ok(None),
    }
}

/// The record of a kind, and of what stands behind it.
fn record_behind(kind: u8, rest: &[u8]) -> Option<Record>
    ensures { result ≡ record_behind kind rest.now }
{
    match kind {
        2 if rest.len() == 24 => Some(Record::Journal {
            backup: number_at(rest, 0),
            id: number_at(rest, 8),
            count: number_at(rest, 16),
        }),
        3 if rest.len() == 16 => Some(Record::Raise {
            master: number_at(rest, 0),
            head: number_at(rest, 8),
        }),
        4 if rest.len() == 8 => Some(Record::Master(number_at(rest, 0))),
        5 if rest.len() == 8 => Some(Record::Format(number_at(rest, 0))),
        _ => None,
    }
}

/// Reads the record of a text. The answer is `None` if the text is no record's.
pub fn read_record(text: &[u8]) -> Option<Record>
    ensures { result ≡ record_in text.now }
{
    match text {
        [kind, rest @ ..] => record_behind(*kind, rest),
        [] => None,
    }
}
