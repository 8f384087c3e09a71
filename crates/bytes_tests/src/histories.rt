//! A history gives back what it packed, in each of its blocks, and forgets its first records by blocks.

ghost use Rattle.std.specs.Prelude.{IfSome};
ghost use Rattle.history.specs.Packing.{HasOneValue};

use entry::{Key, MAX_VALUE_LEN, Value, Version};
use history::{History, len_of};
use std::alloc::Global;
use std::test::Fail;
use versioned_map::{Command, If, Record, Reply};

/// More than two blocks of rows, and than two of text.
const RECORDS: usize = 2_200;

/// A second lot of records ends here.
const TWICE: usize = 4_400;

/// A call of `forget` with a count, and how many records are then forgotten and kept.
#[derive(Clone, Copy)]
struct Cut(usize, usize, usize);

/// All that can be forgotten of both lots.
const LAST: Cut = Cut(TWICE, 4_096, 304);

/// The cuts of a history of `RECORDS` records.
const CUTS: &[Cut] = &[
    Cut(0, 0, 2_200),
    Cut(1_023, 0, 2_200),
    Cut(1_024, 1_024, 1_176),
    Cut(2_047, 1_024, 1_176),
    Cut(2_048, 2_048, 152),
    Cut(RECORDS, 2_048, 152),
    Cut(usize::MAX, 2_048, 152),
];

/// Which record has a value that is longer than a block of text.
const LONG: usize = 1_500;

/// A value for the record of this number.
fn value(alloc: Global, number: usize) -> Option<Value> {
    let len = if number == LONG {
        300_000
    } else {
        number % 400
    };
    let mut bytes = Vec::new(alloc);
    for at in 0..len {
        bytes.push((at % 251) as u8).ok()?;
    }
    if bytes.len() > MAX_VALUE_LEN {
        return None;
    }
    Some(Value::new(bytes))
}

/// The command of the record of this number.
fn command_of(alloc: Global, number: usize) -> Option<Command> {
    let key = Key::new(alloc, number as u64 % 7, &number.to_be_bytes()).ok()?;
    let when = match number % 9 {
        2 => If::Any,
        3 => If::Absent,
        4 => If::Absent,
        5 => If::Version(number as u64),
        6 => If::Version(u64::MAX),
        7 => return Some(Command::Delete(key)),
        8 => return Some(Command::Delete(key)),
        _ => return Some(Command::Get(key)),
    };
    Some(Command::Put(key, value(alloc, number)?, when))
}

/// The record of this number: nine kinds in turn.
fn record_of(alloc: Global, number: usize) -> Option<Record>
    ensures { IfSome result HasOneValue }
{
    let command = command_of(alloc, number)?;
    let some = Version::new(number.max(1) as u64)?;
    let reply = match (number % 9, &command) {
        (0, Command::Get(_)) => Reply::Found(some, value(alloc, number)?),
        (2, _) => Reply::Ok(some),
        (3, _) => Reply::Ok(some),
        (4, _) => Reply::Mismatch(Some(some)),
        (5, _) => Reply::Ok(some),
        (6, _) => Reply::Mismatch(None),
        (7, _) => Reply::Ok(some),
        _ => Reply::None,
    };
    Some(Record {
        seat: number as u64 % 5,
        command,
        reply,
    })
}

/// Whether two conditions are the same.
fn same_condition(one: &If, other: &If) -> bool {
    match (one, other) {
        (If::Any, If::Any) => true,
        (If::Absent, If::Absent) => true,
        (If::Version(a), If::Version(b)) => a == b,
        _ => false,
    }
}

/// Whether two commands are the same.
fn same_command(one: &Command, other: &Command) -> bool {
    match (one, other) {
        (Command::Get(a), Command::Get(b)) => a == b,
        (Command::Put(a, x, p), Command::Put(b, y, q)) => {
            a == b && x.as_slice() == y.as_slice() && same_condition(p, q)
        }
        (Command::Delete(a), Command::Delete(b)) => a == b,
        _ => false,
    }
}

/// Whether two replies are the same.
fn same_reply(one: &Reply, other: &Reply) -> bool {
    match (one, other) {
        (Reply::Found(v, x), Reply::Found(w, y)) => v == w && x.as_slice() == y.as_slice(),
        (Reply::None, Reply::None) => true,
        (Reply::Ok(v), Reply::Ok(w)) => v == w,
        (Reply::Mismatch(v), Reply::Mismatch(w)) => v == w,
        _ => false,
    }
}

/// Whether two records are the same.
fn same_record(one: &Record, other: &Record) -> bool {
    one.seat == other.seat
        && same_command(&one.command, &other.command)
        && same_reply(&one.reply, &other.reply)
}

/// Packs the records of these numbers. Whether it could.
fn fill(alloc: Global, history: &mut History, from: usize, to: usize) -> bool {
    for number in from..to {
        let Some(record) = record_of(alloc, number) else {
            return false;
        };
        if history.reserve(len_of(&record)).is_err() {
            return false;
        }
        history.push_record(&record);
    }
    true
}

/// Whether the history gives back the record of this number as it was.
fn gives_back(alloc: Global, history: &History, number: usize) -> bool {
    let Some(there) = history.get(number) else {
        return false;
    };
    let Ok(own) = there.to_record(alloc) else {
        return false;
    };
    match record_of(alloc, number) {
        Some(record) => same_record(&own, &record),
        None => false,
    }
}

/// Whether the history gives back the records of these numbers as they were.
fn gives_all_back(alloc: Global, history: &History, from: usize, to: usize) -> bool {
    for number in from..to {
        if !gives_back(alloc, history, number) {
            return false;
        }
    }
    true
}

/// Whether the history finds none of its first records.
fn finds_none(history: &History, first: usize) -> bool {
    for number in 0..first {
        if history.get(number).is_some() || history.reply(number).is_some() {
            return false;
        }
    }
    true
}

/// Whether the history has forgotten as much as the cut says, keeps its other records up to `len`, and no more.
fn is_cut(alloc: Global, history: &History, cut: &Cut, len: usize) -> bool {
    history.forgotten() == cut.1
        && history.len() == len
        && history.get(len).is_none()
        && finds_none(history, cut.1)
        && gives_all_back(alloc, history, cut.1, len)
}

/// Whether a history of all records forgets as the cut says, then takes as many records more, and forgets most of them.
fn forgets(alloc: Global, history: &mut History, cut: &Cut) -> bool {
    if !fill(alloc, history, 0, RECORDS) {
        return false;
    }
    history.forget(cut.0);
    if history.kept() != cut.2 || !is_cut(alloc, history, cut, RECORDS) {
        return false;
    }
    if !fill(alloc, history, RECORDS, TWICE) || !is_cut(alloc, history, cut, TWICE) {
        return false;
    }
    history.forget(TWICE);
    is_cut(alloc, history, &LAST, TWICE) && history.kept() == LAST.2
}

#[test]
fn a_history_gives_back_its_records(rt: HostRuntime) -> Result<(), Fail> {
    let mut history = History::new(rt.alloc());
    assert!(rt; history.is_empty());
    assert!(rt; fill(rt.alloc(), &mut history, 0, RECORDS));
    assert!(rt; history.len() == RECORDS);
    assert!(rt; history.get(RECORDS).is_none());
    assert!(rt; gives_all_back(rt.alloc(), &history, 0, RECORDS));
    Ok(())
}

#[test]
fn a_history_forgets_its_first_records(rt: HostRuntime) -> Result<(), Fail> {
    for cut in CUTS {
        let mut history = History::new(rt.alloc());
        let done = forgets(rt.alloc(), &mut history, cut);
        assert!(rt; done, "{}", cut.0);
    }
    Ok(())
}
