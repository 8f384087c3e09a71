//! Appends on a device that stops at one of its calls, and what the next start finds.

ghost use Rattle.std.specs.Prelude.{IfSome};
ghost use Rattle.take_journal.specs.Journal.{IsSound};
ghost use Rattle.take_journal.specs.Memory.{memory_bytes, memory_has_failed, memory_leaves};

use std::alloc::Global;
use take_journal::{Journal, MemoryDevice, Tear};

/// The text with this number. The first begins with the version.
fn text_of(number: usize) -> &'static [u8] {
    match number % 5 {
        0 => b"\x01first",
        1 => b"",
        2 => b"a",
        3 => b"\x00\x00\x00\x00\x01",
        _ => b"take take take",
    }
}

/// A device that never stops.
const WHOLE: Tear = Tear {
    kept: 0,
    junk: None,
};

/// A journal over a file with these bytes, opened if the device doesn't stop before.
fn opened(alloc: Global, disk: &[u8], stops_at: u64, tear: Tear) -> Option<Journal<MemoryDevice>>
    ensures { IfSome result (λ journal. IsSound memory_bytes memory_leaves memory_has_failed journal) }
{
    match MemoryDevice::new(alloc, disk, stops_at, tear) {
        Ok(device) => {
            let mut journal = Journal::new(device);
            let _texts = journal.open(alloc, disk).is_ok();
            Some(journal)
        }
        Err(_) => None,
    }
}

/// Appends the texts from one number on, up to another, until one is refused. How many were acknowledged.
fn append_each(alloc: Global, journal: &mut Journal<MemoryDevice>, from: usize, to: usize) -> usize
    requires { IsSound memory_bytes memory_leaves memory_has_failed journal.old }
{
    for number in from..to {
        let text = text_of(number);
        if text.len() > 100 || journal.append(alloc, text).is_err() {
            return number;
        }
    }
    to
}

/// How many texts a file has, if they are the first ones.
fn texts_in(alloc: Global, disk: &[u8]) -> Option<usize> {
    match MemoryDevice::new(alloc, disk, u64::MAX, WHOLE) {
        Ok(device) => match Journal::new(device).open(alloc, disk) {
            Ok(texts) => {
                for i in 0..texts.len() {
                    if texts[i].as_slice() != text_of(i) {
                        return None;
                    }
                }
                Some(texts.len())
            }
            Err(_) => None,
        },
        Err(_) => None,
    }
}

/// Whether what a stopped journal left has the acknowledged texts, and maybe the next one. The journal that is opened
/// again takes further texts.
fn goes_on(alloc: Global, disk: &[u8], acknowledged: usize) -> bool {
    match texts_in(alloc, disk) {
        Some(found) => {
            (found == acknowledged || found == acknowledged.saturating_add(1))
                && takes_more(alloc, disk, found)
        }
        None => false,
    }
}

fn takes_more(alloc: Global, disk: &[u8], found: usize) -> bool {
    match opened(alloc, disk, u64::MAX, WHOLE) {
        Some(mut journal) => {
            let more = found.saturating_add(2);
            append_each(alloc, &mut journal, found, more) == more
                && texts_in(alloc, journal.device().disk()) == Some(more)
        }
        None => false,
    }
}

/// Whether it goes on after a stop.
fn survives(alloc: Global, count: usize, stops_at: u64, tear: Tear) -> bool {
    match opened(alloc, &[], stops_at, tear) {
        Some(mut journal) => {
            let acknowledged = append_each(alloc, &mut journal, 0, count);
            goes_on(alloc, journal.device().disk(), acknowledged)
        }
        None => false,
    }
}

/// Whether a file is rewritten whole or not at all, on a device that stops: its texts go to an empty file at once.
fn is_rewritten(alloc: Global, file: &[u8], stops_at: u64, tear: Tear) -> bool {
    match MemoryDevice::new(alloc, file, u64::MAX, WHOLE) {
        Ok(device) => match Journal::new(device).open(alloc, file) {
            Ok(texts) => match opened(alloc, &[], stops_at, tear) {
                Some(mut fresh) => {
                    let is_done = fresh.append_all(alloc, texts.as_slice()).is_ok();
                    let found = texts_in(alloc, fresh.device().disk());
                    found == Some(texts.len()) || (!is_done && found == Some(0))
                }
                None => false,
            },
            Err(_) => false,
        },
        Err(_) => false,
    }
}

/// The first stop after which it doesn't.
fn first_loss(alloc: Global, count: usize, tear: Tear) -> Option<u64> {
    let calls = (count as u64).saturating_mul(4).saturating_add(5);
    for stops_at in 1..calls {
        if !survives(alloc, count, stops_at, tear) {
            return Some(stops_at);
        }
    }
    None
}

/// What is in place of the bytes of a write that didn't arrive.
const JUNK: &[Option<u8>] = &[None, Some(0), Some(1), Some(2), Some(255)];

/// A file with three texts, and an append that was cut short.
const FILE: &[u8] =
    b"\x01\x00\x00\x00\x06\x01first\x01\x00\x00\x00\x00\x01\x00\x00\x00\x01a\x00\x00\x00";

#[test]
fn each_stop_of_a_rewrite(rt: HostRuntime) {
    for junk in JUNK {
        for kept in 0..30 {
            let tear = Tear { kept, junk: *junk };
            for stops_at in 1..10 {
                assert!(rt; is_rewritten(rt.alloc(), FILE, stops_at, tear));
            }
        }
    }
}

#[test]
fn each_stop_of_two_hundred_appends(rt: HostRuntime) {
    for junk in &[None, Some(1)] {
        let tear = Tear {
            kept: 4,
            junk: *junk,
        };
        assert_eq!(rt; first_loss(rt.alloc(), 200, tear), None);
    }
}

#[test]
fn each_byte_of_a_write(rt: HostRuntime) {
    for junk in JUNK {
        for kept in 0..24 {
            let tear = Tear { kept, junk: *junk };
            assert_eq!(rt; first_loss(rt.alloc(), 6, tear), None);
        }
    }
}
