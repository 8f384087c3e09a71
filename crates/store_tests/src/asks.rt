//! What the tests ask of a store, and what they are answered.

use crate::guests::come_in;
use crate::marks::is_free;
use crate::slow::Watch;
use crate::turns::{faults, is_tended, limits, looks, meets, rolls, runs_short, turns};
use entry::{Key, MAX_VALUE_LEN, Value};
use replica::{Bench, Fleet};
use std::alloc::Global;
use std::sync::Wait;
use std::thread;
use std::thread::Threads;
use store_clients::locked_log::{CallFault, Naming, Receipt, Seat, Store};
use store_clients::master::{Command, If, Refusal, Reply};

/// A command of the tests. A put has a key and a value.
pub enum Do {
    Get(&'static [u8]),
    Put(&'static [u8], &'static [u8], If),
    Delete(&'static [u8]),
}

/// A reply and its version.
pub type Told = (&'static str, u64);

/// What a seat asks, and what it is answered.
pub enum Act {
    /// A call, with the place of its receipt and the reply.
    Calls(Do, u64, Told),
    /// The same, and for how many takes the fleet is asked meanwhile.
    Takes(Do, u64, Told, u64),
    /// A call that has no answer: the place if its record is there, and the refusal.
    Fails(Do, Option<u64>, Refusal),
    /// A call when no cell may be left: the refusal that comes first, or `None` for CellsSpent.
    FindsNoCell(Do, Option<Refusal>),
    /// So many calls, whose receipts are dropped.
    Repeats(Do, u64),
    /// So many records are forgotten after a forgetting.
    Forgets(u64),
    /// So many calls, and whether a cleaner that tends the log behind each makes a step.
    Tends(Do, u64, bool),
    /// A call that makes so many takes at least, while another thread gets in between two of them.
    LetsIn(Do, u64, Told, u64),
    /// It settles the record at this place: the reply, or `None` for NotYours.
    Settles(u64, Option<Told>),
    /// It settles the record at this place, which is left without an answer again, for this refusal.
    Stays(u64, Refusal),
    /// The next turn of a cleaner: what it did, and its two numbers.
    Turns((&'static str, u64, u64)),
    /// The fleet takes so many more ops.
    Limits(u64),
    /// The next take is refused for memory.
    RunsShort,
    /// The take of this number from now ends in a fault, and wasn't taken.
    Faults(u64),
    /// So many rolls.
    Rolls(u64),
    /// How many seglets are used. Nobody is asked for anything by it.
    Looks(u64),
    /// It is shown the receipt of this number, from 0.
    Meets(usize),
    /// The receipt of this number agrees with a second one of its place.
    Agrees(usize),
    /// It raises the mark by the receipt of this number.
    Raises(usize),
    /// It reads the mark.
    Reads(u64),
    /// The last seat raises the mark by the receipt of this number in one thread, and seat 0 reads it in another, while
    /// a third holds the lock.
    Overtakes(usize),
    /// The last place that it was acknowledged or met, plus 1, and how many records its calls made.
    Counts(u64, u64),
}

pub fn command_of(alloc: Global, what: &Do) -> Option<Command> {
    match what {
        Do::Get(key) => Some(Command::Get(Key::new(alloc, 1, key).ok()?)),
        Do::Put(key, value, when) => put(alloc, key, value, *when),
        Do::Delete(key) => Some(Command::Delete(Key::new(alloc, 1, key).ok()?)),
    }
}

fn put(alloc: Global, key: &[u8], value: &[u8], when: If) -> Option<Command> {
    if value.len() > MAX_VALUE_LEN {
        return None;
    }
    let key = Key::new(alloc, 1, key).ok()?;
    Some(Command::Put(key, Value::from_slice(alloc, value).ok()?, when))
}

fn told(reply: &Reply) -> Told {
    match reply {
        Reply::None => ("none", 0),
        Reply::Found(version, _) => ("found", version.get()),
        Reply::Ok(version) => ("ok", version.get()),
        Reply::Mismatch(Some(version)) => ("mismatch", version.get()),
        Reply::Mismatch(None) => ("mismatch", 0),
    }
}

/// Makes the call and keeps its receipt. Whether those are its place and reply.
fn calls<F: Fleet, B: Naming, R: Wait>(
    rt: &R,
    store: &Store<F, B>,
    seat: &mut Seat<B>,
    receipts: &mut Vec<Receipt<B>>,
    command: Command,
    want: (u64, Told),
) -> bool {
    match store.call(rt, seat, command) {
        Ok((reply, receipt)) => {
            let is_wanted = (receipt.place(), told(&reply)) == want;
            receipts.push(receipt).is_ok() && is_wanted
        }
        Err(_) => false,
    }
}

/// Makes the call, while another thread comes for the lock. Whether it is answered as wanted.
fn lets_in<F: Bench + Send, B: Naming + Send + Sync, R: Threads + Wait + Sync>(
    rt: &R,
    alloc: Global,
    store: &Store<F, B>,
    watch: &Watch,
    seat: &mut Seat<B>,
    receipts: &mut Vec<Receipt<B>>,
    what: &Do,
    want: (u64, Told),
) -> bool {
    watch.expect_guest();
    thread::scope(thread::scope_env(), rt, |scope| -> bool {
        let comes = scope.spawn(move || come_in(rt, store, watch));
        let is_answered = asks(rt, alloc, store, seat, receipts, what, want);
        comes.is_ok() && is_answered
    })
}

/// Makes the call of this command. Whether it is answered as wanted.
fn asks<F: Fleet, B: Naming, R: Wait>(
    rt: &R,
    alloc: Global,
    store: &Store<F, B>,
    seat: &mut Seat<B>,
    receipts: &mut Vec<Receipt<B>>,
    what: &Do,
    want: (u64, Told),
) -> bool {
    match command_of(alloc, what) {
        Some(command) => calls(rt, store, seat, receipts, command, want),
        None => false,
    }
}

/// Makes the call of this command. Whether it is answered as wanted, and the fleet is asked for so many takes
/// meanwhile.
fn takes<F: Fleet, B: Naming, R: Wait>(
    rt: &R,
    alloc: Global,
    store: &Store<F, B>,
    watch: &Watch,
    seat: &mut Seat<B>,
    receipts: &mut Vec<Receipt<B>>,
    what: &Do,
    want: (u64, Told),
    takes: u64,
) -> bool {
    let before = watch.takes();
    let is_answered = asks(rt, alloc, store, seat, receipts, what, want);
    is_answered && watch.takes() == before.saturating_add(takes)
}

/// Makes the call. Whether the record is there as wanted, without an answer, for this refusal.
fn fails<F: Fleet, B: Naming, R: Wait>(
    rt: &R,
    store: &Store<F, B>,
    seat: &mut Seat<B>,
    command: Command,
    want: Option<u64>,
    why: Refusal,
) -> bool {
    let answer = store.call(rt, seat, command);
    is_left(&answer, want, why)
}

/// Makes the call. Whether it is refused for this reason, or for want of a cell if there is none.
fn finds_no_cell<F: Fleet, B: Naming, R: Wait>(
    rt: &R,
    store: &Store<F, B>,
    seat: &mut Seat<B>,
    command: Command,
    why: Option<Refusal>,
) -> bool {
    match &store.call(rt, seat, command) {
        Err(CallFault::Refused(refusal)) => why == Some(*refusal),
        Err(CallFault::CellsSpent) => why.is_none(),
        _ => false,
    }
}

/// Makes the call so many times. Whether each was answered.
fn repeats<F: Fleet, B: Naming, R: Wait>(
    rt: &R,
    alloc: Global,
    store: &Store<F, B>,
    seat: &mut Seat<B>,
    what: &Do,
    times: u64,
) -> bool {
    for _ in 0..times {
        if !is_made(rt, store, seat, command_of(alloc, what)) {
            return false;
        }
    }
    true
}

pub fn is_made<F: Fleet, B: Naming, R: Wait>(
    rt: &R,
    store: &Store<F, B>,
    seat: &mut Seat<B>,
    command: Option<Command>,
) -> bool {
    match command {
        Some(command) => store.call(rt, seat, command).is_ok(),
        None => false,
    }
}

fn is_left<B: Naming>(
    answer: &Result<(Reply, Receipt<B>), CallFault>,
    want: Option<u64>,
    why: Refusal,
) -> bool {
    match answer {
        Err(CallFault::Refused(refusal)) => want.is_none() && *refusal == why,
        Err(CallFault::Unsure(place, refusal)) => want == Some(*place) && *refusal == why,
        _ => false,
    }
}

/// Settles the record and keeps its receipt. Whether that is its reply, or the answer is NotYours if none is wanted.
fn settles<F: Fleet, B: Naming, R: Wait>(
    rt: &R,
    store: &Store<F, B>,
    seat: &mut Seat<B>,
    receipts: &mut Vec<Receipt<B>>,
    place: u64,
    want: Option<Told>,
) -> bool {
    match store.settle(rt, seat, place) {
        Ok((reply, receipt)) => {
            let is_wanted = want == Some(told(&reply)) && receipt.place() == place;
            receipts.push(receipt).is_ok() && is_wanted
        }
        Err(CallFault::NotYours) => want.is_none(),
        Err(_) => false,
    }
}

/// Settles the record. Whether it is left without an answer for this refusal.
fn stays<F: Fleet, B: Naming, R: Wait>(
    rt: &R,
    store: &Store<F, B>,
    seat: &mut Seat<B>,
    place: u64,
    why: Refusal,
) -> bool {
    let answer = store.settle(rt, seat, place);
    is_left(&answer, Some(place), why)
}

fn agrees<B: Naming>(receipts: &mut Vec<Receipt<B>>, at: usize) -> bool {
    match receipts.get_mut(at) {
        Some(receipt) => {
            let place = receipt.place();
            let mut second = receipt.again();
            receipt.agree(&mut second);
            receipt.place() == place && second.place() == place
        }
        None => false,
    }
}

fn raises<F: Fleet, B: Naming>(
    store: &Store<F, B>,
    seat: &mut Seat<B>,
    receipts: &[Receipt<B>],
    at: usize,
) -> bool {
    match receipts.get(at) {
        Some(receipt) => {
            store.raise(seat, receipt);
            true
        }
        None => false,
    }
}

/// Does what a seat asks. Whether that is the answer.
fn is_told<F: Bench + Send, B: Naming + Send + Sync, R: Threads + Wait + Sync>(
    rt: &R,
    alloc: Global,
    store: &Store<F, B>,
    watch: &Watch,
    seat: &mut Seat<B>,
    receipts: &mut Vec<Receipt<B>>,
    act: &Act,
) -> bool {
    match act {
        Act::Calls(what, place, reply) => {
            asks(rt, alloc, store, seat, receipts, what, (*place, *reply))
        }
        Act::Takes(what, place, reply, count) => {
            let want = (*place, *reply);
            takes(rt, alloc, store, watch, seat, receipts, what, want, *count)
        }
        Act::LetsIn(what, place, reply, takes) => {
            let want = (*place, *reply);
            lets_in(rt, alloc, store, watch, seat, receipts, what, want) && watch.has_let_in(*takes)
        }
        Act::Fails(what, place, why) => match command_of(alloc, what) {
            Some(command) => fails(rt, store, seat, command, *place, *why),
            None => false,
        },
        Act::FindsNoCell(what, why) => match command_of(alloc, what) {
            Some(command) => finds_no_cell(rt, store, seat, command, *why),
            None => false,
        },
        Act::Tends(what, times, works) => {
            is_tended(rt, alloc, store, seat, what, *times, *works)
        }
        Act::Repeats(what, times) => repeats(rt, alloc, store, seat, what, *times),
        Act::Settles(place, reply) => settles(rt, store, seat, receipts, *place, *reply),
        Act::Stays(place, why) => stays(rt, store, seat, *place, *why),
        Act::Meets(at) => meets(rt, store, seat, receipts.as_slice(), *at),
        Act::Raises(at) => raises(store, seat, receipts.as_slice(), *at),
        Act::Reads(place) => store.mark(seat) == *place,
        Act::Counts(first, count) => seat.first() == *first && seat.count() == *count,
        _ => false,
    }
}

/// Does what is asked. Whether that is the answer.
pub fn is_answered<F: Bench + Send, B: Naming + Send + Sync, R: Threads + Wait + Sync>(
    rt: &R,
    alloc: Global,
    store: &Store<F, B>,
    watch: &Watch,
    seats: &mut Vec<Seat<B>>,
    receipts: &mut Vec<Receipt<B>>,
    ask: &(usize, Act),
) -> bool {
    match &ask.1 {
        Act::Turns(want) => turns(rt, store, *want),
        Act::Limits(takes) => limits(rt, store, *takes),
        Act::RunsShort => runs_short(watch),
        Act::Faults(number) => faults(rt, store, *number),
        Act::Rolls(times) => rolls(rt, store, *times),
        Act::Forgets(count) => store.forget(rt) == *count,
        Act::Looks(used) => looks(rt, store, watch, *used),
        Act::Agrees(at) => agrees(receipts, *at),
        Act::Overtakes(at) => is_free(rt, store, seats, receipts, *at, watch),
        act => match seats.get_mut(ask.0) {
            Some(seat) => is_told(rt, alloc, store, watch, seat, receipts, act),
            None => false,
        },
    }
}
