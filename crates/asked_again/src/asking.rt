//! Lines of a script, each asked for again until memory is given.

use backup::MemoryFleet;
use lines::{Line, parse_line};
use std::alloc::Global;
use std::sync::Wait;
use store_lines::locked_log::{CallFault, Naming, Seat, Store};
use store_lines::master::{Look, Refusal, Shown, StepAnswer};
use store_lines::{Answer, Phase, command_of, look_line, take_all, turn_line};

/// Runs a line, and answers what it prints.
pub fn ask<B: Naming, R: Wait>(
    rt: &R,
    alloc: Global,
    store: &Store<MemoryFleet, B>,
    seats: &mut Vec<Seat<B>>,
    text: &[u8],
) -> Answer {
    match parse_line(text) {
        Ok(Line::Command(_)) => call(rt, alloc, store, seats, text),
        Ok(Line::Roll) => roll(rt, alloc, store),
        Ok(Line::Clean { .. }) => clean(rt, alloc, store, text),
        _ => take(rt, alloc, store, text),
    }
}

/// Calls with the command of a line.
fn call<B: Naming, R: Wait>(
    rt: &R,
    alloc: Global,
    store: &Store<MemoryFleet, B>,
    seats: &mut Vec<Seat<B>>,
    text: &[u8],
) -> Answer {
    for _ in rt.forever() {
        if let Some(answer) = try_call(rt, alloc, store, seats, text) {
            return answer;
        }
    }
    unreachable!()
}

/// Calls once. None if memory was refused before there was a record.
fn try_call<B: Naming, R: Wait>(
    rt: &R,
    alloc: Global,
    store: &Store<MemoryFleet, B>,
    seats: &mut Vec<Seat<B>>,
    text: &[u8],
) -> Option<Answer> {
    let Ok(Line::Command(line)) = parse_line(text) else {
        return Some(Answer::Silent);
    };
    let Ok(command) = command_of(alloc, line) else {
        return None;
    };
    let Some(seat) = seats.get_mut(0) else {
        return Some(Answer::SeatUnknown);
    };
    match store.call(rt, seat, command) {
        Ok((reply, _)) => Some(Answer::Reply(reply)),
        Err(CallFault::Refused(Refusal::NoMemory)) => None,
        Err(CallFault::Refused(refusal)) => Some(Answer::Refused(refusal)),
        Err(CallFault::Unsure(place, _)) => Some(settle(rt, store, seat, place)),
        Err(CallFault::CellRefused) => Some(Answer::CellRefused),
        Err(_) => Some(Answer::SeatUnknown),
    }
}

/// Goes on with the record at a place whose call was left unsure.
fn settle<B: Naming, R: Wait>(
    rt: &R,
    store: &Store<MemoryFleet, B>,
    seat: &mut Seat<B>,
    place: u64,
) -> Answer {
    for _ in rt.forever() {
        match store.settle(rt, seat, place) {
            Ok((reply, _)) => return Answer::Reply(reply),
            Err(CallFault::Unsure(_, Refusal::NoMemory)) => {}
            Err(CallFault::Unsure(_, refusal)) => return Answer::Refused(refusal),
            Err(CallFault::CellRefused) => return Answer::CellRefused,
            Err(_) => return Answer::SeatUnknown,
        }
    }
    unreachable!()
}

/// Makes the step of a line, or shows what the line asks for.
fn take<B: Naming, R: Wait>(
    rt: &R,
    alloc: Global,
    store: &Store<MemoryFleet, B>,
    text: &[u8],
) -> Answer {
    for _ in rt.forever() {
        if let Some(answer) = try_take(rt, alloc, store, text) {
            return answer;
        }
    }
    unreachable!()
}

/// Does so once. None if memory was refused.
fn try_take<B: Naming, R: Wait>(
    rt: &R,
    alloc: Global,
    store: &Store<MemoryFleet, B>,
    text: &[u8],
) -> Option<Answer> {
    let line = match parse_line(text) {
        Ok(Line::Clean { segments }) => Line::Begin { segments },
        Ok(line) => line,
        Err(_) => return Some(Answer::Silent),
    };
    match turn_line(rt, alloc, store, line) {
        Ok(Some(answer)) => given(answer),
        Ok(None) => match look_line(rt, store, line) {
            Some(answer) => given(answer),
            None => Some(Answer::Silent),
        },
        Err(_) => None,
    }
}

/// The answer, or None if it says that memory was refused.
fn given(answer: Answer) -> Option<Answer> {
    match answer {
        Answer::Refused(Refusal::NoMemory) => None,
        _ => Some(answer),
    }
}

/// Takes turns of one kind until nothing is left to do.
pub fn push<B: Naming, R: Wait>(
    rt: &R,
    store: &Store<MemoryFleet, B>,
    phase: Phase,
) -> Result<(), Refusal> {
    for _ in rt.forever() {
        match take_all(rt, store, phase) {
            Err(Refusal::NoMemory) => {}
            done => return done,
        }
    }
    unreachable!()
}

/// Begins a roll, and pushes until the new head is open. Answers the head.
fn roll<B: Naming, R: Wait>(rt: &R, alloc: Global, store: &Store<MemoryFleet, B>) -> Answer {
    match take(rt, alloc, store, b"beginroll") {
        Answer::Step(StepAnswer::Rolling(_)) => match push(rt, store, Phase::Pushes) {
            Ok(()) => head(rt, store),
            Err(refusal) => Answer::Refused(refusal),
        },
        answer => answer,
    }
}

/// The id of the head.
fn head<B: Naming, R: Wait>(rt: &R, store: &Store<MemoryFleet, B>) -> Answer {
    for _ in rt.forever() {
        if let Ok(Shown::Digest(ids)) = store.look(rt, Look::Digest) {
            return match ids.as_slice().last() {
                Some(head) => Answer::Head(*head),
                None => Answer::Silent,
            };
        }
    }
    unreachable!()
}

/// Cleans the segments of a line, from the begin of a pass to the last free.
fn clean<B: Naming, R: Wait>(
    rt: &R,
    alloc: Global,
    store: &Store<MemoryFleet, B>,
    text: &[u8],
) -> Answer {
    match take(rt, alloc, store, text) {
        Answer::Step(StepAnswer::Begun(survivors)) => match finish(rt, alloc, store) {
            Answer::Head(head) => Answer::Cleaned(survivors, head),
            answer => answer,
        },
        answer => answer,
    }
}

/// Makes all of a pass that has begun. Answers the head that it ends with.
fn finish<B: Naming, R: Wait>(rt: &R, alloc: Global, store: &Store<MemoryFleet, B>) -> Answer {
    for phase in [Phase::Copies, Phase::Seals, Phase::Pushes] {
        if let Err(refusal) = push(rt, store, phase) {
            return Answer::Refused(refusal);
        }
    }
    let head = roll(rt, alloc, store);
    match push(rt, store, Phase::Frees) {
        Ok(()) => head,
        Err(refusal) => Answer::Refused(refusal),
    }
}
