//! What a store shows.

use backup::MemoryFleet;
use command_line::Options;
use entry::{NoMemory, Row, Size};
use lines::Line;
use locked_log::{Naming, Store};
use next_master::answers::{Answer, Limits};
use next_master::configuration;
use next_master::master::{Look, Refusal, Shown};
use std::alloc::Global;
use std::sync::Wait;
use tablet_will::{Will, WillFault, make_will};

/// The answer to a line that shows something of the store and changes nothing. None if the line is another one.
pub fn look_line<B: Naming, R: Wait>(
    rt: &R,
    store: &Store<MemoryFleet, B>,
    line: Line<'_>,
) -> Option<Answer> {
    let (look, segment) = look_of(line)?;
    Some(match store.look(rt, look) {
        Ok(shown) => answer_of(shown, segment),
        Err(NoMemory) => Answer::Refused(Refusal::NoMemory),
    })
}

/// What a line wants to see, and of which segment.
fn look_of(line: Line<'_>) -> Option<(Look, u64)> {
    match line {
        Line::Log => Some((Look::Digest, 0)),
        Line::Room => Some((Look::Room, 0)),
        Line::Hex { segment } => Some((Look::Image(segment), segment)),
        Line::Holdings => Some((Look::Holdings, 0)),
        _ => None,
    }
}

/// The answer for what is shown.
fn answer_of(shown: Shown, segment: u64) -> Answer {
    match shown {
        Shown::Digest(ids) => Answer::Log(ids),
        Shown::Room(used, free) => Answer::Room(used, free),
        Shown::Image(Some(bytes)) => Answer::Hex(bytes),
        Shown::Image(None) => Answer::NotInLog(segment),
        Shown::Holdings(labels) => Answer::Holdings(labels),
        Shown::Sizes(_) => Answer::Silent,
    }
}

/// Makes the will of the live objects in place of `will`. If the line is refused, `will` stays.
pub fn renew<B: Naming, R: Wait>(
    rt: &R,
    alloc: Global,
    store: &Store<MemoryFleet, B>,
    options: &Options,
    will: &mut Will,
) -> Answer {
    let limits = Limits {
        bytes: options.bytes,
        objects: options.objects,
    };
    let Some(sizes) = sizes(rt, store) else {
        return Answer::Refused(Refusal::NoMemory);
    };
    match will_of(alloc, options, &sizes) {
        Ok(made) => replace(alloc, will, made, limits),
        Err(WillFault::NoMemory) => Answer::Refused(Refusal::NoMemory),
        Err(_) => Answer::BadLimits(limits),
    }
}

/// The sizes of the live objects.
fn sizes<B: Naming, R: Wait>(rt: &R, store: &Store<MemoryFleet, B>) -> Option<Row<Size>> {
    match store.look(rt, Look::Sizes) {
        Ok(shown) => sizes_in(shown),
        Err(NoMemory) => None,
    }
}

fn sizes_in(shown: Shown) -> Option<Row<Size>> {
    match shown {
        Shown::Sizes(sizes) => Some(sizes),
        _ => None,
    }
}

/// The will of objects of these sizes.
fn will_of(alloc: Global, options: &Options, sizes: &Row<Size>) -> Result<Will, WillFault> {
    let config = configuration(alloc, options, 1)?;
    make_will(
        alloc,
        config.tablets.as_slice(),
        sizes.as_slice(),
        options.bytes,
        options.objects,
    )
}

/// Puts a new will in place of `will`, and answers its parts.
fn replace(alloc: Global, will: &mut Will, made: Will, limits: Limits) -> Answer {
    match Vec::from_slice(alloc, made.parts()) {
        Ok(parts) => {
            *will = made;
            Answer::Will(Row::new(parts), limits)
        }
        Err(_) => Answer::Refused(Refusal::NoMemory),
    }
}
