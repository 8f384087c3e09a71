//! What a master has counted of its segments, beside a count anew.

use crate::commands::{Ask, OVERWRITES, TURNS, serve};
use crate::masters::{config_of, master_of};
use backup::MemoryFleet;
use std::alloc::Global;
use tending::driving::master::Master;
use tending::{Notes, Policy, tend};

/// Whether a segment is counted, and a count anew gives the same.
fn is_counted(master: &mut Master<MemoryFleet>, id: u64) -> bool {
    let Some(was) = master.tally(id) else {
        return false;
    };
    master.recount(id);
    let Some(now) = master.tally(id) else {
        return false;
    };
    let has_all = match master.kept_bytes(id) {
        Some(kept) => kept == now.live as usize + now.stones as usize,
        None => false,
    };
    let is_same = was.live == now.live && now.stones <= was.stones;
    has_all && is_same && (!was.is_fresh || was.stones == now.stones)
}

/// Whether all closed segments of the log are counted so.
fn are_counted(master: &mut Master<MemoryFleet>) -> bool {
    let head = master.head();
    let Ok(ids) = master.digest() else {
        return false;
    };
    for id in ids.as_slice() {
        if *id != head && !is_counted(master, *id) {
            return false;
        }
    }
    true
}

/// Whether all segments of a new master are counted so behind every seventh of these commands, between which a cleaner
/// works.
fn stay_counted(alloc: Global, asks: &[Ask], count: usize) -> bool {
    let Some(config) = config_of(alloc) else {
        return false;
    };
    let policy = Policy::of(&config);
    let Some(mut master) = master_of(alloc, config) else {
        return false;
    };
    let mut notes = Notes::new(alloc);
    for place in 0..count {
        let Some(ask) = asks.get(place % asks.len().max(1)) else {
            return false;
        };
        if serve(alloc, &mut master, ask).is_err() {
            return false;
        }
        if tend(&mut master, &policy, &mut notes, 16).is_err() {
            return false;
        }
        if place % 7 == 0 && !are_counted(&mut master) {
            return false;
        }
    }
    true
}

#[test]
fn each_segment_is_counted(rt: HostRuntime) {
    assert!(rt; stay_counted(rt.alloc(), OVERWRITES, 300));
    assert!(rt; stay_counted(rt.alloc(), TURNS, 300));
}
