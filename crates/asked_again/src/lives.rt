//! One life of a master after another.

use crate::life::live;
use crate::printing::print;
use crate::scripts::{OPTIONS, Script};
use crate::succession::{begin, succeed};
use std::alloc::Global;
use std::io::Write;
use std::sync::Wait;
use store_lines::recovery::GroupOrder;
use store_lines::{Answer, FIRST_MASTER};

/// Runs the lives of a script. Between two of them the master crashes, and the next one adopts its table.
pub fn run_lives<R: Wait, O: Write>(rt: &R, alloc: Global, writer: &mut O, script: &Script) {
    let order = if script.is_reversed {
        GroupOrder::Reverse
    } else {
        GroupOrder::Forward
    };
    let Some((first, others)) = script.lives.split_first() else {
        return;
    };
    let master = begin(rt, alloc, &OPTIONS);
    let mut fleet = live(rt, alloc, writer, &OPTIONS, first, master);
    let mut crashed = FIRST_MASTER;
    for lines in others {
        print(writer, &Answer::Crashed);
        let heir = succeed(rt, alloc, writer, &OPTIONS, crashed, &order, fleet);
        crashed = heir.number();
        fleet = live(rt, alloc, writer, &OPTIONS, lines, heir);
    }
}
