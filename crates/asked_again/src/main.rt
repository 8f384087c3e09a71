//! The program `asked_again`: it runs scripts through a store of one seat, step by step. What is refused for want of
//! memory is asked for again until it is done. So whichever few requests for memory are refused, the program prints
//! the same answers, recovered tables, and replies in the history of each master.
#![tactic(auto)]

mod asking;
mod life;
mod lives;
mod printing;
mod scripts;
mod succession;

use lives::run_lives;
use scripts::SCRIPTS;
use std::io;

fn main(rt: HostRuntime) {
    let mut writer = io::writer(&rt);
    for script in SCRIPTS {
        run_lives(&rt, rt.alloc(), &mut writer, script);
    }
}
