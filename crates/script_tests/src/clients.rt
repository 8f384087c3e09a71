//! A script whose clients write beside a cleaner.

use script::{ErrorOutput, run_program};
use std::alloc::Global;
use std::sync::Wait;
use std::thread::Threads;

const WORDS: &[&str] = &["ramlog", "--segment", "8192", "--seglets", "4096"];

const SCRIPT: &[u8] = b"clients 4 100 5\ncrash\nrecover\n";

/// What it prints. Each `x` stands for one of the digits from 0 to 3, which come once: who made the first put has the
/// least version.
const OUTPUT: &[u8] =
    b"clients 4 100 800\ncrashed\n1 c0 10x 100\n1 c1 10x 100\n1 c2 10x 100\n1 c3 10x 100\nrecovered 4\n";

/// A bit for each digit.
fn bit_of(digit: u8) -> u8 {
    match digit {
        b'0' => 1,
        b'1' => 2,
        b'2' => 4,
        b'3' => 8,
        _ => 0,
    }
}

/// Whether these bytes are such an output.
fn is_output(bytes: &[u8]) -> bool {
    let mut digits = 0;
    for (wanted, byte) in OUTPUT.iter().zip(bytes) {
        if *wanted == b'x' {
            digits |= bit_of(*byte);
        } else if *wanted != *byte {
            return false;
        }
    }
    bytes.len() == OUTPUT.len() && digits == 15
}

/// Whether the script prints such an output, and ends well.
fn is_run<H: Threads + Wait + Sync>(rt: &H, alloc: Global) -> bool {
    let mut script = SCRIPT;
    let mut written = Vec::new(alloc);
    let mut errors = ErrorOutput::new(Vec::new(alloc), true);
    match run_program(
        rt,
        alloc,
        WORDS,
        false,
        false,
        &mut script,
        &mut written,
        &mut errors,
    ) {
        Ok(status) => status == 0 && is_output(written.as_slice()),
        Err(_) => false,
    }
}

#[test]
fn clients_write_beside_a_cleaner(rt: HostRuntime) {
    assert!(rt; is_run(&rt, rt.alloc()));
}
