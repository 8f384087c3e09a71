//! The program `journal_writer FOLDER NAME < lines` keeps lines in a journal on the disk, for tests and measurements.
//!
//! It prints each text of the journal, and then `open N`, where N is their count. Then it appends each line of the
//! input, and prints `ok` when the line is on the disk. `journal_writer FOLDER NAME TEXTS BYTES` reads no input: it
//! appends so many texts of so many bytes each, and prints how many nanoseconds that took.
#![tactic(auto)]

mod fault;
mod keeping;

use disk_file::Folder;
use fault::Fault;
use keeping::{append_lines, append_many, open_journal};
use std::env;
use std::process::ExitCode;

/// Runs the program with these words, of which the first is its own name.
fn run(rt: &HostRuntime, words: &[String]) -> Result<(), Fault> {
    match words {
        [_, folder, name] => {
            let folder = Folder::open(rt, folder.as_str())?;
            let mut journal = open_journal(rt, &folder, name.as_str(), true)?;
            append_lines(rt, &mut journal)
        }
        [_, folder, name, texts, bytes] => {
            let texts = texts.parse().map_err(|_| Fault::Misuse)?;
            let bytes = bytes.parse().map_err(|_| Fault::Misuse)?;
            let folder = Folder::open(rt, folder.as_str())?;
            let mut journal = open_journal(rt, &folder, name.as_str(), false)?;
            append_many(rt, &mut journal, texts, bytes)
        }
        _ => Err(Fault::Misuse),
    }
}

/// The words of the command line, the name of the program first.
fn read_words(rt: &HostRuntime) -> Result<Vec<String>, Fault> {
    let words: Vec<String> = env::args(rt)?.collect(rt.alloc())?;
    Ok(words)
}

fn main(rt: HostRuntime) -> ExitCode {
    let ended = match read_words(&rt) {
        Ok(words) => run(&rt, words.as_slice()),
        Err(fault) => Err(fault),
    };
    match ended {
        Ok(()) => ExitCode::SUCCESS,
        Err(fault) => {
            let _ = eprintln!(rt; "journal_writer: {fault}");
            ExitCode::from(fault.status())
        }
    }
}
