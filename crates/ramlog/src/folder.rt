//! A script over a store in folders: `ramlog --dir=PATH`.

use crate::until_end::UntilEnd;
use crate::{BLOCK, Flags, MISUSE};
use clap::Error;
use command_line::{Options as Asked, options};
use disk_lines::{ErrorOutput, ScriptFault, Upkeep, report, run_lines};
use disk_store::{
    DiskFile, DiskStore, FileStore, Folders, NotOpened, NotStarted, Options, RegistryFile,
    kept_options, shorten,
};
use next_master::with_limit;
use std::io::{BufReader, BufWriter, IsTerminal, Write};
use std::time::{SystemTime, UNIX_EPOCH};

/// The exit status if the folder isn't opened.
const NOT_OPENED: u8 = 3;

/// What a new store on the disk has where no word says otherwise: four tables, each segment on all of three backups,
/// segments of 256 kilobytes, 64 megabytes for the log, and a format under which a failed backup doesn't stop the
/// store. A roll makes the backups sync a few times more, so that large groups of commands gain by long segments.
fn usual() -> Options {
    let mut options = Options::usual();
    options.tables = 4;
    options.segment = 262_144;
    options.seglets = 16_384;
    options
}

/// Whether a word asks for an option.
fn asks_for(word: &str, name: &str) -> bool {
    match word.strip_prefix(name) {
        Some(rest) => rest.is_empty() || rest.starts_with('='),
        None => false,
    }
}

/// Whether an option is among the words.
fn has_option(words: &[&str], name: &str) -> bool {
    for word in words {
        if asks_for(word, name) {
            return true;
        }
    }
    false
}

/// The number that the words ask for, or else the other one.
fn pick(words: &[&str], name: &str, asked: u64, usual: u64) -> u64 {
    if has_option(words, name) {
        asked
    } else {
        usual
    }
}

/// The options that the words ask for, and these ones where the words name none.
fn with_usual(words: &[&str], asked: &Asked, usual: &Options) -> Asked {
    let mut all = *asked;
    all.backups = pick(words, "--backups", asked.backups, usual.backups);
    all.replicas = pick(words, "--replicas", asked.replicas, usual.replicas);
    all.step = pick(words, "--step", asked.step, usual.step);
    all.segment = pick(words, "--segment", asked.segment, usual.segment);
    all.seglet = pick(words, "--seglet", asked.seglet, usual.seglet);
    all.seglets = pick(words, "--seglets", asked.seglets, usual.seglets);
    all.tables = pick(words, "--tables", asked.tables, usual.tables);
    all.history = pick(words, "--history", asked.history, usual.history);
    all.format = pick(words, "--format", asked.format, usual.format);
    all.largest = pick(words, "--largest", asked.largest, usual.largest);
    all.live = pick(words, "--live", asked.live, usual.live);
    all
}

/// What a store is made with.
fn made_with(asked: &Asked) -> Options {
    Options {
        backups: asked.backups,
        replicas: asked.replicas,
        step: asked.step,
        segment: asked.segment,
        seglet: asked.seglet,
        seglets: asked.seglets,
        tables: asked.tables,
        history: asked.history,
        format: asked.format,
        largest: asked.largest,
        live: asked.live,
    }
}

/// A number for a new store, by which its files are told from those of another one: the nanoseconds since 1970.
fn store_number(rt: &HostRuntime) -> u64 {
    let Ok(now) = SystemTime::now(rt) else {
        return 0;
    };
    match now.duration_since(UNIX_EPOCH) {
        Ok(since) => u64::try_from(since.as_nanos()).unwrap_or(u64::MAX),
        Err(_) => 0,
    }
}

/// Says why the folder isn't opened, and answers the exit status.
fn refuse_folder(rt: &HostRuntime, refused: &NotOpened) -> u8 {
    let _ = match refused {
        NotOpened::Files(fault) => eprintln!(rt; "ramlog: folder {}: {fault}", fault.number()),
        NotOpened::NotRecovered(fault) => eprintln!(rt;
            "ramlog: folder 8: the table is lost: {fault}"
        ),
        NotOpened::NotStarted(fault) => return refuse_start(rt, fault),
        NotOpened::NotFreed(_) => eprintln!(rt; "ramlog: folder 6: the disk failed"),
    };
    NOT_OPENED
}

/// Says why no master began with the table, and answers the exit status.
fn refuse_start(rt: &HostRuntime, fault: &NotStarted) -> u8 {
    let _ = match fault {
        NotStarted::NoMemory => eprintln!(rt; "ramlog: folder 7: no memory"),
        NotStarted::Options(fault) => {
            let _ = eprintln!(rt; "ramlog: bad configuration {}", fault.name());
            return MISUSE;
        }
        NotStarted::NumbersSpent => eprintln!(rt;
            "ramlog: folder 9: no number is left for a master"
        ),
        NotStarted::OtherFleet => eprintln!(rt; "ramlog: folder 4: the store has fewer backups"),
        NotStarted::Refused(refusal) => {
            eprintln!(rt; "ramlog: folder 9: no master began with the table: {refusal}")
        }
        NotStarted::NotNamed(_) => eprintln!(rt; "ramlog: folder 6: registry: the disk failed"),
    };
    NOT_OPENED
}

/// Writes long files anew once in so many lines.
const TURNS: u64 = 1_024;

/// What is done between the lines of a script: long files are written anew from time to time. If that fails, the store
/// goes on with the files that it has.
#[derive(Drop)]
struct Shortening<'a> {
    rt: &'a HostRuntime,
    folders: &'a Folders,
    turns: u64,
}

impl<'a> Upkeep<DiskFile, RegistryFile<DiskFile>> for Shortening<'a> {
    fn between(&mut self, store: &mut FileStore<DiskFile, RegistryFile<DiskFile>>) {
        self.turns = self.turns.wrapping_add(1);
        if self.turns % TURNS == 0 {
            let _ = shorten(self.rt, self.folders, store);
        }
    }
}

/// Runs the script from standard input to standard output over a store, and answers the exit status, which is that of a
/// bad line if one was skipped. The first line that it prints says how many objects the last life left. Errors are
/// explained, and bad lines skipped, as by a script in memory.
fn run_opened(rt: &HostRuntime, disk: &mut DiskStore, flags: Flags) -> u8 {
    let explains = flags.explains || rt.stderr().is_terminal();
    let keeps_going = flags.keeps_going || rt.stdin().is_terminal();
    let mut errors = ErrorOutput::new(rt.stderr().lock(), explains);
    // If it fails, the store goes on with the files that it has.
    let _ = disk.shorten(rt);
    let Ok(mut reader) = BufReader::with_capacity(rt.alloc(), BLOCK, UntilEnd::new(rt.reader()))
    else {
        return report(&ScriptFault::NoMemory, &mut errors);
    };
    let Ok(mut writer) = BufWriter::with_capacity(rt.alloc(), BLOCK, rt.stdout().lock()) else {
        return report(&ScriptFault::NoMemory, &mut errors);
    };
    if writeln!(writer, "recovered {}", disk.recovered).is_err() {
        return report(&ScriptFault::WriteFailed, &mut errors);
    }
    match run_lines(
        rt.alloc(),
        &mut reader,
        &mut writer,
        &mut errors,
        &mut disk.store,
        &mut Shortening {
            rt,
            folders: &disk.folders,
            turns: 0,
        },
        flags.is_raw,
        keeps_going,
    ) {
        Ok(false) => 0,
        Ok(true) => MISUSE,
        Err(fault) => report(&fault, &mut errors),
    }
}

/// Opens the store, which has the options that it was made with where the words name none.
fn open(
    rt: &HostRuntime,
    first: &str,
    others: &[&str],
    words: &[&str],
    asked: &Asked,
) -> Result<DiskStore, NotOpened> {
    let usual = match kept_options(rt, first) {
        Ok(Some(kept)) => kept,
        Ok(None) => usual(),
        Err(fault) => return Err(NotOpened::Files(fault)),
    };
    let asked = with_limit(&with_usual(words, asked, &usual));
    DiskStore::open_all(rt, first, others, &made_with(&asked), store_number(rt))
}

/// Runs the program with these words over the store in these folders.
pub(crate) fn run_folders(
    rt: &HostRuntime,
    first: &str,
    others: &[&str],
    words: &[&str],
    flags: Flags,
) -> Result<u8, Error> {
    match options(rt.alloc(), words) {
        Ok(asked) => match open(rt, first, others, words, &asked) {
            Ok(mut disk) => Ok(run_opened(rt, &mut disk, flags)),
            Err(refused) => Ok(refuse_folder(rt, &refused)),
        },
        Err(error) => Err(error),
    }
}
