//! A program that embeds a store: it opens one, puts, gets and deletes, fills it past its memory, cares for it, crashes
//! its master, loses a backup, recovers, and at last loses all. It prints what it sees. docs/EMBEDDING.md goes through
//! it.
#![tactic(auto)]

use embedded::{If, NotRecovered, Options, Reply, Stats, Status, Store};

/// A key may have any bytes.
const KEY: &[u8] = b"a key\nof two lines";

/// A value of 64 bytes.
const VALUE: &[u8] = b"0123456789abcdef0123456789abcdef0123456789abcdef0123456789abcdef";

/// Options of a small store, whose log has 64 kilobytes of memory.
fn small() -> Options {
    let mut options = Options::usual();
    options.segment = 8_192;
    options.seglet = 512;
    options.seglets = 128;
    options
}

/// Prints what came of a call.
fn say(rt: &HostRuntime, call: &str, reply: &Reply) {
    let word = match reply.status {
        Status::Ok => "ok",
        Status::None => "none",
        Status::Mismatch => "mismatch",
        Status::Refused => "refused",
        Status::Unsure => "unsure",
    };
    let Reply {
        refusal,
        version,
        ..
    } = *reply;
    let _ = println!(rt; "{call}: {word}, version {version}, refusal {refusal}");
}

/// Prints the value that a get found.
fn say_value(rt: &HostRuntime, store: &Store, place: u64) {
    match store.value(place) {
        Some(value) => {
            let len = value.len();
            let _ = println!(rt; "  a value of {len} bytes");
        }
        None => {
            let _ = println!(rt; "  no value");
        }
    }
}

/// Puts, some of them under a condition, and a get.
fn write(rt: &HostRuntime, store: &mut Store) {
    let put = store.put(1, KEY, b"first\0value", If::Absent);
    say(rt, "put", &put);
    let again = store.put(1, KEY, b"second", If::Absent);
    say(rt, "put if absent", &again);
    let swap = store.put(1, KEY, b"third value", If::Version(put.version));
    say(rt, "put if version", &swap);
    let none = store.delete(1, b"no such key");
    say(rt, "delete", &none);
    let bad = store.put(1, b"", b"value", If::Any);
    say(rt, "put without a key", &bad);
}

/// Puts a key again and again: more bytes than the log's memory has, so the store cleans it.
fn fill(rt: &HostRuntime, store: &mut Store) {
    let mut last = store.get(1, b"counter");
    for _ in 0..2_000 {
        last = store.put(1, b"counter", VALUE, If::Any);
    }
    say(rt, "the last of 2,000 puts", &last);
}

/// Makes all records durable, cleans while there is time, and prints numbers of the store.
fn care(rt: &HostRuntime, store: &mut Store) {
    let word = match store.settle() {
        Ok(()) => "settled",
        Err(_) => "not settled",
    };
    let made = store.tend(8).unwrap_or(0);
    let _ = println!(rt; "{word}, and {made} steps of the cleaner");
    let Some(stats) = store.stats() else {
        return;
    };
    let Stats {
        live,
        durable,
        failed,
        is_adoptable,
        ..
    } = stats;
    let room = if is_adoptable { "has" } else { "may lack" };
    let _ = println!(rt;
        "{live} live bytes, {durable} durable records, {failed} failed backups; a next master {room} room"
    );
}

/// Reads what is there.
fn read(rt: &HostRuntime, store: &mut Store) {
    let found = store.get(1, KEY);
    say(rt, "get", &found);
    say_value(rt, store, found.place);
    let counter = store.get(1, b"counter");
    say(rt, "get", &counter);
}

/// The master ends, a backup loses all, and the next master goes on.
fn crash(rt: &HostRuntime, store: &mut Store) {
    store.crash();
    let refused = store.get(1, KEY);
    say(rt, "get without a master", &refused);
    store.lose(1);
    let word = match store.recover() {
        Ok(true) => "recovered",
        Ok(false) => "recovered, but a backup failed",
        Err(_) => "not recovered",
    };
    let _ = println!(rt; "{word}");
}

/// The master ends, and all backups lose all.
fn ruin(rt: &HostRuntime, store: &mut Store) {
    store.crash();
    for backup in 0..3 {
        store.lose(backup);
    }
    let word = match store.recover() {
        Err(NotRecovered::NotRebuilt(_)) => "the table is lost",
        Err(_) => "not recovered",
        Ok(_) => "recovered",
    };
    let _ = println!(rt; "{word}");
}

fn main(rt: HostRuntime) {
    let Ok(mut store) = Store::open(rt.alloc(), &small()) else {
        return;
    };
    write(&rt, &mut store);
    fill(&rt, &mut store);
    care(&rt, &mut store);
    crash(&rt, &mut store);
    read(&rt, &mut store);
    ruin(&rt, &mut store);
}
