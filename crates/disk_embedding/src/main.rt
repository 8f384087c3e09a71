//! A program that keeps a store on the disk: it opens the folder that it runs in, and counts its runs there. It does so
//! twice, as two processes would. docs/EMBEDDING.md goes through it.
#![tactic(auto)]

use disk_store::{DiskStore, If, NotOpened, Options, Status};

/// Counts one run more.
fn count(rt: &HostRuntime, opened: &mut Result<DiskStore, NotOpened>) {
    let Ok(disk) = opened else {
        let _ = println!(rt; "not opened");
        return;
    };
    let found = disk.store.get(1, b"runs");
    let before = match disk.store.value(found.place) {
        Some([runs]) => *runs,
        _ => 0,
    };
    let now = before.saturating_add(1);
    let put = disk.store.put(1, b"runs", &[now], If::Any);
    if put.status == Status::Ok {
        let _ = println!(rt; "runs before: {before}, now: {now}");
    }
}

/// Opens the store, which closes as the function ends.
fn run(rt: &HostRuntime) {
    let mut opened = DiskStore::open(rt, ".", &Options::usual(), 1);
    count(rt, &mut opened);
}

fn main(rt: HostRuntime) {
    run(&rt);
    run(&rt);
}
