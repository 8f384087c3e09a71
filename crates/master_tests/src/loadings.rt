//! A master that is restored, and finished once its head is open.

use crate::answers::{Kind, kind};
use crate::masters::{config_of, new_fleet};
use backup::MemoryFleet;
use entry::SafeVersion;
use recovery::master::{Loading, Master};
use std::alloc::Global;

/// One that has loaded nothing, over a fleet that holds nothing.
fn restored(alloc: Global) -> Option<Loading<MemoryFleet>> {
    let config = config_of(alloc, 1, 64)?;
    let fleet = new_fleet(alloc, &config)?;
    match Master::restore(alloc, config, SafeVersion::first(), fleet) {
        Ok(loading) => Some(loading),
        Err(_) => None,
    }
}

/// Opens both replicas, and begins a roll if it is to. Whether these steps did so.
fn is_opened(loading: &mut Loading<MemoryFleet>, rolls: bool) -> bool {
    let is_first = kind(&loading.push()) == ("opened", 1, 1);
    let is_second = kind(&loading.push()) == ("opened", 2, 1);
    let is_rolling = !rolls || kind(&loading.begin_roll()) == ("rolling", 2, 0);
    is_first && is_second && is_rolling
}

/// The head of the master and how many records are durable; or how many backups the fleet has, if it isn't finished.
fn end_of(loading: Loading<MemoryFleet>) -> Kind {
    match loading.finish() {
        Ok(master) => ("finished", master.head(), master.durable()),
        Err(loading) => ("not finished", loading.crash().backups(), 0),
    }
}

fn is_ended(alloc: Global, rolls: bool, want: Kind) -> bool {
    let Some(mut loading) = restored(alloc) else {
        return false;
    };
    let is_opened = is_opened(&mut loading, rolls);
    let end = end_of(loading);
    is_opened && end == want
}

#[test]
fn a_master_is_restored(rt: HostRuntime) {
    assert!(rt; is_ended(rt.alloc(), false, ("finished", 1, 0)));
}

#[test]
fn a_roll_is_not_finished(rt: HostRuntime) {
    assert!(rt; is_ended(rt.alloc(), true, ("not finished", 3, 0)));
}
