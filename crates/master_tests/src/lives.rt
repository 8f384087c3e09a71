//! Lives that are drilled one after another.

ghost use Rattle.std.specs.Prelude.{◌≡◌, IfSome};
ghost use Rattle.backup.specs.State.{fleet_state};
ghost use Rattle.recovery.specs.Succession.{IsNewest};

use crate::asks::Ask;
use crate::asks::Ask::{Push, Put};
use crate::drills::{Life, Order, Recovered, course_of, is_rebuilt};
use crate::masters::{config_of, new_fleet};
use backup::MemoryFleet;
use entry::Tablets;
use recovery::master::{Config, If, Master};
use recovery::{Course, Drills, End, Lived, run_lives};
use std::alloc::Global;

/// The same configuration, in memory of its own.
fn copy_of(alloc: Global, config: &Config) -> Option<Config>
    ensures { IfSome result (λ copy. copy ≡ config.now) }
{
    let Ok(tablets) = Vec::from_slice(alloc, config.tablets.as_slice()) else {
        return None;
    };
    Some(Config {
        master: config.master,
        backups: config.backups,
        replicas: config.replicas,
        step: config.step,
        segment: config.segment,
        seglet: config.seglet,
        seglets: config.seglets,
        tablets: Tablets::new(tablets),
        history: config.history,
        hasher: config.hasher,
        format: config.format,
        largest: config.largest,
        most_live: config.most_live,
    })
}

/// A new master with the default options, and a configuration like its own.
fn first_master(alloc: Global) -> Option<(Master<MemoryFleet>, Config)>
    ensures config { IfSome result (λ r. r.0.knows.config ≡ r.1) }
    ensures newest { IfSome result (λ r. IsNewest r.0.knows.config.master (fleet_state r.0.fleet)) }
{
    let config = config_of(alloc, 1, 64)?;
    let like = copy_of(alloc, &config)?;
    let fleet = new_fleet(alloc, &config)?;
    match Master::new(alloc, config, fleet) {
        Ok(master) => Some((master, like)),
        Err(_) => None,
    }
}

/// What there is after the last life: a master and its number, or a recovery that was refused.
type Last = (&'static str, u64);

fn last(end: &End<MemoryFleet>) -> Last {
    match end {
        End::Up(master) => ("up", master.number()),
        End::NotRecovered(_) => ("not recovered", 0),
        _ => ("other", 0),
    }
}

fn are_rebuilt(lived: &[Lived], want: &[Recovered]) -> bool {
    let mut are_same = lived.len() == want.len();
    for (life, recovered) in lived.iter().zip(want) {
        are_same = are_same && is_rebuilt(&life.recovered, recovered);
    }
    are_same
}

fn courses_of(alloc: Global, lives: &[Life]) -> Option<Vec<Course>> {
    let mut courses = Vec::new(alloc);
    for life in lives {
        courses.push(course_of(alloc, life)?).ok()?;
    }
    Some(courses)
}

/// Lives, what each that was lived recovered, and what there is at the end.
type Row = (&'static [Life], &'static [Recovered], Last);

fn are_told(drills: &Drills<MemoryFleet>, row: &Row) -> bool {
    are_rebuilt(drills.lived.as_slice(), row.1) && last(&drills.end) == row.2
}

fn are_drilled(
    alloc: Global,
    master: Master<MemoryFleet>,
    config: &Config,
    courses: &[Course],
    row: &Row,
) -> bool
    requires config { master.knows.config ≡ config.now }
    requires newest { IsNewest master.knows.config.master (fleet_state master.fleet) }
{
    let drills = run_lives(alloc, master, config, courses);
    are_told(&drills, row)
}

fn are_drilled_from_new(alloc: Global, courses: &[Course], row: &Row) -> bool {
    match first_master(alloc) {
        Some((master, config)) => are_drilled(alloc, master, &config, courses, row),
        None => false,
    }
}

fn are_lived(alloc: Global, row: &Row) -> bool {
    match &courses_of(alloc, row.0) {
        Some(courses) => are_drilled_from_new(alloc, courses.as_slice(), row),
        None => false,
    }
}

/// The first life puts `a` and `b`, and the second one puts `a` again and `c`.
const FIRST: Life = (
    &[
        Push(2),
        Put(b"a", b'x', If::Any),
        Put(b"b", b'x', If::Any),
        Push(4),
    ],
    &[0, 1, 2],
    &[],
    Order::Forward,
);

const SECOND: &[Ask] = &[
    Put(b"a", b'y', If::Version(1)),
    Put(b"c", b'y', If::Absent),
    Push(4),
];

/// A life begins with what was recovered of the one before it.
const ROWS: &[Row] = &[
    (
        &[FIRST, (SECOND, &[0, 1, 2], &[], Order::Reverse)],
        &[
            Ok((&[(b"a", 1), (b"b", 2)], 3)),
            Ok((&[(b"a", 2), (b"b", 2), (b"c", 3)], 4)),
        ],
        ("up", 3),
    ),
    (
        &[FIRST, (SECOND, &[], &[], Order::Reverse)],
        &[Ok((&[(b"a", 1), (b"b", 2)], 3))],
        ("not recovered", 0),
    ),
];

#[test]
fn lives_follow_one_another(rt: HostRuntime) {
    for (place, row) in ROWS.iter().enumerate() {
        assert!(rt; are_lived(rt.alloc(), row), "row {place}");
    }
}
