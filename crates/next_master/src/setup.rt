//! Makes a master's configuration from the options of the command line.

ghost use Rattle.std.specs.Prelude.{◌≡◌, ◌<◌, None, IfOk, OnErr};
ghost use Rattle.cluster.specs.master.master_state.Config.{config_fault};
ghost use Rattle.cluster.specs.recovery.Orders.{Covers};
ghost use Rattle.next_master.specs.Configuration.{config_of, tables_to};
ghost use Rattle.next_master.specs.Configuration.{one_partition};

use cluster::master::{Config, KeyHasher};
use command_line::Options;
use entry::{NoMemory, Tablet, Tablets};
use std::alloc::Global;
use tablet_will::{Will, WillFault, make_will};

/// The tables from 1 to `count`, each as one whole tablet.
fn tables(alloc: Global, count: u64) -> Result<Vec<Tablet>, NoMemory>
    ensures tables { IfOk result (λ tablets. tablets.items ≡ tables_to count) }
    ensures refused { OnErr result (0 < count) }
{
    let mut tablets = Vec::new(alloc);
    for before in 0..count {
        tablets.push(Tablet {
            table: before + 1,
            first: 0,
            last: u64::MAX,
        })?;
    }
    Ok(tablets)
}

/// The configuration of the master with this number. Each table of the options is one whole tablet.
pub fn configuration(alloc: Global, options: &Options, master: u64) -> Result<Config, NoMemory>
    ensures config { IfOk result (λ config. config ≡ config_of options.now master) }
    ensures refused { OnErr result (0 < options.now.tables) }
{
    let tablets = tables(alloc, options.tables)?;
    Ok(Config {
        master,
        backups: options.backups,
        replicas: options.replicas,
        step: options.step,
        segment: options.segment,
        seglet: options.seglet,
        seglets: options.seglets,
        tablets: Tablets::new(tablets),
        history: options.history,
        hasher: KeyHasher::new(),
        format: options.format,
        largest: options.largest,
        most_live: options.live,
    })
}

/// The will that is one partition over all tablets of the options.
pub fn whole_will(alloc: Global, options: &Options) -> Result<Will, NoMemory>
    requires { config_fault (config_of options.now 1) ≡ None }
    ensures whole { IfOk result (λ will. will ≡ one_partition (tables_to options.now.tables)) }
    ensures covers { IfOk result (Covers (tables_to options.now.tables)) }
{
    let tablets = tables(alloc, options.tables)?;
    match make_will(alloc, tablets.as_slice(), &[], u64::MAX, u64::MAX) {
        Ok(will) => Ok(will),
        Err(WillFault::NoMemory) => Err(NoMemory),
        Err(WillFault::BadTablets) => unreachable!(),
        Err(WillFault::BadLimits) => unreachable!(),
        Err(WillFault::StraySize) => unreachable!(),
    }
}
