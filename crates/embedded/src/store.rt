//! A store.

ghost use Rattle.std.specs.Prelude.{◌≡◌, IfOk, IfErr, Some};
ghost use Rattle.recovery.specs.master.master_state.Config.{config_fault};
ghost use Rattle.recovery.specs.master.master_state.declared.config.ConfigFault.{ConfigFault as ConfigFaultValue};
ghost use Rattle.embedded.specs.Lives.{Crashes, Loses, Recovers, is_up};
ghost use Rattle.embedded.specs.Options.{config_of};
ghost use Rattle.embedded.specs.Stores.{IsOpened, Shows};

use crate::life::Life;
use crate::options::{Options, configuration};
use crate::rescue::NotRecovered;
use backup::MemoryFleet;
use entry::NoMemory;
use packing::is_limit;
use recovery::master::{ConfigFault, Master};
use std::alloc::Global;
use tending::Notes;

/// A master with its fleet of backups in memory, and all that it needs for the next master. It is for one thread: no
/// call takes a lock or starts a thread.
///
/// ```text
/// let mut store = Store::open(alloc, &Options::usual())?;
/// let put = store.put(1, b"a key", b"a value", If::Any);    // status Ok, version 1
/// store.crash();                                            // the master is gone, and its backups are left
/// store.lose(0);                                            // one of them loses all that it held
/// store.recover()?;                                         // the next master has the answered put
/// let get = store.get(1, b"a key");                         // status Ok, version 1
/// assert!(store.value(get.place) == Some(b"a value"));
/// ```
#[derive(Drop)]
pub struct Store {
    alloc: Global,
    /// What each master of the store is made with.
    pub options: Options,
    /// The number of the master, or of the last one.
    pub master: u64,
    /// The greatest number that a master had, or was to have.
    pub used: u64,
    /// The master with its backups, or these alone.
    pub life: Life,
    /// What the cleaner has noted of segments.
    pub notes: Notes,
}

/// Why no store was opened.
#[derive(Clone, Copy)]
pub enum NotOpened {
    /// A number of the options is out of its range.
    Options(ConfigFault),
    /// Memory ran out.
    NoMemory,
}

/// Numbers of a store that has a master.
#[derive(Clone, Copy)]
pub struct Stats {
    /// The bytes of the live objects, each 23 and those of its key and its value.
    pub live: u64,
    /// How many seglets of the log's memory are free.
    pub free_seglets: u64,
    /// How many records the history keeps, of which replies and values can still be read.
    pub records: u64,
    /// How many of the first records, forgotten ones too, are durable.
    pub durable: u64,
    /// How many pushes the failover of a backup still needs. It is 0 just if none is open.
    pub failover_left: u64,
    /// How many backups failed since the master began. It goes on without them: a next master has all of them again.
    pub failed: u64,
    /// Whether a next master surely has room for the table, whatever its objects are, if there are no more live
    /// bytes. A limit of live bytes in the options keeps this true.
    pub is_adoptable: bool,
}

impl Store {
    /// Opens a store whose table is empty. Its first master has number 1.
    pub fn open(alloc: Global, options: &Options) -> Result<Store, NotOpened>
        ensures opened { IfOk result (IsOpened options.now) }
        ensures refused { IfErr result (λ why. (fault : ConfigFaultValue) → why ≡ NotOpened.Options fault →
            config_fault (config_of options.now 1) ≡ Some fault) }
    {
        let Ok(config) = configuration(alloc, options, 1) else {
            return Err(NotOpened::NoMemory);
        };
        if let Err(fault) = config.check() {
            return Err(NotOpened::Options(fault));
        }
        let Ok(fleet) = MemoryFleet::new(alloc, options.backups) else {
            return Err(NotOpened::NoMemory);
        };
        match Master::new(alloc, config, fleet) {
            Ok(master) => Ok(Store {
                alloc,
                options: *options,
                master: 1,
                used: 1,
                life: Life::Up(master),
                notes: Notes::new(alloc),
            }),
            Err((NoMemory, _)) => Err(NotOpened::NoMemory),
        }
    }

    /// Whether there is a master. Else the store is down, and `recover` makes the next one.
    pub fn is_up(&self) -> bool
        ensures { result ≡ is_up self.now.life }
    {
        self.life.is_up()
    }

    /// Drops the master, as if its process had ended. Its backups stay as they are. False if there is no master.
    pub fn crash(&mut self) -> bool
        ensures crashes { Crashes self.old.life result self.new.life }
        ensures rest { self.new ≡ record self.old { life = self.new.life } }
    {
        self.life.crash()
    }

    /// Makes a backup of a store that is down lose all that it holds. Backups are numbered from 0. False if there is a
    /// master: then nothing changes.
    pub fn lose(&mut self, backup: u64) -> bool
        ensures loses { Loses self.old.life backup result self.new.life }
        ensures rest { self.new ≡ record self.old { life = self.new.life } }
    {
        self.life.lose(backup)
    }

    /// Recovers what the last master left. The next master begins with the table that is found, and frees the replicas
    /// of all others. The answer is whether it freed all of them: if not, a backup failed meanwhile. After a refusal
    /// the store is down still, and the call may be tried again.
    ///
    /// Cost: it reads all that the backups hold of the last master, and writes each live object to the next one's log.
    pub fn recover(&mut self) -> Result<bool, NotRecovered>
        ensures { Recovers self.old.life self.old.options self.old.master self.old.used result self.new.master
            self.new.life }
    {
        let number = match self
            .life
            .recover(self.alloc, &self.options, self.master, self.used)
        {
            Ok(number) => number,
            Err(why) => return Err(why),
        };
        self.master = number;
        self.used = number;
        Ok(self.life.retire())
    }

    /// Numbers of the store, or None if it is down. It looks at no object.
    pub fn stats(&self) -> Option<Stats>
        ensures { Shows self.now.life result }
    {
        let Life::Up(master) = &self.life else {
            return None;
        };
        master.show_valid();
        Some(Stats {
            live: master.live(),
            free_seglets: master.free_seglets(),
            records: master.history().kept() as u64,
            durable: master.durable(),
            failover_left: master.failover_left(),
            failed: master.failed(),
            is_adoptable: is_limit(
                &master.config().sizes(),
                master.config().largest,
                master.live(),
            ),
        })
    }
}
