//! What a master knows: how a core begins, what it shows, and whether it may take a step.

ghost use Rattle.std.specs.Prelude.{◌≡◌, ◌<◌, [], None, IfOk, OnErr, IsSome};
ghost use Rattle.std.specs.Option.{option_map};
ghost use Rattle.entry.specs.Text.{text_of};
ghost use Rattle.log_head.specs.Head.{digest_of};
ghost use Rattle.master_state.specs.Causes.{step_refusal};
ghost use Rattle.master_state.specs.Config.{config_fault};
ghost use Rattle.std.specs.Result.{result_err};
ghost use Rattle.master_state.specs.Data.{fresh_data};
ghost use Rattle.master_state.specs.Forgetting.{ForgetsTo};
ghost use Rattle.master_state.specs.Invariant.{IsCore};
ghost use Rattle.log_memory.specs.log_laws.Steps.{restored};
ghost use Rattle.master_state.specs.Loading.{restored_data, IsBare};
ghost use Rattle.master_state.specs.Log.{fail_config, log_of, durable_now, image_of, home};
ghost use Rattle.master_state.specs.Steps.{halted};
ghost use Rattle.tally.specs.Rows.{WithOne, of_nothing};

use crate::config::Config;
use crate::failover::{Failed, Failover};
use crate::image::image_of;
use crate::ledger::{Abandoned, Ledger};
use crate::loaded::Loaded;
use crate::step::Refusal;
use crate::waiting::Waiting;
use cleaner::Pass;
use entry::{NoMemory, Row, SafeVersion, Tablet};
use hash_index::Index;
use history::History;
use images::Images;
use log_head::Head;
use std::alloc::Global;
use std::marker::Model;
use tally::Tallies;

/// What a master knows: its configuration, its images, its index, the safe version, its history, and how far it has
/// cleaned. The crates above read and change the fields, and have to leave a core that has the invariant.
#[derive(Drop)]
pub struct Core {
    /// The allocator that the core takes memory from.
    pub alloc: Global,
    pub config: Config,
    pub head: Head,
    /// The images of the closed segments, and those of the survivors of the open pass.
    pub closed: Images,
    /// The least id that no segment of this master has had.
    pub next_id: u64,
    /// The index, which leads from keys to the places of the live objects.
    pub index: Index,
    /// The version that the next new key gets.
    pub safe: SafeVersion,
    /// The accepted commands, with their replies.
    pub history: History,
    /// The open pass, if there is one.
    pub pass: Option<Pass>,
    /// The victims of earlier passes whose replicas are to be freed, in the order in which they are freed.
    pub waiting: Vec<Waiting>,
    /// The backups that failed.
    pub failed: Failed,
    /// The open failover, if there is one.
    pub failover: Option<Failover>,
    /// True if the master takes no further step.
    pub is_halted: bool,
    /// The objects that the master was loaded with before its history began.
    pub loaded: Loaded,
    /// The safe version that the history began with.
    pub first_safe: SafeVersion,
    /// What the master's backups answered.
    pub ledger: Ledger,
    /// The heads that a roll was opening as the last failover began. The list is empty again once the new head is in
    /// force.
    pub abandoned: Abandoned,
    /// The bytes of the live objects. `u64::MAX` stands for as many or more.
    pub live: u64,
    /// How many bytes of each segment are kept. No contract of a step speaks of it: it only spares look-ups.
    pub tallies: Tallies,
}

impl Model for Core {
    ghost use Rattle.std.specs.Prelude.{◌≡◌, ◌+◌, ◌<◌, ◌≤◌, IsSome, IfSome, true, length, vec_capacity};
    ghost use Rattle.master_state.specs.Data.{MasterData};
    ghost use Rattle.master_state.specs.Invariant.{AreImagesOf, AreTallied, IsCore};

    ghost Value = { MasterData };

    ghost view = { λ m. record {
      config = m.config;
      head = m.head;
      closed = m.closed.images;
      next = m.next_id;
      index = m.index.held;
      safe = m.safe;
      history = m.history.records;
      forgotten = m.history.forgotten;
      pass = m.pass;
      waiting = m.waiting.items;
      failed = m.failed;
      failover = m.failover;
      is_halted = m.is_halted;
      origin = record { objects = m.loaded.objects; safe = m.first_safe };
      ledger = m.ledger.postings;
      abandoned = m.abandoned.heads;
      live = m.live;
    } };

    // While a roll is under way, `closed` has room for one more segment. While a pass commits, `waiting` has room for
    // its victims. What is counted of segments is right.
    ghost invariant = { λ m. (IsSome m.head.roll → length m.closed.images < m.closed.room)
        × AreImagesOf m.config m.closed × IsCore (record {
          config = m.config;
          head = m.head;
          closed = m.closed.images;
          next = m.next_id;
          index = m.index.held;
          safe = m.safe;
          history = m.history.records;
          forgotten = m.history.forgotten;
          pass = m.pass;
          waiting = m.waiting.items;
          failed = m.failed;
          failover = m.failover;
          is_halted = m.is_halted;
          origin = record { objects = m.loaded.objects; safe = m.first_safe };
          ledger = m.ledger.postings;
          abandoned = m.abandoned.heads;
          live = m.live;
        })
        × IfSome m.pass (λ p. p.is_committing ≡ true
        → length m.waiting.items + length p.victims ≤ vec_capacity m.waiting)
        × AreTallied (record {
          config = m.config;
          head = m.head;
          closed = m.closed.images;
          next = m.next_id;
          index = m.index.held;
          safe = m.safe;
          history = m.history.records;
          forgotten = m.history.forgotten;
          pass = m.pass;
          waiting = m.waiting.items;
          failed = m.failed;
          failover = m.failover;
          is_halted = m.is_halted;
          origin = record { objects = m.loaded.objects; safe = m.first_safe };
          ledger = m.ledger.postings;
          abandoned = m.abandoned.heads;
          live = m.live;
        }) m.tallies };
}

impl Core {
    /// Makes the core of a new master. Its head is in memory alone: no backup has it yet.
    pub fn new(alloc: Global, config: Config) -> Result<Core, NoMemory>
        requires { config_fault config ≡ None }
        ensures made { IfOk result (λ core. core ≡ fresh_data config) }
        ensures valid { IfOk result (λ core. IsCore core) }
    {
        Core::restore(alloc, config, SafeVersion::first())
    }

    /// Makes the core of a new master that is to be loaded with objects of versions below `safe`. Its head is in
    /// memory alone: no backup has it yet.
    pub fn restore(alloc: Global, config: Config, safe: SafeVersion) -> Result<Core, NoMemory>
        requires { config_fault config ≡ None }
        ensures made { IfOk result (λ core. core ≡ restored_data config safe) }
        ensures log { IfOk result (λ core. log_of core ≡ restored (fail_config config) safe) }
        ensures valid { IfOk result (λ core. IsCore core) }
        ensures bare { IfOk result (λ core. IsBare core) }
    {
        let replicas = config.replicas as usize;
        let hasher = config.hasher;
        let head = Head::begin(
            alloc,
            config.master,
            1,
            replicas,
            config.format,
            safe,
            config.segment as usize,
        )?;
        let closed = Images::new(
            alloc,
            config.segment as usize,
            config.seglet as usize,
            config.seglets,
        );
        let core = Core {
            alloc,
            config,
            head,
            closed,
            next_id: 2,
            index: Index::with_hasher(alloc, hasher),
            safe,
            history: History::new(alloc),
            pass: None,
            waiting: Vec::new(alloc),
            failed: Failed::none(),
            failover: None,
            is_halted: false,
            loaded: Loaded::nothing(),
            first_safe: safe,
            ledger: Ledger::empty(),
            abandoned: Abandoned::none(),
            live: 0,
            tallies: first_tallies(alloc),
        };
        core.show_valid();
        Ok(core)
    }

    /// Tells the caller's proof that this core has the invariant. The call does nothing when the program runs.
    pub fn show_valid(&self)
        ensures { IsCore self.now }
    {
        let _is_halted = self.is_halted;
    }

    /// The master's number.
    pub fn master(&self) -> u64
        ensures { result ≡ self.now.config.master }
    {
        self.config.master
    }

    /// The tablets of the configuration.
    pub fn tablets(&self) -> &[Tablet]
        ensures { result.now ≡ self.now.config.tablets }
    {
        self.config.tablets.as_slice()
    }

    /// Returns true if the master takes no further step.
    pub fn is_halted(&self) -> bool
        ensures { result ≡ self.now.is_halted }
    {
        self.is_halted
    }

    /// The head of the log.
    pub fn head(&self) -> &Head
        ensures head { result.now ≡ self.now.head }
        ensures valid { IsCore self.now }
    {
        &self.head
    }

    /// How many backups the configuration has. They are numbered from 0.
    pub fn backups(&self) -> u64
        ensures { result ≡ self.now.config.backups }
    {
        self.config.backups
    }

    /// The home of a replica of a segment: the number of a backup that hasn't failed.
    #[inline(always)]
    pub fn home(&self, segment: u64, replica: usize) -> u64
        requires { replica < self.now.config.replicas }
        ensures home { result ≡ home self.now.config self.now.failed segment replica }
        ensures there { result < self.now.config.backups }
    {
        self.config.home(&self.failed, segment, replica)
    }

    /// The accepted commands, with their replies.
    pub fn history(&self) -> &History
        ensures records { result.now.records ≡ self.now.history }
        ensures forgotten { result.now.forgotten ≡ self.now.forgotten }
    {
        &self.history
    }

    /// The durable count: how many of the first records have no unit that some replica of the head lacks. While a
    /// failover is open, the count stays as it was when the failover began.
    pub fn durable(&self) -> u64
        ensures { result ≡ durable_now self.now }
    {
        if let Some(failover) = &self.failover {
            return failover.frozen;
        }
        match self.head.first_missing() {
            None => self.history.len() as u64,
            Some(number) => number,
        }
    }

    /// Forgets the first `n` records, or those of them that are durable, but for the last 1,024 of these at most. Their
    /// memory is freed.
    pub fn forget(&mut self, n: u64)
        ensures forgets { ForgetsTo n self.old self.new }
        ensures valid { IsCore self.new }
    {
        let most = n.min(self.durable());
        self.history.forget(most as usize);
    }

    // ---- whether a step may be taken

    /// Makes the test that comes first for a compaction, a pass, a copy, a seal and a free. The test refuses them as
    /// Halted if the master is halted, and as Rolling while a failover is open.
    pub fn admit(&self) -> Result<(), Refusal>
        ensures { result_err result ≡ step_refusal self.now }
    {
        if self.is_halted {
            return Err(Refusal::Halted);
        }
        if self.failover.is_some() {
            return Err(Refusal::Rolling);
        }
        Ok(())
    }

    /// Halts the master: it takes no further step.
    pub fn halt(&mut self)
        ensures halted { self.new ≡ halted self.old }
        ensures valid { IsCore self.new }
    {
        self.is_halted = true;
    }

    // ---- what is shown

    /// Returns the ids that the digest in force lists, in order.
    pub fn digest(&self) -> Result<Row<u64>, NoMemory>
        ensures { IfOk result (λ ids. ids ≡ digest_of self.now.head.image) }
    {
        Ok(Row::new(self.head.digest(self.alloc)?))
    }

    /// Returns a copy of the bytes of a segment's image, or `None` if there is no image with this id.
    pub fn bytes_of(&self, id: u64) -> Result<Option<Row<u8>>, NoMemory>
        ensures image { IfOk result (λ image. image ≡ option_map text_of (image_of self.now id)) }
        ensures refused { OnErr result (IsSome (image_of self.now id)) }
    {
        let Some(image) = image_of(&self.head, &self.closed, id) else {
            return Ok(None);
        };
        let bytes = Vec::from_slice(self.alloc, image.bytes())?;
        Ok(Some(Row::new(bytes)))
    }
}

/// What is counted of the first head, which has neither objects nor tombstones.
fn first_tallies(alloc: Global) -> Tallies
    ensures { WithOne (of_nothing 1) [] result }
{
    let mut tallies = Tallies::new(alloc);
    tallies.reserve(1);
    tallies.begin(1);
    tallies
}
