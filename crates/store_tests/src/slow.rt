//! A fleet whose takes do what a test tells them: one waits, and so holds the lock of the store above it, or is refused
//! for memory.

ghost use Rattle.std.specs.Prelude.{◌≡◌, ◌≤◌, [], IfOk};
ghost use Rattle.replica.specs.Op.{shown_op};
ghost use Rattle.replica.specs.Picture.{AreHeldBy, IsOnce};
ghost use Rattle.replica.specs.Take.{TakeGives};
ghost use Rattle.backup.specs.State.{fleet_state};

use backup::MemoryFleet;
use entry::NoMemory;
use replica::{Bench, Fleet, Holding, Op, TakeFault};
use std::alloc::Global;
use std::sync::atomic::{AtomicU64, Ordering};
use std::thread;

/// How many turns a thread waits at most.
const TURNS: u64 = 10_000_000;

/// How many turns a take gives a thread that is to come for the lock.
const LINGER: u64 = 400_000;

/// What the threads of a test tell each other.
#[derive(Drop)]
pub struct Watch {
    /// 1 once a take is to wait.
    is_slow: AtomicU64,
    /// 1 while a take waits.
    waits: AtomicU64,
    /// 1 once the take need not wait any longer.
    is_done: AtomicU64,
    /// 1 if the take saw that.
    seen: AtomicU64,
    /// 1 once the mark was raised.
    is_raised: AtomicU64,
    /// 1 while takes give another thread time to come for the lock.
    awaits: AtomicU64,
    /// How many takes and raises were asked for.
    takes: AtomicU64,
    /// The same when the fleet was last limited.
    limited_at: AtomicU64,
    /// 1 once a take is to be refused for memory.
    is_poor: AtomicU64,
    /// How many there were when another thread was last expected.
    expected_at: AtomicU64,
}

impl Watch {
    pub fn new() -> Watch {
        Watch {
            is_slow: AtomicU64::new(0),
            waits: AtomicU64::new(0),
            is_done: AtomicU64::new(0),
            seen: AtomicU64::new(0),
            is_raised: AtomicU64::new(0),
            awaits: AtomicU64::new(0),
            takes: AtomicU64::new(0),
            limited_at: AtomicU64::new(0),
            is_poor: AtomicU64::new(0),
            expected_at: AtomicU64::new(0),
        }
    }

    /// How many takes and raises were asked for.
    pub fn takes(&self) -> u64 {
        self.takes.load(Ordering::SeqCst)
    }

    /// The next take is refused for memory.
    pub fn run_short(&self) {
        self.is_poor.store(1, Ordering::SeqCst);
    }

    /// Whether there were so many takes at least since another thread was expected, and it limited the fleet between
    /// two of them.
    pub fn has_let_in(&self, takes: u64) -> bool {
        let before = self.expected_at.load(Ordering::SeqCst);
        let limited_at = self.limited_at.load(Ordering::SeqCst);
        let now = self.takes();
        before < limited_at && limited_at < now && takes <= now - before
    }

    /// From now on a take waits.
    pub fn slow_down(&self) {
        self.is_slow.store(1, Ordering::SeqCst);
    }

    /// Waits until a take waits. Whether that came.
    pub fn wait_for_take(&self) -> bool {
        is_set(&self.waits)
    }

    /// The mark was raised.
    pub fn tell_raise(&self) {
        self.is_raised.store(1, Ordering::SeqCst);
    }

    /// Waits until the mark was raised. Whether that came.
    pub fn wait_for_raise(&self) -> bool {
        is_set(&self.is_raised)
    }

    /// From now on a take waits, and the takes behind it give another thread time, until the fleet is limited.
    pub fn expect_guest(&self) {
        self.expected_at.store(self.takes(), Ordering::SeqCst);
        self.awaits.store(1, Ordering::SeqCst);
        self.slow_down();
    }

    /// Lets the take that waits go on.
    pub fn finish(&self) {
        self.is_done.store(1, Ordering::SeqCst);
    }

    /// Whether the take went on because it was let go.
    pub fn has_seen(&self) -> bool {
        self.seen.load(Ordering::SeqCst) == 1
    }

    /// Counts a take.
    fn count(&self) {
        let _before = self.takes.fetch_add(1, Ordering::SeqCst);
    }

    /// Whether the take is to be refused for memory.
    fn is_short(&self) -> bool {
        self.is_poor.swap(0, Ordering::SeqCst) == 1
    }

    /// Notes after how many takes the fleet was limited.
    fn note_limit(&self) {
        self.awaits.store(0, Ordering::SeqCst);
        self.limited_at.store(self.takes(), Ordering::SeqCst);
    }

    /// Gives another thread time, if one is to come for the lock.
    fn linger(&self) {
        for _ in 0..LINGER {
            if self.awaits.load(Ordering::SeqCst) == 0 {
                return;
            }
            thread::yield_now();
        }
    }

    /// Waits, if takes are to wait, until it is let go.
    fn hold(&self) {
        self.linger();
        if self.is_slow.swap(0, Ordering::SeqCst) == 0 {
            return;
        }
        self.waits.store(1, Ordering::SeqCst);
        if is_set(&self.is_done) {
            self.seen.store(1, Ordering::SeqCst);
        }
    }
}

/// Whether the word is 1 within the turns.
fn is_set(word: &AtomicU64) -> bool {
    for _ in 0..TURNS {
        if word.load(Ordering::SeqCst) == 1 {
            return true;
        }
        thread::yield_now();
    }
    false
}

/// A fleet in memory whose takes do what the watch says.
#[derive(Drop)]
pub struct SlowFleet<'a> {
    pub fleet: MemoryFleet,
    pub watch: &'a Watch,
}

impl<'a> Fleet for SlowFleet<'a> {
    ghost use Rattle.std.specs.Prelude.{◌≡◌, ◌≤◌, [], IfOk};
    ghost use Rattle.replica.specs.Op.{shown_op};
    ghost use Rattle.replica.specs.Picture.{AreHeldBy, IsOnce};
    ghost use Rattle.replica.specs.Registry.{RaiseGives};
    ghost use Rattle.replica.specs.Take.{TakeGives};
    ghost use Rattle.backup.specs.State.{fleet_state};

    ghost state = { λ s. fleet_state s.fleet };

    fn take(&mut self, backup: u64, op: &Op<'_>) -> Result<(), TakeFault> {
        self.watch.count();
        if self.watch.is_short() {
            return Err(TakeFault::NoMemory);
        }
        self.watch.hold();
        self.fleet.take(backup, op)
    }

    fn raise(&mut self, master: u64, id: u64) -> Result<(), TakeFault> {
        self.watch.count();
        if self.watch.is_short() {
            return Err(TakeFault::NoMemory);
        }
        self.watch.hold();
        self.fleet.raise(master, id)
    }

    fn least(&self, master: u64) -> u64 {
        self.fleet.least(master)
    }

    fn holdings(&self, alloc: Global, backup: u64) -> Result<Vec<Holding<'_>>, NoMemory> {
        self.fleet.holdings(alloc, backup)
    }

    fn takes(&self) -> u64 {
        self.fleet.takes()
    }

    fn end(&self) -> u64 {
        self.fleet.end()
    }

    fn faults(&self) -> u64 {
        self.fleet.faults()
    }
}

impl<'a> Bench for SlowFleet<'a> {
    fn limit(&mut self, n: u64) {
        self.watch.note_limit();
        self.fleet.limit(n)
    }

    fn fault_at(&mut self, n: u64, taken: bool) {
        self.fleet.fault_at(n, taken)
    }

    fn retire(&mut self, keep: u64) -> Result<(), TakeFault> {
        self.fleet.retire(keep)
    }
}
