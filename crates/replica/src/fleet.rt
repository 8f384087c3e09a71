//! What a fleet of backups promises.

ghost use Rattle.std.specs.Prelude.{◌≡◌, ◌≤◌, ℕ, [], IfOk};
ghost use Rattle.replica.specs.Op.{shown_op};
ghost use Rattle.replica.specs.Picture.{FleetState, AreHeldBy, IsOnce};
ghost use Rattle.replica.specs.Registry.{RaiseGives};
ghost use Rattle.replica.specs.Retire.{Retires};
ghost use Rattle.replica.specs.Take.{TakeGives, limited};

use crate::holding::Holding;
use crate::op::{Op, TakeFault};
use entry::NoMemory;
use std::alloc::Global;

/// Backups that hold replicas, and a registry of the least head of each master.
///
/// Backups are honest: what a backup shows is what it took. An op is taken whole or not at all. After `Fault` nobody
/// knows whether the op was taken. An op changes only the replica that it names. A raise of the registry is counted as
/// a take.
pub trait Fleet {
    /// What the backups hold, the registry, the counts of takes and faults, and the limit.
    ghost state: { Self → FleetState };

    /// Hands an op to a backup. The backup took the op if the answer is Ok.
    fn take(&mut self, backup: u64, op: &Op<'_>) -> Result<(), TakeFault>
        ensures { TakeGives (state self.old) backup (shown_op op.now) result (state self.new) };

    /// Raises the least id of a master's head that a recovery may use to `id`. A lower `id` leaves it as it is.
    fn raise(&mut self, master: u64, id: u64) -> Result<(), TakeFault>
        ensures { RaiseGives (state self.old) master id result (state self.new) };

    /// Returns the least id of a master's head that a recovery may use. It is 0 at first. The call takes no memory.
    fn least(&self, master: u64) -> u64
        ensures { result ≡ (state self.now).least master };

    /// Returns all replicas that a backup holds, each once. Their bytes are not copied. If no backup has this number,
    /// the list is empty.
    fn holdings(&self, alloc: Global, backup: u64) -> Result<Vec<Holding<'_>>, NoMemory>
        ensures shown { IfOk result (λ hs. AreHeldBy hs.items (state self.entry.now).picture backup) }
        ensures once { IfOk result (λ hs. IsOnce hs.items) }
        ensures none { IfOk result (λ hs. (state self.entry.now).backups ≤ backup → hs.items ≡ []) };

    /// Returns how many ops and raises were taken.
    fn takes(&self) -> u64
        ensures { result ≡ (state self.now).takes };

    /// Returns how many ops and raises the fleet takes in all before it is spent.
    fn end(&self) -> u64
        ensures { result ≡ (state self.now).end };

    /// Returns how many takes ended in `Fault`.
    fn faults(&self) -> u64
        ensures { result ≡ (state self.now).faults };
}

/// A fleet that also takes requests for limits, faults and retirements. A limit stops a master after any take. A
/// retirement frees what other masters left.
pub trait Bench: Fleet {
    /// Lets the fleet take `n` further ops and raises. It is spent after these. `u64::MAX` lifts the limit.
    fn limit(&mut self, n: u64)
        ensures { Self.state self.new ≡ limited (Self.state self.old) n };

    /// Asks for a fault: the `n`-th take from now ends in `Fault`, and `taken` says whether its op is taken. A take
    /// that is refused for another reason isn't counted. A later call replaces a request whose fault hasn't come. If
    /// `n` is 0, no fault comes. No fault comes either once `faults` is `u64::MAX`. The call takes no memory.
    fn fault_at(&mut self, n: u64, taken: bool)
        ensures { Self.state self.new ≡ Self.state self.old };

    /// Frees the replicas of all masters but `keep`: by backup, then by master, then by segment, each with one Free.
    /// The call ends at the first Free that fails, and what was freed before stays freed. `NoMemory` may also come
    /// before the first Free. No replica of `keep` changes.
    fn retire(&mut self, keep: u64) -> Result<(), TakeFault>
        ensures retires { Retires (Self.state self.old) keep result (Self.state self.new) }
        ensures same { (b s : ℕ) →
            (Self.state self.new).picture b keep s ≡ (Self.state self.old).picture b keep s };
}
