//! The next step of what is under way in a core.

ghost use Rattle.std.specs.Prelude.{◌≡◌, ◌≢◌, MatchBool, None, Some};
ghost use Rattle.master_space.specs.Choosing.{pending_step, pending_without};

use crate::choosing::pass_step;
use master_state::{Core, Step};

/// Returns the next step of what is under way. An open failover goes on first, then an open pass. Without these, pushes
/// come until the head is open, and then the replicas that wait are freed. `None` means that nothing is under way. The
/// call allocates no memory.
pub fn pending_step(core: &Core) -> Option<Step>
    ensures { result ≡ pending_step core.now }
{
    if core.failover.is_some() {
        return Some(Step::Push);
    }
    match &core.pass {
        Some(pass) => Some(pass_step(core, pass)),
        None => pending_without(core),
    }
}

/// Returns true if the next step of what is under way treats an entry of the open pass. The answer is smaller than the
/// step that `pending_step` returns.
#[inline]
pub fn is_copying(core: &Core) -> bool
    ensures { MatchBool result (pending_step core.now ≡ Some Step.Copy) (pending_step core.now ≢ Some Step.Copy) }
{
    if core.failover.is_some() {
        return false;
    }
    match &core.pass {
        Some(pass) => !pass.is_at_end(),
        None => false,
    }
}

/// Returns the next step of what is under way if no failover and no pass is open.
fn pending_without(core: &Core) -> Option<Step>
    ensures { result ≡ pending_without core.now }
{
    if !core.head.is_open() {
        return Some(Step::Push);
    }
    if !core.waiting.is_empty() {
        return Some(Step::Free);
    }
    None
}
