//! Finds the newest head.

ghost use Rattle.std.specs.Prelude.{◌≡◌, ◌++◌, ◌∷◌, [], ℕ, List, IfOk, IfErr};
ghost use Rattle.replica.specs.declared.holding.Holding.{Holding as HoldingValue};
ghost use Rattle.replica.specs.Choice.{IsUsableHead};
ghost use Rattle.recovery_plan.specs.Good.{IsHeadOf, IsOpenHead};
ghost use Rattle.recovery_plan.specs.Preferred.{IsBest};
ghost use Rattle.recovery_plan.specs.Planned.{IsHeadTaken, IsHeadFault, AreNewest};

use crate::fault::PlanFault;
use crate::head::{Head, better_head};
use crate::reading::segment_in;
use replica::Holding;

/// The id of the newest head so far, and which of its open replicas is taken so far.
#[derive(Drop)]
struct Newest<'h, 'a> {
    id: Option<u64>,
    taken: Option<Head<'h, 'a>>,
}

/// Which open replica of a head is taken, once this replica of the head has come too.
fn with_open<'h, 'a>(before: Option<Head<'h, 'a>>, head: Head<'h, 'a>) -> Option<Head<'h, 'a>>
    ensures { (master : ℕ) (hs : List HoldingValue) → IsHeadOf master head.entry →
        IsBest (IsOpenHead master head.entry.segment) hs before.entry →
        IsBest (IsOpenHead master head.entry.segment) (hs ++ head.entry ∷ []) result }
{
    if head.replica().is_open {
        Some(better_head(before, head))
    } else {
        before
    }
}

/// The newest head, once this replica of a head has come too.
fn with_head<'h, 'a>(newest: Newest<'h, 'a>, head: Head<'h, 'a>) -> Newest<'h, 'a>
    ensures { (master : ℕ) (hs : List HoldingValue) → IsHeadOf master head.entry →
        AreNewest master hs newest.entry.id newest.entry.taken →
        AreNewest master (hs ++ head.entry ∷ []) result.id result.taken }
{
    let id = head.replica().segment;
    match newest.id {
        Some(known) if id < known => newest,
        Some(known) if id == known => Newest {
            id: Some(id),
            taken: with_open(newest.taken, head),
        },
        _ => Newest {
            id: Some(id),
            taken: with_open(None, head),
        },
    }
}

/// Which replica of the newest head of a master is taken. `least` is the least head that may be used. Each replica of
/// the master is read once.
pub(crate) fn newest_head<'h, 'a>(
    holdings: &'h [Holding<'a>],
    master: u64,
    least: u64,
) -> Result<Head<'h, 'a>, PlanFault>
    ensures taken { IfOk result (IsHeadTaken holdings.entry.now master) }
    ensures usable { IfOk result (λ head. IsUsableHead least head.segment) }
    ensures fault { IfErr result (IsHeadFault holdings.entry.now least master) }
{
    let mut newest = Newest {
        id: None,
        taken: None,
    };
    for holding in holdings {
        if holding.master == master {
            let Some(segment) = segment_in(holding) else {
                return Err(PlanFault::BadReplica(holding.backup, holding.segment));
            };
            if let Some(head) = Head::of(holding, &segment) {
                newest = with_head(newest, head);
            }
        }
    }
    let Newest { id, taken } = newest;
    match id {
        None => Err(PlanFault::NoHead),
        Some(id) if id < least => Err(PlanFault::HeadTooOld(id)),
        Some(id) => match taken {
            Some(head) => Ok(head),
            None => Err(PlanFault::HeadClosed(id)),
        },
    }
}
