//! How the new head of a failover is made, and what else changes in a core when the head is put.

ghost use Rattle.std.specs.Prelude.{◌≡◌, ◌∷◌, [], length, true, Some, IfOk, if◌then◌else◌};
ghost use Rattle.std.specs.Option.{option_map};
ghost use Rattle.master_state.specs.declared.ledger.Posting.{Posting as PostingValue};
ghost use Rattle.master_state.specs.Budget.{may_turn, is_ready, victims_of};
ghost use Rattle.master_failover.specs.Mending.{IsNextPushOf, IsNewHead, MayPut, opening};
ghost use Rattle.master_failover.specs.declared.push.Push.TheVariants as push;

use crate::turning::NewHead;
use entry::NoMemory;
use log_head::{Head, Leaving};
use master_rolls::{entering, leaving_victims};
use master_state::{Core, Failover, Ledger, Part, Posting};

/// Makes the new head of a failover, and changes nothing in the core. If a pass is ready, the new head commits it: its
/// digest lists the survivors in place of the victims. Otherwise its digest lists the log. If no head was open on all
/// its backups when the failover began, the digest lists the new head alone.
pub fn new_head(core: &Core) -> Result<NewHead, NoMemory>
    requires next { IsNextPushOf core.now (Some push.Turn) }
    requires may { may_turn core.now ≡ true }
    ensures made { IfOk result (IsNewHead core.now) }
    ensures may { IfOk result (MayPut core.now.head) }
{
    let Some(failover) = &core.failover else {
        unreachable!()
    };
    if failover.is_first {
        let head = Head::begin(
            core.alloc,
            core.config.master,
            core.next_id,
            core.config.replicas as usize,
            core.config.format,
            core.safe,
            core.config.segment as usize,
        )?;
        return Ok(NewHead::First(head));
    }
    let is_commit = core.is_ready();
    let survivors = entering(core.alloc, &core.pass, &core.closed, is_commit)?;
    let leaving = Leaving {
        victims: leaving_victims(&core.pass, is_commit),
        survivors: survivors.as_slice(),
    };
    let roll = core.head.next_roll(
        core.alloc,
        core.config.master,
        core.next_id,
        core.safe,
        leaving,
        None,
        core.config.segment as usize,
        failover.closed,
    )?;
    Ok(NewHead::Next(roll))
}

/// Returns how many victims the roll to the new head takes out of the log: those of a pass that is ready, else 0.
pub fn victims_of_commit(core: &Core) -> usize
    ensures { result ≡ (if is_ready core.now then length (victims_of core.now.pass) else 0) }
{
    match &core.pass {
        Some(pass) if core.is_ready() => pass.victims.as_slice().len(),
        _ => 0,
    }
}

/// Lets the failover go on with the Opens of the new head, and drops the image of a head that was abandoned.
pub fn begin_opening(failover: &mut Option<Failover>)
    ensures { failover.new ≡ option_map opening failover.old }
{
    if let Some(failover) = failover {
        failover.part = Part::Opens;
        failover.abandoned = None;
    }
}

/// Returns the ledger with one more posting: a head with this id was begun.
pub fn ledger_of_turn(before: &Ledger, id: u64) -> Ledger
    ensures { result.postings ≡ PostingValue.Began id ∷ before.now.postings }
{
    Ledger::with(before, &Posting::Began(id))
}
