//! Which push of an open failover comes next, and what it makes of a core.

ghost use Rattle.std.specs.Prelude.{◌≡◌, ◌<◌, ◌≤◌, ◌+◌, ◌*◌, ◌↔◌, ℕ, Some, None, IsSome, IfSome, if◌then◌else◌};
ghost use Rattle.std.specs.Option.{option_map};
ghost use Rattle.log_head.specs.declared.head.Roll.{Roll as RollValue};
ghost use Rattle.log_head.specs.declared.next.Next.TheVariants as next;
ghost use Rattle.master_state.specs.declared.failover.Failover.{Failover as FailoverValue};
ghost use Rattle.master_state.specs.declared.failover.Part.TheVariants as part;
ghost use Rattle.master_state.specs.Budget.{most_segments};
ghost use Rattle.master_state.specs.Invariant.{IsCore};
ghost use Rattle.master_failover.specs.declared.push.Push.TheVariants as push;
ghost use Rattle.master_failover.specs.Left.{left_now};
ghost use Rattle.master_failover.specs.Mending.{IsNextMend, IsNextOpen, IsNextPushOf, IsInPart, IsOnReplica};
ghost use Rattle.master_failover.specs.Mending.{mended_data, was_headless, opened_now, new_id, first_lost, opened_more};
ghost use Rattle.master_failover.specs.Mending.{raised_data, closed_more, sealed_anew};

use crate::left::left;
use crate::lost::first_lost;
use crate::push::Push;
use log_head::Next;
use master_rolls::end_pass;
use master_state::{Abandoned, Core, Failover, Ledger, Part, Posting};

/// Returns the push that comes next while a failover is open.
pub(crate) fn next_mend(core: &Core) -> Push
    requires { IsSome core.now.failover }
    ensures next { IsNextMend core.now result }
{
    let Some(failover) = &core.failover else {
        unreachable!()
    };
    match failover.part {
        Part::Mends => next_of_head(core, failover.is_first),
        Part::Opens => next_of_opening(core),
        Part::Closes => next_of_closing(core),
        Part::Repairs => next_repair(core),
    }
}

/// Counts a push that a replica's backup took while a failover is open.
pub(crate) fn mended(core: &mut Core, push: Push)
    requires next { IsNextMend core.old push }
    requires other { IsOnReplica push }
    ensures mended { core.new ≡ mended_data core.old push }
    ensures valid { IsCore core.new }
{
    match push {
        Push::Head(next) => mended_head(core, next),
        Push::Repair(segment, replica) => repair(core, segment, replica),
        Push::Turn => unreachable!(),
        Push::Raise(_) => unreachable!(),
    }
}

/// The same of a push of the head or of a new head.
fn mended_head(core: &mut Core, next: Next)
    requires next { IsNextMend core.old (push.Head next) }
    ensures mended { core.new ≡ mended_data core.old (push.Head next) }
    ensures valid { IsCore core.new }
{
    match next {
        Next::Extend(replica) => extend(core, replica),
        Next::OpenWhole(replica) => replace(core, replica),
        Next::OpenNew(replica) => opened(core, replica),
        Next::OpenFirst(replica) => opened(core, replica),
        Next::CloseOld(replica) => close(core, replica),
    }
}

/// Returns how many pushes the open failover still needs, at most. 0 means that no failover is open. For R replicas
/// and logs of up to L segments the answer is never above R * (L + 2) + 1.
pub fn failover_left(core: &Core) -> u64
    ensures left { result ≡ left_now core.now }
    ensures none { (core.now.failover ≡ None) ↔ (result ≡ 0) }
    ensures few { result ≤ core.now.config.replicas * (most_segments core.now.config + 2) + 1 }
{
    core.show_valid();
    left(core)
}

// ---- which comes next

/// Returns the next push while the replicas of the head are mended.
fn next_of_head(core: &Core, is_first: bool) -> Push
    requires part { IsInPart core.now part.Mends }
    requires first { is_first ≡ was_headless core.now }
    ensures { IsNextMend core.now result }
{
    if is_first {
        return Push::Turn;
    }
    if let Some(replica) = core.head.lagging() {
        return Push::Head(Next::Extend(replica));
    }
    let opened = core.head.opened();
    if opened < core.config.replicas as usize {
        return Push::Head(Next::OpenWhole(opened));
    }
    Push::Turn
}

/// Returns the next push while the new head is opened.
fn next_of_opening(core: &Core) -> Push
    requires { IsInPart core.now part.Opens }
    ensures { IsNextMend core.now result }
{
    let opened = opened_now(core);
    let replicas = core.config.replicas as usize;
    if opened < replicas {
        return next_open(core, opened);
    }
    Push::Raise(new_id(core))
}

/// Returns the push that opens one more replica of the new head: that of the roll, or else the first head.
fn next_open(core: &Core, opened: usize) -> Push
    requires { IsNextOpen core.now opened }
    ensures { IsNextMend core.now result }
{
    match core.head.roll() {
        Some(_) => Push::Head(Next::OpenNew(opened)),
        None => Push::Head(Next::OpenFirst(opened)),
    }
}

/// Returns how many replicas of the new head are open.
fn opened_now(core: &Core) -> usize
    ensures { result ≡ opened_now core.now }
{
    match core.head.roll() {
        Some(roll) => roll.opened,
        None => core.head.opened(),
    }
}

/// Returns the number of the new head.
fn new_id(core: &Core) -> u64
    ensures { result ≡ new_id core.now }
{
    match core.head.roll() {
        Some(roll) => roll.id,
        None => core.head.id(),
    }
}

/// Returns the next push while the old head is closed.
fn next_of_closing(core: &Core) -> Push
    requires { IsInPart core.now part.Closes }
    ensures { IsNextMend core.now result }
{
    let Some(roll) = core.head.roll() else {
        unreachable!()
    };
    Push::Head(Next::CloseOld(roll.closed))
}

/// Returns the next push while lost replicas are sealed anew.
fn next_repair(core: &Core) -> Push
    requires { IsInPart core.now part.Repairs }
    ensures { IsNextMend core.now result }
{
    core.show_valid();
    let Some((segment, replica)) = lost_first(core) else {
        unreachable!()
    };
    Push::Repair(segment, replica)
}

/// Returns the first segment of the digest in force that lacks a replica, and how many replicas it has.
fn lost_first(core: &Core) -> Option<(u64, usize)>
    ensures { result ≡ first_lost core.now }
{
    first_lost(
        core.head.image(),
        &core.closed,
        core.config.replicas as usize,
    )
}

// ---- what it makes of a core

/// Counts and posts that a replica of the head took all units that it lacked.
fn extend(core: &mut Core, replica: usize)
    requires { IsNextMend core.old (push.Head (next.Extend replica)) }
    ensures extended { core.new ≡ mended_data core.old (push.Head (next.Extend replica)) }
    ensures valid { IsCore core.new }
{
    let id = core.head.id();
    let backup = core.home(id, replica);
    core.post_push(Next::Extend(replica), id, backup);
    core.head.extend(replica);
}

/// Counts and posts that the replacement of the head's lost replica is open.
fn replace(core: &mut Core, replica: usize)
    requires { IsNextMend core.old (push.Head (next.OpenWhole replica)) }
    ensures replaced { core.new ≡ mended_data core.old (push.Head (next.OpenWhole replica)) }
    ensures valid { IsCore core.new }
{
    let id = core.head.id();
    let backup = core.home(id, replica);
    core.post_push(Next::OpenWhole(replica), id, backup);
    core.head.open_whole();
}

/// Counts and posts that one more replica of the new head is open.
pub fn opened(core: &mut Core, replica: usize)
    requires { IsNextOpen core.old replica }
    ensures opened { core.new ≡ opened_more core.old replica }
    ensures valid { IsCore core.new }
{
    let id = new_id(core);
    let backup = core.home(id, replica);
    core.post(&Posting::Took(id, backup));
    if core.head.roll().is_some() {
        core.head.open_new();
    } else {
        core.head.open();
    }
}

/// Counts that the registry was raised to the new head. If there is an old head, the failover goes on with its Closes.
/// Otherwise the new head is in force, and the failover has ended.
pub fn raised(core: &mut Core)
    requires { (id : ℕ) × IsNextPushOf core.old (Some (push.Raise id)) }
    ensures raised { core.new ≡ raised_data core.old }
    ensures valid { IsCore core.new }
{
    if core.head.roll().is_some() {
        go_on(&mut core.failover, Part::Closes);
        return;
    }
    core.post(&Posting::Ended);
    core.failover = None;
    core.abandoned = Abandoned::none();
}

/// Lets an open failover go on with this part.
fn go_on(failover: &mut Option<Failover>, part: Part)
    ensures { failover.new ≡ option_map (λ (f : FailoverValue). record f { part = part }) failover.old }
{
    if let Some(failover) = failover {
        failover.part = part;
    }
}

/// Ends an open failover if no replica is lost any more.
fn end_if(failover: &mut Option<Failover>, is_whole: bool)
    ensures { failover.new ≡ (if is_whole then None else failover.old) }
{
    if is_whole {
        *failover = None;
    }
}

/// Counts and posts that one more replica of the old head is closed. The last Close puts the new head in force. The
/// failover goes on with its Seals then, or has ended if no replica is lost.
fn close(core: &mut Core, replica: usize)
    requires { IsNextMend core.old (push.Head (next.CloseOld replica)) }
    ensures closed { IfSome core.old.head.roll (λ (r : RollValue). core.new ≡ closed_more core.old replica r) }
    ensures valid { IsCore core.new }
{
    let id = core.head.id();
    let replicas = core.config.replicas as usize;
    let backup = core.home(id, replica);
    core.post(&Posting::Shut(backup));
    let Some(image) = core.head.close_old() else {
        return;
    };
    core.closed.add_closed(id, image, replicas);
    core.tallies.clear();
    end_pass(&mut core.pass, &mut core.closed, &mut core.waiting);
    core.ledger = Ledger::with(&core.ledger, &Posting::Ended);
    core.abandoned = Abandoned::none();
    go_on(&mut core.failover, Part::Repairs);
    let is_whole = first_lost(core.head.image(), &core.closed, replicas).is_none();
    end_if(&mut core.failover, is_whole);
}

/// Counts and posts that a lost replica was sealed anew. The last of these Seals ends the failover.
fn repair(core: &mut Core, segment: u64, replica: usize)
    requires { IsNextMend core.old (push.Repair segment replica) }
    ensures repaired { core.new ≡ sealed_anew core.old segment replica }
    ensures valid { IsCore core.new }
{
    let replicas = core.config.replicas as usize;
    let backup = core.home(segment, replica);
    core.post(&Posting::Took(segment, backup));
    core.closed.add_replica(segment);
    let is_whole = first_lost(core.head.image(), &core.closed, replicas).is_none();
    end_if(&mut core.failover, is_whole);
}
