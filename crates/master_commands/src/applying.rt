//! How a command is applied to a core.

ghost use Rattle.std.specs.Prelude.{◌⊎◌, ◌≡◌, None, Some, IfOk, IfErr, OnOk, OnErr};
ghost use Rattle.std.specs.Result.{result_err};
ghost use Rattle.history.specs.View.{shown_command, shown_reply, shown_record};
ghost use Rattle.master_state.specs.Causes.{command_refusal, live_now};
ghost use Rattle.master_state.specs.Index.{object_found};
ghost use Rattle.master_state.specs.Invariant.{IsCore};
ghost use Rattle.master_state.specs.Steps.{Applies, AppliesAs, MayApplyNow, reply_now, record_now, IsFound};
ghost use Rattle.master_commands.specs.Change.{IsJudged, IsSought, IsPresent, IsNoGet, RepliesTo, RepliesFound};
ghost use Rattle.master_commands.specs.Change.{version_in, had_now};
ghost use Rattle.versioned_map.specs.Command.{command_key};

use crate::change::Judged;
use crate::counting::count;
use crate::getting::add_get;
use crate::judging::{judge, weigh};
use crate::unit::enact;
use entry::{NoMemory, ObjectRef, Value};
use hash_index::Place;
use history::{CommandRef, RecordRef, replies_have_one_value, view_command, view_reply};
use master_state::{Core, Refusal, StepAnswer};
use std::alloc::Global;
use versioned_map::{Command, Reply};

/// Returns the refusal that the first failing test would give this command, or Ok if the command passes all tests.
/// Want of memory is not tested.
pub fn would(core: &Core, command: &Command) -> Result<(), Refusal>
    ensures { result_err result ≡ command_refusal core.now command.now }
{
    match judge(core, &view_command(command)) {
        Ok(_) => Ok(()),
        Err(refusal) => Err(refusal),
    }
}

/// Returns the reply to a command that no test refuses, and changes nothing. Only a reply with a value takes
/// memory, so only such a reply can be refused.
pub fn answer_to(core: &Core, command: &Command) -> Result<Reply, NoMemory>
    requires { command_refusal core.now command.now ≡ None }
    ensures reply { IfOk result (λ reply. reply ≡ reply_now core.now command.now) }
    ensures refused { OnErr result (IsFound (reply_now core.now command.now)) }
{
    match judge(core, &view_command(command)) {
        Ok((judged, found)) => { reply_from(core.alloc, &view_command(command), &judged, &found) }
        Err(_) => unreachable!(),
    }
}

/// Applies a command of this seat: adds its record and its unit, and returns the record's place and the reply. If a
/// test refuses the command or memory runs out, nothing changes.
pub fn apply(core: &mut Core, seat: u64, command: Command) -> Result<StepAnswer, Refusal>
    ensures applied { IfOk result (λ answer. Applies core.old seat command answer core.new) }
    ensures may { OnOk result (MayApplyNow core.old seat command) }
    ensures valid { OnOk result (IsCore core.new) }
    ensures refused { IfErr result (λ r. (command_refusal core.old command ≡ Some r)
        ⊎ ((command_refusal core.old command ≡ None) × (r ≡ Refusal.NoMemory))) }
    ensures err { OnErr result (core.new ≡ core.old) }
{
    let (place, reply) = answer(core, seat, &view_command(&command))?;
    Ok(StepAnswer::Applied(place, reply))
}

/// Applies a command as `apply` does, but borrows the command. Returns the place of its record and the reply.
pub fn answer(core: &mut Core, seat: u64, command: &CommandRef<'_>) -> Result<(u64, Reply), Refusal>
    ensures applied { IfOk result (λ answer.
        Applies core.old seat (shown_command command.now) (StepAnswer.Applied answer.0 answer.1) core.new) }
    ensures may { OnOk result (MayApplyNow core.old seat (shown_command command.now)) }
    ensures valid { OnOk result (IsCore core.new) }
    ensures refused { IfErr result (λ r. (command_refusal core.old (shown_command command.now) ≡ Some r)
        ⊎ ((command_refusal core.old (shown_command command.now) ≡ None) × (r ≡ Refusal.NoMemory))) }
    ensures err { OnErr result (core.new ≡ core.old) }
{
    let (judged, reply) = consider(core, command)?;
    let accepted = RecordRef {
        seat,
        command: *command,
        reply: view_reply(&reply),
    };
    let place = add(core, &accepted, &judged)?;
    Ok((place, reply))
}

/// Applies a command as `answer` does, and returns only the place of its record. The record has the reply. Nothing
/// is copied except to the unit and to the record.
pub fn accept(core: &mut Core, seat: u64, command: &CommandRef<'_>) -> Result<u64, Refusal>
    ensures accepted { IfOk result (λ place.
        AppliesAs core.old (record_now core.old seat (shown_command command.now)) place core.new) }
    ensures may { OnOk result (MayApplyNow core.old seat (shown_command command.now)) }
    ensures valid { OnOk result (IsCore core.new) }
    ensures refused { IfErr result (λ r. (command_refusal core.old (shown_command command.now) ≡ Some r)
        ⊎ ((command_refusal core.old (shown_command command.now) ≡ None) × (r ≡ Refusal.NoMemory))) }
    ensures err { OnErr result (core.new ≡ core.old) }
{
    match weigh(core, command) {
        Ok(judged) => Ok(add_judged(core, seat, command, &judged)?),
        Err(refusal) => Err(refusal),
    }
}

/// Makes all tests of a command. Returns what they found, and the reply.
fn consider(core: &Core, command: &CommandRef<'_>) -> Result<(Judged, Reply), Refusal>
    ensures passed { IfOk result (λ _. command_refusal core.now (shown_command command.now) ≡ None) }
    ensures judged { IfOk result (λ considered.
        IsJudged core.now (shown_command command.now) considered.0.change considered.0.held.place.segment) }
    ensures had { IfOk result (λ considered. considered.0.had ≡ had_now core.now (shown_command command.now)) }
    ensures live { IfOk result (λ considered. considered.0.live ≡ live_now core.now (shown_command command.now)) }
    ensures sought { IfOk result (λ considered.
        IsSought core.now (command_key (shown_command command.now)) considered.0.held) }
    ensures reply { IfOk result (λ considered. considered.1 ≡ reply_now core.now (shown_command command.now)) }
    ensures refused { IfErr result (λ r. (command_refusal core.now (shown_command command.now) ≡ Some r)
        ⊎ ((command_refusal core.now (shown_command command.now) ≡ None) × (r ≡ Refusal.NoMemory))) }
{
    match judge(core, command) {
        Err(refusal) => Err(refusal),
        Ok((judged, found)) => {
            let reply = reply_from(core.alloc, command, &judged, &found)?;
            Ok((judged, reply))
        }
    }
}

/// Adds the record of a command that passed all tests, and appends the unit of its change. Returns the place of the
/// record. On `Err` the core is as it was.
fn add(core: &mut Core, accepted: &RecordRef<'_>, judged: &Judged) -> Result<u64, NoMemory>
    requires passed { command_refusal core.old (shown_command accepted.now.command) ≡ None }
    requires judged { IsJudged core.old (shown_command accepted.now.command) judged.now.change
        judged.now.held.place.segment }
    requires sought { IsSought core.old (command_key (shown_command accepted.now.command)) judged.now.held }
    requires had { judged.now.had ≡ had_now core.old (shown_command accepted.now.command) }
    requires live { judged.now.live ≡ live_now core.old (shown_command accepted.now.command) }
    requires reply { shown_reply accepted.now.reply ≡ reply_now core.old (shown_command accepted.now.command) }
    ensures added { IfOk result (λ place. AppliesAs core.old
        (record_now core.old accepted.now.seat (shown_command accepted.now.command)) place core.new) }
    ensures may { OnOk result (MayApplyNow core.old accepted.now.seat (shown_command accepted.now.command)) }
    ensures valid { OnOk result (IsCore core.new) }
    ensures refused { OnErr result (core.new ≡ core.old) }
{
    let place = core.history.len() as u64;
    enact(
        &mut core.head,
        &mut core.index,
        &mut core.history,
        place,
        accepted.byte_len(),
        &accepted.command,
        judged,
        core.config.segment as usize,
    )?;
    let head = core.head.id();
    count(&mut core.tallies, head, &accepted.command, judged);
    core.safe = judged.change.safe_after(core.safe);
    core.live = judged.live;
    replies_have_one_value();
    core.history.push(accepted);
    Ok(place)
}

/// Adds a put or a delete that passed all tests, with the reply that follows from its change. Returns the place of the
/// record.
#[inline(always)]
fn add_change(
    core: &mut Core,
    seat: u64,
    command: &CommandRef<'_>,
    judged: &Judged,
) -> Result<u64, NoMemory>
    requires no_get { IsNoGet (shown_command command.now) }
    requires passed { command_refusal core.old (shown_command command.now) ≡ None }
    requires judged { IsJudged core.old (shown_command command.now) judged.now.change judged.now.held.place.segment }
    requires sought { IsSought core.old (command_key (shown_command command.now)) judged.now.held }
    requires had { judged.now.had ≡ had_now core.old (shown_command command.now) }
    requires live { judged.now.live ≡ live_now core.old (shown_command command.now) }
    requires present { IsPresent core.old (shown_command command.now) judged.now.present judged.now.held.place }
    ensures added { IfOk result (λ place.
        AppliesAs core.old (record_now core.old seat (shown_command command.now)) place core.new) }
    ensures may { OnOk result (MayApplyNow core.old seat (shown_command command.now)) }
    ensures valid { OnOk result (IsCore core.new) }
    ensures refused { OnErr result (core.new ≡ core.old) }
{
    let reply = judged.change.reply(command, judged.present);
    let accepted = RecordRef {
        seat,
        command: *command,
        reply: view_reply(&reply),
    };
    add(core, &accepted, judged)
}

/// Adds a command that passed all tests, with its reply. Returns the place of its record.
fn add_judged(
    core: &mut Core,
    seat: u64,
    command: &CommandRef<'_>,
    judged: &Judged,
) -> Result<u64, NoMemory>
    requires passed { command_refusal core.old (shown_command command.now) ≡ None }
    requires judged { IsJudged core.old (shown_command command.now) judged.now.change judged.now.held.place.segment }
    requires sought { IsSought core.old (command_key (shown_command command.now)) judged.now.held }
    requires had { judged.now.had ≡ had_now core.old (shown_command command.now) }
    requires live { judged.now.live ≡ live_now core.old (shown_command command.now) }
    requires present { IsPresent core.old (shown_command command.now) judged.now.present judged.now.held.place }
    ensures added { IfOk result (λ place.
        AppliesAs core.old (record_now core.old seat (shown_command command.now)) place core.new) }
    ensures may { OnOk result (MayApplyNow core.old seat (shown_command command.now)) }
    ensures valid { OnOk result (IsCore core.new) }
    ensures refused { OnErr result (core.new ≡ core.old) }
{
    match command {
        CommandRef::Get(key) => add_get(core, seat, key, judged),
        CommandRef::Put(_, _, _) => add_change(core, seat, command, judged),
        CommandRef::Delete(_) => add_change(core, seat, command, judged),
    }
}

/// Makes the reply to a command whose key has the object that was found, or none. Only a reply with a value takes
/// memory.
fn reply_from(
    alloc: Global,
    command: &CommandRef<'_>,
    judged: &Judged,
    found: &Option<(Place, ObjectRef<'_>)>,
) -> Result<Reply, NoMemory>
    ensures reply { IfOk result (λ reply. version_in (object_found found.now) ≡ judged.now.present →
        RepliesTo (object_found found.now) (shown_command command.now) judged.now.change reply) }
    ensures refused { OnErr result
        (RepliesFound (object_found found.now) (shown_command command.now) judged.now.change) }
{
    match command {
        CommandRef::Get(_) => match found {
            None => Ok(Reply::None),
            Some((_, object)) => {
                let value = Value::from_slice(alloc, object.value)?;
                Ok(Reply::Found(object.version, value))
            }
        },
        CommandRef::Put(_, _, _) => Ok(judged.change.reply(command, judged.present)),
        CommandRef::Delete(_) => Ok(judged.change.reply(command, judged.present)),
    }
}
