//! The tests of a command: which test refuses it, and what they find.

ghost use Rattle.std.specs.Prelude.{◌≡◌, None, Some, IfOk, IfErr, IfSome};
ghost use Rattle.std.specs.Result.{result_err};
ghost use Rattle.entry.specs.View.{shown_object};
ghost use Rattle.master_state.specs.compactor.Places.{object_there};
ghost use Rattle.places.specs.declared.place.Place.{Place as PlaceValue};
ghost use Rattle.places.specs.Hashing.{hash_of};
ghost use Rattle.versioned_map.specs.Command.{command_key};
ghost use Rattle.history.specs.View.{shown_command};
ghost use Rattle.master_state.specs.Causes.{early_refusal, unit_refusal, command_refusal, is_overcommitted, live_now};
ghost use Rattle.master_state.specs.Causes.{unit_now};
ghost use Rattle.master_state.specs.Live.{bytes_of};
ghost use Rattle.master_state.specs.Index.{segment_at, place_found, object_found};
ghost use Rattle.master_state.specs.Log.{held_now, find, images_of};
ghost use Rattle.master_commands.specs.Change.{version_in, had_now, IsChangeNow, IsJudged, IsSought, IsPresent};

use crate::change::{Change, Judged, change_of, is_longer, is_too_big, segments_for};
use crate::index::find_object;
use crate::unit::unit_len;
use entry::{OBJECT_LEN, ObjectRef, Version};
use hash_index::{Held, Place};
use history::{CommandRef, key_of};
use master_state::{Core, Refusal};

/// Makes the tests that come before the key is looked up. The first failing test gives the refusal.
fn admit(core: &Core, command: &CommandRef<'_>) -> Result<(), Refusal>
    ensures { result_err result ≡ early_refusal core.now (shown_command command.now) }
{
    if core.is_halted {
        return Err(Refusal::Halted);
    }
    if is_too_big(command, core.config.segment) || is_longer(command, core.config.largest) {
        return Err(Refusal::TooBig);
    }
    if !core.config.tablets.have(&key_of(command)) {
        return Err(Refusal::NoTablet);
    }
    if core.history.kept() as u64 >= core.config.history {
        return Err(Refusal::HistoryFull);
    }
    Ok(())
}

/// Tests if the unit of a change can be appended. A change without a unit passes. The refusal is Rolling if the head
/// isn't open, a failover is open, or a roll has to come first. The refusal is Full if the unit doesn't fit the head
/// and no roll may begin for the command.
fn fit(core: &Core, command: &CommandRef<'_>, change: &Change) -> Result<(), Refusal>
    ensures { IsChangeNow core.now (shown_command command.now) change.now →
        result_err result ≡ unit_refusal core.now (shown_command command.now)
        (unit_now core.now (shown_command command.now)) }
{
    if change.is_nothing() {
        return Ok(());
    }
    if !core.is_working() {
        return Err(Refusal::Rolling);
    }
    let limit = core.config.segment as usize;
    if core.head.fits(unit_len(command, change), limit) {
        return Ok(());
    }
    if core.may_roll(segments_for(command)) {
        return Err(Refusal::Rolling);
    }
    Err(Refusal::Full)
}

/// The place and the object of the command's key, which has this hash, or None if the key has no object.
#[inline(always)]
fn look_up<'a>(
    core: &'a Core,
    hash: u64,
    command: &CommandRef<'_>,
) -> Option<(Place, ObjectRef<'a>)>
    requires { hash ≡ hash_of core.now.index.seed (command_key (shown_command command.now)) }
    ensures place { place_found result ≡ find core.entry.now (command_key (shown_command command.now)) }
    ensures object { object_found result ≡ held_now core.entry.now (shown_command command.now) }
    ensures there { IfSome result (λ found.
        object_there (images_of core.entry.now) found.0 ≡ Some (shown_object found.1)) }
{
    find_object(
        &core.head,
        &core.closed,
        &core.index,
        hash,
        &key_of(command),
    )
}

/// The place that was found, or offset 0 of segment 0 if none was found.
fn place_of(found: &Option<(Place, ObjectRef<'_>)>) -> Place
    ensures segment { result.segment ≡ segment_at (place_found found.now) }
    ensures place { (p : PlaceValue) → place_found found.now ≡ Some p → result ≡ p }
{
    match found {
        None => Place { segment: 0, at: 0 },
        Some((place, _)) => *place,
    }
}

/// The version of the object that was found, if any.
fn version_of(found: &Option<(Place, ObjectRef<'_>)>) -> Option<Version>
    ensures { result ≡ version_in (object_found found.now) }
{
    match found {
        None => None,
        Some((_, object)) => Some(object.version),
    }
}

/// Returns true if so many bytes of live objects are more than the limit, and more than there are.
fn is_overcommitted(core: &Core, live: u64) -> bool
    ensures { result ≡ is_overcommitted core.now live }
{
    core.config.most_live < live && core.live < live
}

/// The bytes of the object that was found, which has the command's key; 0 if there is none.
fn bytes_of(command: &CommandRef<'_>, found: &Option<(Place, ObjectRef<'_>)>) -> u64
    ensures { result ≡ bytes_of (command_key (shown_command command.now)) (object_found found.now) }
{
    match found {
        None => 0,
        Some((_, object)) => {
            (OBJECT_LEN + key_of(command).bytes.len() + object.value.len()) as u64
        }
    }
}

/// Makes all tests of a command, in order. Returns what they found, and the place and the object of the command's key.
#[inline(always)]
pub(crate) fn judge<'a>(
    core: &'a Core,
    command: &CommandRef<'_>,
) -> Result<(Judged, Option<(Place, ObjectRef<'a>)>), Refusal>
    ensures passed { IfOk result (λ _. command_refusal core.entry.now (shown_command command.now) ≡ None) }
    ensures judged { IfOk result (λ found.
        IsJudged core.entry.now (shown_command command.now) found.0.change found.0.held.place.segment) }
    ensures had { IfOk result (λ found. found.0.had ≡ had_now core.entry.now (shown_command command.now)) }
    ensures live { IfOk result (λ found. found.0.live ≡ live_now core.entry.now (shown_command command.now)) }
    ensures sought { IfOk result (λ found.
        IsSought core.entry.now (command_key (shown_command command.now)) found.0.held) }
    ensures object { IfOk result (λ found. object_found found.1 ≡ held_now core.entry.now (shown_command command.now)) }
    ensures present { IfOk result (λ found.
        IsPresent core.entry.now (shown_command command.now) found.0.present found.0.held.place) }
    ensures refused { IfErr result (λ r. command_refusal core.entry.now (shown_command command.now) ≡ Some r) }
{
    admit(core, command)?;
    let hash = core.index.hash(&key_of(command));
    let found = look_up(core, hash, command);
    let Ok(change) = change_of(command, core.safe, version_of(&found)) else {
        return Err(Refusal::VersionsSpent);
    };
    let had = bytes_of(command, &found);
    let live = change.live_after(core.live, had, command);
    if is_overcommitted(core, live) {
        return Err(Refusal::Overcommit);
    }
    fit(core, command, &change)?;
    let place = place_of(&found);
    let held = Held { hash, place };
    let judged = Judged {
        change,
        held,
        present: version_of(&found),
        had,
        live,
    };
    Ok((judged, found))
}

/// Makes all tests of a command, in order. Returns what they found, without a borrow of the core.
pub(crate) fn weigh(core: &Core, command: &CommandRef<'_>) -> Result<Judged, Refusal>
    ensures passed { IfOk result (λ _. command_refusal core.now (shown_command command.now) ≡ None) }
    ensures judged { IfOk result (λ judged.
        IsJudged core.now (shown_command command.now) judged.change judged.held.place.segment) }
    ensures had { IfOk result (λ judged. judged.had ≡ had_now core.now (shown_command command.now)) }
    ensures live { IfOk result (λ judged. judged.live ≡ live_now core.now (shown_command command.now)) }
    ensures sought { IfOk result (λ judged.
        IsSought core.now (command_key (shown_command command.now)) judged.held) }
    ensures present { IfOk result (λ judged.
        IsPresent core.now (shown_command command.now) judged.present judged.held.place) }
    ensures refused { IfErr result (λ r. command_refusal core.now (shown_command command.now) ≡ Some r) }
{
    match judge(core, command) {
        Ok((judged, _)) => Ok(judged),
        Err(refusal) => Err(refusal),
    }
}
