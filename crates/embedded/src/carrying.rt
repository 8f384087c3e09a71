//! A command from its first try to its reply, over a master with any fleet.

ghost use Rattle.std.specs.Prelude.{◌≡◌, ◌<◌, ◌≤◌, [], length, true, false};
ghost use Rattle.std.specs.Option.{option_map};
ghost use Rattle.history.specs.View.{shown_command, shown_reply};
ghost use Rattle.versioned_map.specs.declared.command.Reply.{Reply as MapReply};
ghost use Rattle.recovery.specs.driving.Served.{LivesOn};
ghost use Rattle.recovery.specs.master.Valid.{IsValid};
ghost use Rattle.embedded.specs.Replies.{IsReadAt, Means, answered, kept_reply};
ghost use Rattle.embedded.specs.Tries.{HasTried, MayForget};

use crate::reply::Reply;
use recovery::driving::{roll_all, serve};
use recovery::master::{CommandRef, Master, Refusal, ReplyRef};
use replica::Fleet;
use tending::{Notes, Policy, make_room, tend_behind};

/// The most tries of a command. Each of them but the last is followed by a roll or gives back a seglet.
const MOST_TRIES: u64 = 131_072;

/// How many steps the cleaner makes behind a command.
const STEPS: u64 = 32;

/// More records than this are kept before a master forgets.
const BLOCK: usize = 1_024;

/// What came of a try.
#[derive(Clone, Copy)]
pub(crate) enum Tried {
    /// The record is at this place, and is durable.
    Done(u64),
    /// There is no record.
    Refused(Refusal),
    /// The record is at this place, and a push of it was refused.
    Unsure(u64, Refusal),
}

/// How many records the history has, forgotten ones too.
pub(crate) fn count<F: Fleet>(master: &Master<F>) -> u64
    ensures { result ≡ length master.now.knows.history }
{
    master.history().len() as u64
}

/// Whether the history has more records than so many.
fn has_more<F: Fleet>(master: &Master<F>, records: u64) -> bool
    ensures more { result ≡ true → records < length master.now.knows.history }
    ensures no_more { result ≡ false → length master.now.knows.history ≤ records }
{
    count(master) > records
}

/// Tries a command once: it is applied, and pushed until its record is durable.
fn try_once<F: Fleet>(master: &mut Master<F>, command: &CommandRef<'_>) -> Tried
    ensures { HasTried master.old.knows (shown_command command.now) result master.new.knows }
{
    let before = count(master);
    match serve(master, command) {
        Ok(place) => Tried::Done(place),
        Err(refusal) => {
            if has_more(master, before) {
                Tried::Unsure(before, refusal)
            } else {
                Tried::Refused(refusal)
            }
        }
    }
}

/// Makes one round of the cleaner, and answers whether it gave back seglets.
fn gain<F: Fleet>(master: &mut Master<F>, notes: &mut Notes) -> bool
    ensures { LivesOn master.old.knows master.new.knows [] }
{
    let policy = Policy::of(master.config());
    match make_room(master, &policy, notes) {
        Ok(gained) => gained,
        Err(_) => false,
    }
}

/// Makes the roll or the room that a refused command waits for. The error is why it can't.
fn make_way<F: Fleet>(
    master: &mut Master<F>,
    notes: &mut Notes,
    refusal: Refusal,
) -> Result<(), Refusal>
    ensures { LivesOn master.old.knows master.new.knows [] }
{
    match refusal {
        Refusal::Rolling => match roll_all(master) {
            Ok(()) => Ok(()),
            Err(other) => make_room_for(master, notes, other),
        },
        other => make_room_for(master, notes, other),
    }
}

/// Makes the room that is wanted. The error is why it can't.
fn make_room_for<F: Fleet>(
    master: &mut Master<F>,
    notes: &mut Notes,
    refusal: Refusal,
) -> Result<(), Refusal>
    ensures { LivesOn master.old.knows master.new.knows [] }
{
    match refusal {
        Refusal::Full => {
            if gain(master, notes) {
                Ok(())
            } else {
                Err(Refusal::Full)
            }
        }
        other => Err(other),
    }
}

/// Tries a command, makes the rolls and the room that it waits for, and tries it again, until it has a record or is
/// refused for good.
fn try_all<F: Fleet>(master: &mut Master<F>, notes: &mut Notes, command: &CommandRef<'_>) -> Tried
    ensures { HasTried master.old.knows (shown_command command.now) result master.new.knows }
{
    for _ in 0..MOST_TRIES {
        match try_once(master, command) {
            Tried::Done(place) => return Tried::Done(place),
            Tried::Unsure(place, refusal) => return Tried::Unsure(place, refusal),
            Tried::Refused(refusal) => {
                if let Err(last) = make_way(master, notes, refusal) {
                    return Tried::Refused(last);
                }
            }
        }
    }
    Tried::Refused(Refusal::Full)
}

/// Lets a master that keeps more than 1,024 records forget its durable ones, by blocks.
fn forget<F: Fleet>(master: &mut Master<F>)
    ensures { MayForget master.old.knows master.new.knows }
{
    if master.history().kept() <= BLOCK {
        return;
    }
    let records = count(master);
    master.forget(records);
}

/// The reply of the record at this place, unless it is forgotten.
pub(crate) fn lent_reply<F: Fleet>(master: &Master<F>, place: u64) -> Option<ReplyRef<'_>>
    ensures { option_map shown_reply result ≡ kept_reply master.entry.now.knows place }
{
    master.history().reply(place as usize)
}

/// The answer to a command whose record is at this place.
fn reply_at<F: Fleet>(master: &Master<F>, place: u64) -> Reply
    requires { (reply : MapReply) × IsReadAt master.now.knows place reply }
    ensures { (reply : MapReply) → IsReadAt master.now.knows place reply → result ≡ answered place reply }
{
    match lent_reply(master, place) {
        Some(reply) => Reply::answered(place, &reply),
        None => unreachable!(),
    }
}

/// The reply to a command that was tried to its end.
fn reply_to<F: Fleet>(master: &mut Master<F>, notes: &mut Notes, command: &CommandRef<'_>) -> Reply
    ensures { Means master.old.knows (shown_command command.now) result master.new.knows }
{
    master.show_valid();
    match try_all(master, notes, command) {
        Tried::Done(place) => reply_at(master, place),
        Tried::Refused(refusal) => Reply::refused(&refusal),
        Tried::Unsure(place, refusal) => Reply::unsure(place, &refusal),
    }
}

/// Makes a few steps of the cleaner, and none behind a compaction unless memory is tight. If one is refused, what was
/// done stays done.
fn clean_a_little<F: Fleet>(master: &mut Master<F>, notes: &mut Notes)
    ensures { LivesOn master.old.knows master.new.knows [] }
{
    let policy = Policy::of(master.config());
    let _ = tend_behind(master, &policy, notes, STEPS);
}

/// Carries a command out: it is applied and pushed until its record is durable. If it has to wait for a roll, or
/// finds no room, the roll is made and the cleaner makes room, and it is tried again. Before it the master forgets
/// old records, and behind it the cleaner makes up to 32 steps, and none behind a compaction unless memory is tight.
/// Nothing of that makes a record, so the reply says all that became of the history.
pub fn carry_out<F: Fleet>(
    master: &mut Master<F>,
    notes: &mut Notes,
    command: &CommandRef<'_>,
) -> Reply
    ensures means { Means master.old.knows (shown_command command.now) result master.new.knows }
    ensures valid { IsValid master.new.knows (F.state master.new.fleet) }
{
    forget(master);
    let reply = reply_to(master, notes, command);
    clean_a_little(master, notes);
    master.show_valid();
    reply
}
