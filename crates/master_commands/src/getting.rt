//! How a get is added. A get changes the history alone, and neither the head nor the index.

ghost use Rattle.std.specs.Prelude.{◌≡◌, ◌∷◌, ◌++◌, [], None, IfOk, OnOk, OnErr};
ghost use Rattle.entry.specs.View.{shown_key};
ghost use Rattle.history.specs.View.{shown_reply};
ghost use Rattle.versioned_map.specs.Versioned.{found};
ghost use Rattle.master_state.specs.Causes.{command_refusal};
ghost use Rattle.master_state.specs.Images.{images_among};
ghost use Rattle.master_state.specs.Invariant.{IsCore};
ghost use Rattle.master_state.specs.Steps.{AppliesAs, MayApplyNow, record_now};
ghost use Rattle.master_commands.specs.Change.{IsPresent, found_at};

use crate::change::Judged;
use crate::index::object_there;
use entry::{KeyRef, NoMemory};
use history::{CommandRef, History, RecordRef, ReplyRef, ValueRef};
use images::Images;
use log_head::Head;
use master_state::Core;
use versioned_map::Command;

/// Adds a get that passed all tests, with the version and the value that its key has. The value is copied from its
/// image to the record. Returns the place of the record.
pub(crate) fn add_get(
    core: &mut Core,
    seat: u64,
    key: &KeyRef<'_>,
    judged: &Judged,
) -> Result<u64, NoMemory>
    requires passed { command_refusal core.old (Command.Get (shown_key key.now)) ≡ None }
    requires present { IsPresent core.old (Command.Get (shown_key key.now)) judged.now.present judged.now.held.place }
    ensures added { IfOk result (λ place.
        AppliesAs core.old (record_now core.old seat (Command.Get (shown_key key.now))) place core.new) }
    ensures may { OnOk result (MayApplyNow core.old seat (Command.Get (shown_key key.now))) }
    ensures valid { OnOk result (IsCore core.new) }
    ensures refused { OnErr result (core.new ≡ core.old) }
{
    let place = core.history.len() as u64;
    record_get(
        &core.head,
        &core.closed,
        &mut core.history,
        seat,
        key,
        judged,
    )?;
    Ok(place)
}

/// Adds the record of a get to the history. The object of the key, if there is one, lies at the place that the tests
/// found.
fn record_get<'a>(
    head: &'a Head,
    closed: &'a Images,
    history: &mut History,
    seat: u64,
    key: &KeyRef<'_>,
    judged: &Judged,
) -> Result<(), NoMemory>
    ensures added { let images = images_among head.now closed.now.images in
        OnOk result (history.new.records ≡ history.old.records ++ record {
          seat = seat;
          command = Command.Get (shown_key key.now);
          reply = found (found_at images judged.now.present judged.now.held.place);
        } ∷ []) }
    ensures forgotten { history.new.forgotten ≡ history.old.forgotten }
    ensures refused { OnErr result (history.new.records ≡ history.old.records) }
{
    let accepted = RecordRef {
        seat,
        command: CommandRef::Get(*key),
        reply: reply_at(head, closed, judged),
    };
    history.reserve(accepted.byte_len())?;
    history.push(&accepted);
    Ok(())
}

/// The reply to a get: the object at the place that the tests found, or None if the key has no object. The value isn't
/// copied.
fn reply_at<'a>(head: &'a Head, closed: &'a Images, judged: &Judged) -> ReplyRef<'a>
    ensures { let images = images_among head.entry.now closed.entry.now.images in
        shown_reply result ≡ found (found_at images judged.now.present judged.now.held.place) }
{
    match judged.present {
        None => ReplyRef::None,
        Some(_) => match object_there(head, closed, judged.held.place) {
            None => ReplyRef::None,
            Some(object) => ReplyRef::Found(
                object.version,
                ValueRef {
                    bytes: object.value,
                },
            ),
        },
    }
}
