//! What a cell keeps of a record.

ghost use Rattle.std.specs.Prelude.{◌≡◌};
ghost use Rattle.std.specs.Borrow.{ftrue};
ghost use Rattle.history.specs.View.{shown_record};
ghost use Rattle.versioned_map.specs.declared.command.Record.{Record};

use entry::KeyRef;
use history::{CommandRef, RecordRef, ReplyRef};
use std::marker::Model;

/// A record as contracts see it. It takes no bytes: the record itself is in the history.
#[derive(Drop)]
pub struct Kept {
    pub ghost what: { Record },
}

impl Model for Kept {
    ghost also_owns = { λ _. ftrue };
}

// A struct with `also_owns` is by itself neither Send nor Sync. This one owns nothing.
unsafe impl Send for Kept {}

unsafe impl Sync for Kept {}

impl Kept {
    /// What is known of a record.
    pub fn of(_record: &RecordRef<'_>) -> Kept
        ensures { result.what ≡ shown_record _record.now }
    {
        Kept {}
    }

    /// What a box has before it is known which record it is for.
    pub fn blank() -> Kept {
        Kept::of(&RecordRef {
            seat: 0,
            command: CommandRef::Get(KeyRef {
                table: 0,
                bytes: b"-",
            }),
            reply: ReplyRef::None,
        })
    }
}
