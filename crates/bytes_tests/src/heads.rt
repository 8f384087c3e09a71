//! A head before and after what it holds counts as loaded.

use crate::vectors::{OBJECT, bytes_of};
use entry::{EntryRef, SafeVersion};
use log_head::Head;
use std::test::Fail;

/// Appends the object that these bytes spell as a unit of record 0. Whether it could.
fn append(head: &mut Head, object: &[u8]) -> bool {
    match EntryRef::read(object) {
        Ok((EntryRef::Object(object), _)) => {
            head.append(&[EntryRef::Object(object)], 0, 512).is_ok()
        }
        _ => false,
    }
}

/// Whether the opening of the head has this many bytes, and the first unit that some replica lacks is of this record.
fn is_at(head: &Head, len: usize, missing: Option<u64>) -> bool {
    head.end_of(0) == len && head.first_missing() == missing
}

/// Whether a head takes two units, and has none any more once it is settled.
fn is_settled(head: &mut Head, object: &[u8]) -> bool {
    if !append(head, object) || !append(head, object) || !is_at(head, 40, Some(0)) {
        return false;
    }
    head.begin_history();
    is_at(head, 90, None)
}

#[test]
fn a_settled_head_has_no_units(rt: HostRuntime) -> Result<(), Fail> {
    let object = bytes_of(rt.alloc(), &[OBJECT]).ok_or("no memory")?;
    let mut head = Head::begin(rt.alloc(), 1, 1, 1, 1, SafeVersion::first(), 0)?;
    head.open();
    assert!(rt; is_settled(&mut head, object.as_slice()));
    Ok(())
}
