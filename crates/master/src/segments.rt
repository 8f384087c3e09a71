//! What each segment of a master is to it, and how many bytes of it are kept.

ghost use Rattle.std.specs.Prelude.{◌≡◌, ◌≤◌, ◌++◌, Some, length, insert, map, IfOk, OnOk};
ghost use Rattle.images.specs.Sorted.{segment_of};
ghost use Rattle.master_core.specs.master_space.Choosing.{kept_bytes};
ghost use Rattle.master_core.specs.master_state.Log.{log_set_ids};
ghost use Rattle.tally.specs.Fills.{kept_len};
ghost use Rattle.master.specs.Segments.{segment_rows, head_row, opening_row, closed_row};
ghost use Rattle.master.specs.Segments.{waiting_row, with_row, role_of};

use crate::master::Master;
use compactor::{LogSet, kept_bytes};
use entry::NoMemory;
use images::Image;
use log_head::Roll;
use master_core::{Core, kept_bytes_of};
use replica::Fleet;
use segment::SegmentRef;

/// What a segment is to its master.
#[derive(Clone, Copy)]
pub enum Role {
    /// The head: the one in force, or the first head of the log while its replicas are opened.
    Head,
    /// The head that a roll is opening.
    Opening,
    /// A segment that takes no more appends.
    Closed,
    /// A closed segment that the open pass empties.
    Victim,
    /// A segment to which the open pass copies.
    Survivor,
    /// A segment that left the log, and whose replicas are still to be freed.
    Waiting,
}

/// A segment of a master.
#[derive(Clone, Copy)]
pub struct SegmentRow {
    /// The segment's id.
    pub id: u64,
    /// What the segment is to its master.
    pub role: Role,
    /// The bytes of its image, or 0 if it waits to be freed.
    pub len: usize,
    /// How many bytes of its objects and tombstones are kept, or 0 if it waits to be freed.
    pub kept: usize,
    /// How many replicas hold it: those that were opened of a head, those that were sealed of a survivor, and those
    /// that are still to be freed of a segment that waits.
    pub replicas: usize,
}

impl<F: Fleet> Master<F> {
    /// Lists the master's segments: first those that have an image, by rising id, and then those that wait to be freed,
    /// in the order in which they are freed. Nothing changes. The call reads the heads. It looks at no entry of a
    /// closed segment that was counted since the last commit of a pass. The list takes memory once.
    pub fn segments(&self) -> Result<Vec<SegmentRow>, NoMemory>
        ensures { IfOk result (λ rows. rows.items ≡ segment_rows self.now.knows) }
    {
        rows_of(&self.core)
    }
}

/// Lists the segments of a core.
fn rows_of(core: &Core) -> Result<Vec<SegmentRow>, NoMemory>
    ensures { IfOk result (λ rows. rows.items ≡ segment_rows core.now) }
{
    let mut rows = closed_rows(core)?;
    place(&mut rows, head_row(core))?;
    if let Some(roll) = core.head.roll() {
        place(&mut rows, opening_row(core, roll))?;
    }
    add_waiting(core, &mut rows)?;
    Ok(rows)
}

/// Lists the closed segments and the survivors, and takes memory for the rows of all segments.
fn closed_rows(core: &Core) -> Result<Vec<SegmentRow>, NoMemory>
    ensures { IfOk result (λ rows. rows.items ≡ map (closed_row core.now) core.now.closed) }
{
    let waiting = core.waiting.len();
    let most = core.closed.len().saturating_add(waiting).saturating_add(2);
    let mut rows = Vec::with_capacity(core.alloc, most)?;
    for image in core.closed.as_slice() {
        rows.push(closed_row(core, image))?;
    }
    Ok(rows)
}

/// Returns the row of a closed segment or a survivor.
fn closed_row(core: &Core, image: &Image) -> SegmentRow
    requires there { segment_of core.now.closed image.now.id ≡ Some image.now.segment }
    ensures { result ≡ closed_row core.now image.now }
{
    let id = image.id();
    let Some(kept) = kept_bytes_of(core, id) else {
        unreachable!()
    };
    SegmentRow {
        id,
        role: role_of(core, id),
        len: image.bytes_len(),
        kept,
        replicas: image.replicas(),
    }
}

/// Returns what the segment with this id is, if it is no head.
fn role_of(core: &Core, id: u64) -> Role
    ensures { result ≡ role_of core.now.pass id }
{
    let Some(pass) = &core.pass else {
        return Role::Closed;
    };
    if pass.victims.as_slice().contains(&id) {
        return Role::Victim;
    }
    if pass.survivors.has(id) {
        Role::Survivor
    } else {
        Role::Closed
    }
}

/// Returns the row of the head.
fn head_row(core: &Core) -> SegmentRow
    ensures { result ≡ head_row core.now }
{
    let id = core.head.id();
    let image = core.head.image().view();
    SegmentRow {
        id,
        role: Role::Head,
        len: image.bytes().len(),
        kept: kept_in(core, id, &image),
        replicas: core.head.opened(),
    }
}

/// Returns the row of the head that a roll is opening.
fn opening_row(core: &Core, roll: &Roll) -> SegmentRow
    requires under_way { core.now.head.roll ≡ Some roll.now }
    ensures { result ≡ opening_row core.now roll.now }
{
    core.show_valid();
    let image = roll.image.view();
    SegmentRow {
        id: roll.id,
        role: Role::Opening,
        len: image.bytes().len(),
        kept: kept_in(core, roll.id, &image),
        replicas: roll.opened,
    }
}

/// Returns how many bytes of a segment's objects and tombstones are kept. The call reads the segment.
fn kept_in(core: &Core, id: u64, segment: &SegmentRef<'_>) -> usize
    ensures { result ≡ kept_len (log_set_ids core.now) core.now.index id segment.now }
{
    let new = match core.head.roll() {
        None => None,
        Some(roll) => Some(roll.id),
    };
    let log = LogSet {
        closed: &core.closed,
        head: core.head.id(),
        new,
    };
    kept_bytes(id, segment, &core.index, &log)
}

/// Returns the place of a row among rows by rising id.
fn place_for(rows: &[SegmentRow], row: &SegmentRow) -> usize
    ensures within { result ≤ length rows.now }
    ensures place { insert rows.now result row.now ≡ with_row row.now rows.now }
{
    for (at, other) in rows.iter().enumerate() {
        if row.id < other.id {
            return at;
        }
    }
    rows.len()
}

/// Puts a row at its place among rows by rising id.
fn place(rows: &mut Vec<SegmentRow>, row: SegmentRow) -> Result<(), NoMemory>
    ensures { OnOk result (rows.new.items ≡ with_row row rows.old.items) }
{
    let at = place_for(rows.as_slice(), &row);
    rows.insert(at, row)?;
    Ok(())
}

/// Adds the rows of the segments that wait to be freed.
fn add_waiting(core: &Core, rows: &mut Vec<SegmentRow>) -> Result<(), NoMemory>
    ensures { OnOk result (rows.new.items ≡ rows.old.items ++ map waiting_row core.now.waiting) }
{
    for waiting in core.waiting.as_slice() {
        rows.push(SegmentRow {
            id: waiting.segment,
            role: Role::Waiting,
            len: 0,
            kept: 0,
            replicas: waiting.replicas.saturating_sub(waiting.freed) as usize,
        })?;
    }
    Ok(())
}
