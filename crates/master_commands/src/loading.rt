//! How a core is loaded before its history begins.

ghost use Rattle.std.specs.Prelude.{◌⊎◌, ◌≡◌, ◌≤◌, ◌^◌, length, true, None, Some, IfErr, OnOk, OnErr};
ghost use Rattle.std.specs.Result.{result_err};
ghost use Rattle.entry.specs.declared.entry.Entry.TheVariants as entry;
ghost use Rattle.entry.specs.Text.{text_of};
ghost use Rattle.entry.specs.View.{shown, shown_object};
ghost use Rattle.log_head.specs.Head.{IsHeadValue, len_with};
ghost use Rattle.log_head.specs.Steps.{with_unit_end};
ghost use Rattle.master_state.specs.Causes.{is_done};
ghost use Rattle.master_commands.specs.Index.{IsAdded};
ghost use Rattle.master_state.specs.Invariant.{IsCore};
ghost use Rattle.master_state.specs.Loading.{IsBare, IsNewObject, Loads, MayLoadNow, Settles};
ghost use Rattle.master_state.specs.Loading.{loaded_unit, is_object_too_big, load_refusal};

use entry::{EntryRef, NoMemory, OBJECT_LEN, ObjectRef, TOMBSTONE_LEN};
use hash_index::{Held, Index, Place};
use log_head::Head;
use master_state::{Core, Loaded, Posting, Refusal};
use segment::AppendFault;

/// Takes memory ahead for an index of so many objects. If memory runs out, the index grows later, as objects come.
/// Nothing that the core knows changes.
pub fn presize(core: &mut Core, objects: usize)
    ensures { core.new ≡ core.old }
{
    core.index.presize(objects);
}

/// Loads an object, which keeps its version: it is appended to the head, and the opening of the history gets it. If
/// a test refuses the object or memory runs out, nothing changes.
pub fn load(core: &mut Core, object: &ObjectRef<'_>) -> Result<(), Refusal>
    requires bare { IsBare core.old }
    requires new { IsNewObject core.old (shown_object object.now) }
    ensures loaded { OnOk result (Loads core.old (shown_object object.now) core.new) }
    ensures may { OnOk result (MayLoadNow core.old (shown_object object.now)) }
    ensures valid { OnOk result (IsCore core.new) }
    ensures bare { OnOk result (IsBare core.new) }
    ensures refused { IfErr result (λ r. (load_refusal core.old (shown_object object.now) ≡ Some r)
        ⊎ ((load_refusal core.old (shown_object object.now) ≡ None) × (r ≡ Refusal.NoMemory))) }
    ensures err { OnErr result (core.new ≡ core.old) }
{
    admit_object(core, object)?;
    let len = object_len(object);
    let live = core.live.saturating_add(len as u64);
    append_object(
        &mut core.head,
        &mut core.index,
        object,
        core.config.segment as usize,
    )?;
    let head = core.head.id();
    core.tallies.grow(head, len, 0);
    core.live = live;
    core.loaded = Loaded::with(&core.loaded, object);
    Ok(())
}

/// Returns true if the loading may end: no roll or failover is under way, and each replica of the head has all
/// units.
pub fn can_finish(core: &Core) -> bool
    ensures { result ≡ is_done core.now }
{
    core.failover.is_none() && core.head.next_push().is_none()
}

/// Ends the loading. The history begins with the objects that were loaded.
pub fn begin_history(core: &mut Core)
    requires bare { IsBare core.old }
    requires done { is_done core.old ≡ true }
    ensures settled { Settles core.old core.new }
    ensures valid { IsCore core.new }
{
    core.head.begin_history();
    core.post(&Posting::Settled);
}

/// Makes the tests of an object that is to be loaded. The first failing test gives the refusal.
fn admit_object(core: &Core, object: &ObjectRef<'_>) -> Result<(), Refusal>
    ensures { result_err result ≡ load_refusal core.now (shown_object object.now) }
{
    if is_object_too_big(object, core.config.segment) {
        return Err(Refusal::TooBig);
    }
    if !core.config.tablets.have(&object.key) {
        return Err(Refusal::NoTablet);
    }
    if !core.is_working() {
        return Err(Refusal::Rolling);
    }
    let limit = core.config.segment as usize;
    if core.head.fits(object_len(object), limit) {
        return Ok(());
    }
    if core.may_roll(2) {
        return Err(Refusal::Rolling);
    }
    Err(Refusal::Full)
}

/// Returns true if a put of the object would be too big: its tombstone and its object together would be longer than a
/// quarter of a segment of this many bytes.
fn is_object_too_big(object: &ObjectRef<'_>, segment: u64) -> bool
    ensures { result ≡ is_object_too_big (shown_object object.now) segment }
{
    let bytes = OBJECT_LEN + TOMBSTONE_LEN + 2 * object.key.bytes.len() + object.value.len();
    bytes as u64 > segment / 4
}

/// The length of the object's entry, in bytes.
fn object_len(object: &ObjectRef<'_>) -> usize
    ensures len { result ≡ length (text_of (loaded_unit (shown_object object.now))) }
    ensures small { result ≤ 2 ^ 32 }
{
    OBJECT_LEN + object.key.bytes.len() + object.value.len()
}

/// The object as an entry.
fn entry_of<'a>(object: &ObjectRef<'a>) -> EntryRef<'a>
    ensures { shown result ≡ entry.Object (shown_object object.entry.now) }
{
    EntryRef::Object(ObjectRef {
        key: object.key,
        version: object.version,
        value: object.value,
    })
}

/// Appends an object that fits to the head, and adds its place to the index. On `Err` nothing changed, except that
/// memory may have been reserved.
fn append_object(
    head: &mut Head,
    index: &mut Index,
    object: &ObjectRef<'_>,
    limit: usize,
) -> Result<(), NoMemory>
    requires limit { limit ≤ 8388608 }
    requires fits { len_with head.old.image (loaded_unit (shown_object object.now)) ≤ limit }
    ensures valid { OnOk result (IsHeadValue head.new) }
    ensures head { OnOk result (head.new ≡ with_unit_end head.old 0 (loaded_unit (shown_object object.now))) }
    ensures index { OnOk result (IsAdded index.old.held (shown_object object.now).key
        (record { segment = head.old.id; at = length (text_of head.old.image) }) index.new.held) }
    ensures err { OnErr result ((head.new ≡ head.old) × (index.new.held ≡ index.old.held)) }
{
    let place = Place {
        segment: head.id(),
        at: head.image().bytes().len(),
    };
    index.reserve(1)?;
    let entry = entry_of(object);
    match head.append(&[entry], 0, limit) {
        Ok(()) => {}
        Err(AppendFault::Full) => unreachable!(),
        Err(AppendFault::NoMemory) => return Err(NoMemory),
    }
    let hash = index.hash(&object.key);
    index.insert(Held { hash, place });
    index.grow();
    Ok(())
}
