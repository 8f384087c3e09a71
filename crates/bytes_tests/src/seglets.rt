//! Images in memory: each call, an image added between two others, and a run of heads whose sum is counted anew after
//! each step.

ghost use Rattle.std.specs.Prelude.{◌≡◌, ◌<◌, true, IfSome};
ghost use Rattle.images.specs.Sorted.{IsWhole};
ghost use Rattle.images.specs.Steps.{HasData};

use crate::vectors::{OBJECT, bytes_of};
use entry::{Digest, EntryRef, Ids, SafeVersion};
use images::Images;
use segment::Segment;
use std::alloc::Global;
use std::test::Fail;

/// A call of images, and its answer.
enum Call {
    /// A head is added, and an object is appended to it so many times, or until it is full: how many times, or `None`
    /// if the head isn't added.
    Add(u64, u64, Option<u64>),
    /// A head is added, and the object at an offset of an image is copied to it: its offset there.
    Copy {
        to: u64,
        from: (u64, usize),
        at: Option<usize>,
    },
    Trim(u64),
    Drop(u64),
    /// A head of another number, without objects, is put in the place of an image: whether it is taken.
    Replace(u64, u64, bool),
    /// How many seglets are counted, and how many are left.
    Counts(u64, u64),
    /// Whether an object lies at an offset of an image.
    Has(u64, usize, bool),
    /// The numbers of the images.
    Are(&'static [u64]),
}

/// Calls of images of 512 bytes in 40 seglets of 64. A head that takes appends counts 8 of them, and one without an
/// object 1 if it takes none. An object has 25 bytes, and the first lies at offset 40.
const RUNS: &[&[Call]] = &[
    &[
        Call::Add(1, 20, Some(18)),
        Call::Counts(8, 32),
        Call::Add(2, 3, Some(3)),
        Call::Trim(2),
        Call::Counts(10, 30),
        Call::Replace(1, 3, true),
        Call::Counts(3, 37),
        Call::Drop(2),
        Call::Counts(1, 39),
        Call::Are(&[1]),
    ],
    // The second of two objects in image 1 goes to image 3, and image 2 comes between them.
    &[
        Call::Add(1, 2, Some(2)),
        Call::Copy {
            to: 3,
            from: (1, 65),
            at: Some(40),
        },
        Call::Has(3, 40, true),
        Call::Add(2, 0, Some(0)),
        Call::Are(&[1, 2, 3]),
        Call::Add(2, 0, None),
        Call::Counts(24, 16),
    ],
];

/// A head of master 1, without units: 40 bytes.
fn new_head(alloc: Global, id: u64) -> Option<Segment> {
    let ids = Ids::new(Vec::from_slice(alloc, &[id]).ok()?);
    Segment::begin_head(alloc, 1, id, Digest::Ids(ids), SafeVersion::first()).ok()
}

/// Adds a head that takes appends, if there is none of its number and there is room. Whether it was added.
fn add_head(images: &mut Images, id: u64, head: Segment) -> bool
    ensures whole { result ≡ true → IsWhole images.new.images id }
{
    if images.get(id).is_some() {
        return false;
    }
    if images.segment_len() < head.bytes_len() {
        return false;
    }
    match images.add(id, head, true) {
        Ok(()) => true,
        Err(_) => false,
    }
}

/// Adds a new head as `add_head` does.
pub fn add(alloc: Global, images: &mut Images, id: u64) -> bool
    ensures { result ≡ true → IsWhole images.new.images id }
{
    match new_head(alloc, id) {
        Some(head) => add_head(images, id, head),
        None => false,
    }
}

/// Appends an object to a whole image, so many times or until it is full. How many times it was appended.
fn fill(images: &mut Images, id: u64, object: &[u8], times: u64) -> u64
    requires { IsWhole images.old.images id }
{
    for appended in 0..times {
        let Ok((EntryRef::Object(object), _)) = EntryRef::read(object) else {
            return appended;
        };
        match images.append(id, &[EntryRef::Object(object)]) {
            Ok(_) => {}
            Err(_) => return appended,
        }
    }
    times
}

/// Adds a head and fills it. How many objects were appended, if the head was added.
fn begin(alloc: Global, images: &mut Images, id: u64, object: &[u8], times: u64) -> Option<u64> {
    if add(alloc, images, id) {
        Some(fill(images, id, object, times))
    } else {
        None
    }
}

/// How many bytes the object at an offset of an image has, if there is one.
fn object_len(images: &Images, id: u64, at: usize) -> Option<usize>
    ensures { IfSome result (HasData images.now.images id at) }
{
    let segment = images.get(id)?;
    let rest = segment.bytes().get(at..)?;
    match EntryRef::read(rest) {
        Ok((EntryRef::Object(_), len)) => Some(len),
        _ => None,
    }
}

/// Adds a head, and copies the object at an offset of an earlier image to it. Its offset there.
fn copy(alloc: Global, images: &mut Images, from: u64, at: usize, to: u64) -> Option<usize> {
    if from >= to || !add(alloc, images, to) {
        return None;
    }
    match object_len(images, from, at) {
        None => None,
        Some(len) => match images.copy_entry(from, at, len, to) {
            Ok(at) => Some(at),
            Err(_) => None,
        },
    }
}

/// Puts another image in the place of one. Whether there is one, and the other was taken.
fn replace(images: &mut Images, id: u64, head: Segment) -> bool {
    if images.get(id).is_none() || images.segment_len() < head.bytes_len() {
        return false;
    }
    match images.replace(id, head) {
        Ok(()) => true,
        Err(_) => false,
    }
}

/// Puts a new head in the place of an image.
fn renew(alloc: Global, images: &mut Images, id: u64, by: u64) -> bool {
    match new_head(alloc, by) {
        Some(head) => replace(images, id, head),
        None => false,
    }
}

/// Whether this many seglets are counted, by a walk too, and this many are left.
fn are_counted(images: &Images, used: u64, free: u64) -> bool {
    images.used() == used && images.free() == free && images.recount() == used
}

/// Whether the images have these numbers, in order.
fn are(images: &Images, ids: &[u64]) -> bool {
    let images = images.as_slice();
    for (image, id) in images.iter().zip(ids) {
        if image.id() != *id {
            return false;
        }
    }
    images.len() == ids.len()
}

/// Whether the call has its answer.
fn is_answered(alloc: Global, images: &mut Images, object: &[u8], call: &Call) -> bool {
    match call {
        Call::Add(id, times, answer) => begin(alloc, images, *id, object, *times) == *answer,
        Call::Copy { to, from, at } => copy(alloc, images, from.0, from.1, *to) == *at,
        Call::Trim(id) => {
            images.trim(*id);
            true
        }
        Call::Drop(id) => {
            images.drop_segment(*id);
            true
        }
        Call::Replace(id, by, is_taken) => renew(alloc, images, *id, *by) == *is_taken,
        Call::Counts(used, free) => are_counted(images, *used, *free),
        Call::Has(id, at, has) => object_len(images, *id, *at).is_some() == *has,
        Call::Are(ids) => are(images, ids),
    }
}

/// The first call that is answered otherwise.
fn first_other(alloc: Global, calls: &[Call], object: &[u8]) -> Option<usize> {
    let mut images = Images::new(alloc, 512, 64, 40);
    for (number, call) in calls.iter().enumerate() {
        if !is_answered(alloc, &mut images, object, call) {
            return Some(number);
        }
    }
    None
}

#[test]
fn each_call_counts(rt: HostRuntime) -> Result<(), Fail> {
    let object = bytes_of(rt.alloc(), &[OBJECT]).ok_or("no memory")?;
    for (run, calls) in RUNS.iter().enumerate() {
        assert_eq!(rt;
            first_other(rt.alloc(), calls, object.as_slice()),
            None,
            "run {run}"
        );
    }
    Ok(())
}

/// One step of a run: a head is added and filled, if there is room, and another image is trimmed or dropped.
fn step(alloc: Global, images: &mut Images, id: u64, object: &[u8], random: u64)
    requires { id < 200 }
{
    let _ = begin(alloc, images, id, object, random % 20);
    let other = random / 32 % (id + 1);
    match random % 3 {
        0 => images.trim(other),
        1 => images.drop_segment(other),
        _ => {}
    }
}

/// Whether the sum is that of a walk, and the seglets are 400.
fn is_sum(images: &Images) -> bool {
    images.used() == images.recount() && images.used().saturating_add(images.free()) == 400
}

/// The first step after which the sum isn't that of a walk, or the seglets aren't 400.
fn first_miscounted(alloc: Global, object: &[u8]) -> Option<u64> {
    let mut images = Images::new(alloc, 512, 64, 400);
    let mut random: u64 = 1;
    for id in 1..200 {
        step(alloc, &mut images, id, object, random >> 33);
        if !is_sum(&images) {
            return Some(id);
        }
        random = random
            .wrapping_mul(6_364_136_223_846_793_005)
            .wrapping_add(1);
    }
    None
}

#[test]
fn the_sum_is_that_of_a_walk(rt: HostRuntime) -> Result<(), Fail> {
    let object = bytes_of(rt.alloc(), &[OBJECT]).ok_or("no memory")?;
    assert_eq!(rt; first_miscounted(rt.alloc(), object.as_slice()), None);
    Ok(())
}
