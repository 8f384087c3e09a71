//! A pass over one segment, with entries of each kind that is moved, carried or dropped.

ghost use Rattle.std.specs.Prelude.{◌≡◌, Some, true, IsSome};
ghost use Rattle.images.specs.Sorted.{IsWhole, segment_of};
ghost use Rattle.images.specs.Steps.{len_at};
ghost use Rattle.cleaner.specs.KeptLengths.{HasRoomsIn};
ghost use Rattle.cleaner.specs.Passes.{ids_in, IsPass};

use crate::compactions::{BEFORE, NEWER, OF_CLOSED, OF_NEW, OTHER, add_spelt, set_both};
use crate::vectors::{SURVIVOR, are_spelt};
use cleaner::{Copied, Pass, Survivors, fit};
use entry::{Key, Row};
use hash_index::Index;
use images::Images;
use std::alloc::Global;

/// What becomes of each entry: it is moved, carried or dropped.
const BECOMES: &[char] = &['D', 'C', 'D', 'M', 'C', 'M'];

/// What the survivor has in the end.
const COPIED: &[&str] = &[SURVIVOR, OF_CLOSED, NEWER, OF_NEW, OTHER];

/// Keys of table 1, and the offset of each in the survivor.
const FOUND: &[(&[u8], usize)] = &[(b"a", 46), (b"d", 99)];

/// Whether the images are 1 and 3, and 3 takes appends; and a segment has at most 512 bytes.
fn are_ready(images: &Images) -> bool
    ensures there { result ≡ true → IsSome (segment_of images.now.images 1) }
    ensures whole { result ≡ true → IsWhole images.now.images 3 }
    ensures segment { result ≡ true → images.now.segment ≡ 512 }
{
    match images.as_slice() {
        [first, survivor] => {
            first.id() == 1
                && survivor.id() == 3
                && survivor.is_whole()
                && images.segment_len() == 512
        }
        _ => false,
    }
}

/// The first letter of what became of an entry.
fn letter(copied: Copied) -> char {
    match copied {
        Copied::Moved => 'M',
        Copied::Carried => 'C',
        Copied::Dropped => 'D',
    }
}

/// Whether each entry becomes what it should, and the pass then is at its end.
fn copies(pass: &mut Pass, images: &mut Images, index: &mut Index) -> bool
    requires pass { IsPass index.old.held.seed images.old.images pass.old }
    requires room { HasRoomsIn 512 (ids_in images.old.images 2 (Some 4)) pass.old images.old.images index.old.held }
    requires segment { images.old.segment ≡ 512 }
{
    for becomes in BECOMES {
        if pass.is_at_end() {
            return false;
        }
        let copied = pass.copy_one(images, index, 2, Some(4));
        if letter(copied) != *becomes {
            return false;
        }
    }
    pass.is_at_end()
}

/// How many bytes an image has.
fn len_of(images: &Images, id: u64) -> usize
    ensures { result ≡ len_at images.now.images id }
{
    match images.get(id) {
        Some(segment) => segment.bytes().len(),
        None => 0,
    }
}

/// A pass over segment 1 to its end. The head is segment 2, and segment 4 is being opened.
fn runs(alloc: Global, images: &mut Images, index: &mut Index) -> bool {
    if !are_ready(images) {
        return false;
    }
    let Some(size) = fit(&[1], images, index, 2, Some(4), 512) else {
        return false;
    };
    if size.survivors != 1 || len_of(images, 3) != 18 {
        return false;
    }
    let Ok(victims) = Vec::from_slice(alloc, &[1]) else {
        return false;
    };
    let survivors = Survivors { first: 3, count: 1 };
    let mut pass = Pass::begin(Row::new(victims), size.near, survivors, images, index);
    copies(&mut pass, images, index)
}

/// Whether the index leads to this offset of the survivor for a key of table 1.
fn is_found(alloc: Global, index: &Index, key: &[u8], at: usize) -> bool {
    match Key::new(alloc, 1, key) {
        Ok(key) => match index.candidate(index.hash(&key.view())) {
            Some(place) => place.segment == 3 && place.at == at,
            None => false,
        },
        Err(_) => false,
    }
}

/// Whether each key is found in the survivor.
fn are_found(alloc: Global, index: &Index) -> bool {
    for (key, at) in FOUND {
        if !is_found(alloc, index, key, *at) {
            return false;
        }
    }
    true
}

/// Whether the survivor has what is kept of segment 1 behind its header.
fn is_copied(alloc: Global, images: &Images) -> bool {
    match images.get(3) {
        Some(survivor) => are_spelt(alloc, COPIED, survivor.bytes()),
        None => false,
    }
}

/// What goes wrong first if two objects of image 1 live and a pass copies what is kept to image 3.
fn first_wrong(alloc: Global, images: &mut Images, index: &mut Index) -> Option<&'static str> {
    if !add_spelt(alloc, images, 1, BEFORE, false) {
        return Some("the victim");
    }
    if !add_spelt(alloc, images, 3, &[SURVIVOR], true) {
        return Some("the survivor");
    }
    if !set_both(index, images) {
        return Some("the places");
    }
    if !runs(alloc, images, index) {
        return Some("the pass");
    }
    if !are_found(alloc, index) {
        return Some("the keys");
    }
    if !is_copied(alloc, images) {
        return Some("the bytes");
    }
    None
}

#[test]
fn what_is_kept_is_copied(rt: HostRuntime) {
    let mut images = Images::new(rt.alloc(), 512, 64, 400);
    let mut index = Index::new(rt.alloc());
    assert_eq!(rt; first_wrong(rt.alloc(), &mut images, &mut index), None);
}
