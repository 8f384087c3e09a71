//! The digest of the next head: that in force without the victims, with the survivors and with their lengths.

ghost use Rattle.std.specs.Prelude.{◌≡◌, ◌+◌, ◌<◌, ◌≤◌, ◌++◌, ◌∷◌, [], ℕ, List, None, Some, true, length, IfOk};
ghost use Rattle.std.specs.Prelude.{vec_len, vec_capacity, ◌==◌, if◌then◌else◌, unwrap_or};
ghost use Rattle.entry.specs.Bag.{IsAmong};
ghost use Rattle.entry.specs.Limits.{ids_in, AreLengths};
ghost use Rattle.entry.specs.Text.{text_of, lists_lengths, IsSegment};
ghost use Rattle.std.specs.List.Sorted.{IsStrictlyIncreasing};
ghost use Rattle.entry.specs.View.{shown_ids};
ghost use Rattle.log_laws.specs.Heads.{digest_with};
ghost use Rattle.log_laws.specs.Ids.{has, all_inserted, without};
ghost use Rattle.log_head.specs.Head.{digest_in, digest_of};
ghost use Rattle.log_head.specs.Steps.{others_after, len_after, lens_after, AreListedBy};

use crate::rolling::Leaving;
use entry::{Digest, DigestRef, Ids, Lengths, Listed, NoMemory};
use segment::Segment;
use std::alloc::Global;

/// Returns the ids of the next head's digest but for its own, in a vector that has room for one more.
pub(crate) fn next_ids(
    alloc: Global,
    image: &Segment,
    leaving: Leaving<'_>,
) -> Result<Vec<u64>, NoMemory>
    requires rise { IsStrictlyIncreasing (ids_in leaving.survivors.now) }
    ensures ids { IfOk result (λ ids. ids.items ≡ others_after image.now leaving.entry) }
    ensures room { IfOk result (λ ids. vec_len ids < vec_capacity ids) }
{
    let mut waits = leaving.survivors;
    let Some(digest) = image.view().digest() else {
        let mut ids = Vec::with_capacity(alloc, waits.len() + 1)?;
        push_all(&mut ids, waits);
        return Ok(ids);
    };
    let left = count_left(&digest, leaving.victims);
    let mut ids = Vec::with_capacity(alloc, left + waits.len() + 1)?;
    let count = digest.count();
    for place in 0..count {
        let id = digest.id(place);
        if is_victim(leaving.victims, id) {
            continue;
        }
        waits = push_before(&mut ids, waits, id);
        ids.push_reserved(id);
    }
    push_all(&mut ids, waits);
    Ok(ids)
}

/// Returns how many ids of the digest aren't among the victims.
fn count_left(digest: &DigestRef<'_>, victims: &[u64]) -> usize
    ensures left { result ≡ length (without victims.now (shown_ids digest.now)) }
    ensures few { result ≤ length (shown_ids digest.now) }
{
    let mut left = 0;
    for place in 0..digest.count() {
        if !is_victim(victims, digest.id(place)) {
            left += 1;
        }
    }
    left
}

/// Returns true if the id is among the victims.
fn is_victim(victims: &[u64], id: u64) -> bool
    ensures { result ≡ has victims.now id }
{
    victims.contains(&id)
}

/// Pushes those of the waiting segments' ids that are below this id, and returns the segments that still wait.
fn push_before<'a>(ids: &mut Vec<u64>, waits: &'a [Listed], id: u64) -> &'a [Listed]
    requires room { vec_len ids.old + length waits.now ≤ vec_capacity ids.old }
    requires rise { IsStrictlyIncreasing (ids_in waits.now) }
    ensures items { (rest : List ℕ) → ids.new.items ++ id ∷ all_inserted (ids_in result.now) rest
        ≡ ids.old.items ++ all_inserted (ids_in waits.now) (id ∷ rest) }
    ensures rise { IsStrictlyIncreasing (ids_in result.now) }
    ensures capacity { vec_capacity ids.new ≡ vec_capacity ids.old }
{
    match waits {
        [first, rest @ ..] if first.id < id => {
            ids.push_reserved(first.id);
            push_before(ids, rest, id)
        }
        _ => waits,
    }
}

/// Pushes the ids of these segments.
fn push_all(ids: &mut Vec<u64>, segments: &[Listed])
    requires { vec_len ids.old + length segments.now ≤ vec_capacity ids.old }
    ensures items { ids.new.items ≡ ids.old.items ++ ids_in segments.now }
    ensures capacity { vec_capacity ids.new ≡ vec_capacity ids.old }
{
    for segment in segments {
        ids.push_reserved(segment.id);
    }
}

/// Makes the digest of the next head, which has this id.
pub(crate) fn next_digest(
    alloc: Global,
    old: u64,
    image: &Segment,
    id: u64,
    leaving: Leaving<'_>,
) -> Result<Digest, NoMemory>
    requires rise { IsStrictlyIncreasing (others_after image.now leaving ++ id ∷ []) }
    requires count { length (others_after image.now leaving) < 262144 }
    requires segment { IsSegment image.now }
    requires limit { length (text_of image.now) ≤ 8388608 }
    requires survivors { AreLengths leaving.survivors.now }
    ensures { let others = others_after image.now leaving.entry in
        let lens = lens_after old image.now leaving.entry.survivors.now others in
        IfOk result (λ digest. digest ≡ digest_with others lens id) }
{
    if lists_lengths(image) {
        let mut segments = next_segments(alloc, old, image, leaving)?;
        let len = 32 + 16 * (segments.len() as u64 + 1);
        segments.push_reserved(Listed { id, len });
        return Ok(Digest::Lengths(Lengths::new(segments)));
    }
    let mut ids = next_ids(alloc, image, leaving)?;
    ids.push_reserved(id);
    Ok(Digest::Ids(Ids::new(ids)))
}

/// Returns true if the digest in force lists lengths.
fn lists_lengths(image: &Segment) -> bool
    ensures { result ≡ lists_lengths (digest_in image.now) }
{
    match image.view().digest() {
        Some(digest) => digest.lists_lengths(),
        None => false,
    }
}

/// Returns the segments that the next head's digest lists before its own, in a vector that has room for one more.
fn next_segments(
    alloc: Global,
    old: u64,
    image: &Segment,
    leaving: Leaving<'_>,
) -> Result<Vec<Listed>, NoMemory>
    requires lists { lists_lengths (digest_in image.now) ≡ true }
    requires outside { (s : ℕ) → IsAmong s (ids_in leaving.survivors.now)
        → IsAmong s (without leaving.victims.now (digest_of image.now)) → ⊥ }
    requires segment { IsSegment image.now }
    requires limit { length (text_of image.now) ≤ 8388608 }
    requires survivors { AreLengths leaving.survivors.now }
    ensures ids { IfOk result (λ segments. ids_in segments.items ≡ others_after image.now leaving.entry) }
    ensures lens { let len = len_after old image.now leaving.entry.survivors.now in
        IfOk result (λ segments. AreListedBy len segments.items) }
    ensures room { IfOk result (λ segments. vec_len segments < vec_capacity segments) }
{
    let mut waits = leaving.survivors;
    let Some(digest) = image.view().digest() else {
        unreachable!();
    };
    let whole = image.bytes_len() as u64;
    let left = count_left(&digest, leaving.victims);
    let mut segments = Vec::with_capacity(alloc, left + waits.len() + 1)?;
    let listed = digest.count();
    for place in 0..listed {
        let segment = digest.id(place);
        if is_victim(leaving.victims, segment) {
            continue;
        }
        waits = list_before(&mut segments, waits, segment);
        let len = len_of(old, whole, segment, digest.len(place));
        segments.push_reserved(Listed { id: segment, len });
    }
    list_all(&mut segments, waits);
    Ok(segments)
}

/// Returns the length that the next digest lists for segment `id`: `whole` for the old head, and for another segment
/// the length that the digest in force lists, or `whole` if it lists none.
fn len_of(old: u64, whole: u64, id: u64, listed: Option<u64>) -> u64
    ensures { result ≡ (if id == old then whole else unwrap_or listed whole) }
{
    if id == old {
        return whole;
    }
    listed.unwrap_or(whole)
}

/// Pushes those of the waiting segments whose ids are below this id, and returns the segments that still wait.
fn list_before<'a>(segments: &mut Vec<Listed>, waits: &'a [Listed], id: u64) -> &'a [Listed]
    requires room { vec_len segments.old + length waits.now ≤ vec_capacity segments.old }
    requires rise { IsStrictlyIncreasing (ids_in waits.now) }
    ensures items { (rest : List ℕ) → ids_in segments.new.items ++ id ∷ all_inserted (ids_in result.now) rest
        ≡ ids_in segments.old.items ++ all_inserted (ids_in waits.now) (id ∷ rest) }
    ensures lens { (f : ℕ → ℕ) → AreListedBy f waits.now → AreListedBy f segments.old.items
        → AreListedBy f segments.new.items × AreListedBy f result.now }
    ensures rise { IsStrictlyIncreasing (ids_in result.now) }
    ensures capacity { vec_capacity segments.new ≡ vec_capacity segments.old }
{
    match waits {
        [first, rest @ ..] if first.id < id => {
            segments.push_reserved(*first);
            list_before(segments, rest, id)
        }
        _ => waits,
    }
}

/// Pushes these segments.
fn list_all(segments: &mut Vec<Listed>, more: &[Listed])
    requires { vec_len segments.old + length more.now ≤ vec_capacity segments.old }
    ensures items { segments.new.items ≡ segments.old.items ++ more.now }
    ensures capacity { vec_capacity segments.new ≡ vec_capacity segments.old }
{
    for segment in more {
        segments.push_reserved(*segment);
    }
}
