//! How many bytes of objects a new master can load, whatever they are and whatever their order.

ghost use Rattle.std.specs.Prelude.{◌≡◌, ◌<◌, ◌≤◌, ◌^◌, ◌/◌, ℕ, true, false, None, IfSome};
ghost use Rattle.packing.specs.Limits.{AreBounded, heads_by, heads_for, is_limit, mean_opening};
ghost use Rattle.packing.specs.Packing.{AreSound};

use crate::sizes::Sizes;

/// The mean bytes of the openings of so many heads, of which the first lists one segment.
fn mean_opening(sizes: &Sizes, heads: u64) -> u64
    requires few { heads ≤ 2 ^ 32 }
    ensures { result ≡ mean_opening sizes.now heads }
{
    if sizes.format == 2 {
        32 + 8 * (heads + 1)
    } else {
        32 + 4 * (heads + 1)
    }
}

/// How many heads objects of `live` bytes in all close at most, if they close no more than `heads`.
fn heads_by(sizes: &Sizes, largest: u64, live: u64, heads: u64) -> u64
    requires sound { AreSound sizes.now }
    requires heads { heads ≤ sizes.now.segment / 32 }
    ensures { result ≡ heads_by sizes.now largest live heads }
{
    let longest = (sizes.segment / 4).min(largest);
    let opening = mean_opening(sizes, heads);
    live / (sizes.segment + 1 - (longest + opening))
}

/// How many heads objects of `live` bytes in all close at most.
fn heads_for(sizes: &Sizes, largest: u64, live: u64) -> u64
    requires sound { AreSound sizes.now }
    ensures { result ≡ heads_for sizes.now largest live }
{
    let most = sizes.segment / 32;
    let heads = heads_by(sizes, largest, live, most);
    heads_by(sizes, largest, live, heads.min(most - 1) + 1)
}

/// Whether a new master can load any objects of at most `live` bytes in all, in any order, with two whole segments to
/// spare. An object counts the bytes that it has in a segment. None has more than `largest`, nor more than a quarter of
/// a segment. The answer may be false although all such objects could be loaded, and is never true if some couldn't.
/// It takes a few divisions.
pub fn is_limit(sizes: &Sizes, largest: u64, live: u64) -> bool
    requires sound { AreSound sizes.now }
    requires bounded { AreBounded sizes.now }
    ensures { result ≡ is_limit sizes.now largest live }
{
    let heads = heads_for(sizes, largest, live);
    if heads > sizes.segment / 32 - 2 {
        return false;
    }
    let whole = sizes.segment / sizes.seglet;
    if (heads + 5) * whole <= sizes.seglets {
        return true;
    }
    let opening = mean_opening(sizes, heads);
    let closed = heads * (opening + sizes.seglet);
    5 * whole * sizes.seglet + live + closed <= sizes.seglets * sizes.seglet
}

/// The greatest number of bytes of which `is_limit` is true. None if it is true of none, not even of 0. It is found by
/// bisection, in at most 50 tests.
pub fn greatest_limit(sizes: &Sizes, largest: u64) -> Option<u64>
    requires sound { AreSound sizes.now }
    requires bounded { AreBounded sizes.now }
    ensures limit { IfSome result (λ n. is_limit sizes.now largest n ≡ true) }
    ensures greatest { IfSome result (λ n. (m : ℕ) → n < m → is_limit sizes.now largest m ≡ false) }
    ensures none { result ≡ None → (m : ℕ) → is_limit sizes.now largest m ≡ false }
{
    if !is_limit(sizes, largest, 0) {
        return None;
    }
    let mut limit = 0;
    let mut above = sizes.segment / 32 * (sizes.segment + 1);
    while above - limit > 1 {
        let middle = limit + (above - limit) / 2;
        if is_limit(sizes, largest, middle) {
            limit = middle;
        } else {
            above = middle;
        }
    }
    Some(limit)
}
