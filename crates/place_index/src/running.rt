//! Calls of an index, one after another.

ghost use Rattle.std.specs.Prelude.{◌≡◌, Option, IfOk, OnOk};
ghost use Rattle.entry.specs.declared.key.Key.{Key};
ghost use Rattle.places.specs.Map.{found, AreKeptBy};
ghost use Rattle.place_index.specs.Runs.{answers_to, left_by, AreTold, AreWithin, Carries, IsToldBy, IsWithin};

use crate::call::{MapAnswer, MapCall};
use crate::index::PlaceIndex;
use crate::table::Table;
use entry::NoMemory;
use places::{KeyHash, Resolve};
use std::alloc::Global;

/// Carries out the calls in order and returns their answers. It reserves memory before each `Set`, and grows the index
/// after each `Set`. It fails only if memory runs out. The calls before the one that failed stay carried out.
pub fn run<H: KeyHash, T: Table, R: Resolve>(
    alloc: Global,
    index: &mut PlaceIndex<H, T>,
    resolver: &R,
    calls: &[MapCall],
) -> Result<Vec<MapAnswer>, NoMemory>
    requires { AreWithin calls.now }
    ensures answers { let keys = R.keys resolver.now in let old = index.old.held in AreKeptBy H.hash_of keys old
        → AreTold keys calls.now
        → IfOk result (λ answers. answers.items ≡ answers_to calls.now (λ (k : Key). found keys k old)) }
    ensures map { let keys = R.keys resolver.now in let old = index.old.held in AreKeptBy H.hash_of keys old
        → AreTold keys calls.now → OnOk result (AreKeptBy H.hash_of keys index.new.held
        × ((q : Key) → found keys q index.new.held ≡ left_by calls.now (λ (k : Key). found keys k old) q)) }
{
    let mut answers = Vec::with_capacity(alloc, calls.len())?;
    for call in calls {
        let answer = carry_out(index, resolver, call)?;
        answers.push_reserved(answer);
    }
    Ok(answers)
}

/// Carries out one call.
fn carry_out<H: KeyHash, T: Table, R: Resolve>(
    index: &mut PlaceIndex<H, T>,
    resolver: &R,
    call: &MapCall,
) -> Result<MapAnswer, NoMemory>
    requires { IsWithin call.now }
    ensures { let keys = R.keys resolver.now in AreKeptBy H.hash_of keys index.old.held → IsToldBy keys call.now
        → IfOk result (Carries H.hash_of keys index.old.held call.now index.new.held) }
{
    match call {
        MapCall::Get(key) => Ok(MapAnswer::Found(index.get(resolver, &key.view()))),
        MapCall::Set(key, place) => {
            index.reserve(1)?;
            index.set(resolver, &key.view(), *place);
            index.grow();
            Ok(MapAnswer::Set)
        }
        MapCall::Remove(key) => Ok(MapAnswer::Found(index.remove(resolver, &key.view()))),
        MapCall::MoveTo(key, place) => {
            Ok(MapAnswer::Moved(index.move_to(resolver, &key.view(), *place)))
        }
    }
}
