//! Laws about an index, for a caller whose resolver changes or whose places move.

ghost use Rattle.places.specs.Law.{KeepsFound, FindsTold, NamesFound, MovesFound, GoesFound};

/// If another resolver gives the same key at each held place, then each key is found at the same place.
pub fn resolvers_agree()
    ensures again { KeepsFound }
    ensures told { FindsTold }
{}

/// If a key stands at a place, then the index names the place for the key exactly if the key is found there.
pub fn names_what_is_found()
    ensures { NamesFound }
{}

/// If a key's place moves to a place where the same key stands, then the key is found there, and every other key where
/// it was. If all places move, and the same key stands at each new place, then each key is found at its new place.
pub fn found_places_move()
    ensures one { MovesFound }
    ensures all { GoesFound }
{}
