//! The options that a start asks for, beside those of the store.

ghost use Rattle.std.specs.Prelude.{◌≡◌, None, false, IfSome, IsTrue, length};
ghost use Rattle.fleet_start.specs.Options.{AreMet, DiffersAt, IsMet, IsOther};

/// Whether an option isn't asked for, or is that of the store at this place.
fn is_met(kept: &[u64], i: usize, asked: Option<u64>) -> bool
    ensures met { IsTrue result → IsMet kept.now i asked }
    ensures other { result ≡ false → IsOther kept.now i asked }
{
    match asked {
        None => true,
        Some(option) => match kept.get(i) {
            Some(found) => *found == option,
            None => false,
        },
    }
}

/// The number of the first option that is asked for and that the store lacks or has another one of. The answer is
/// `None` if all options that are asked for are the store's.
pub fn first_other(kept: &[u64], asked: &[Option<u64>]) -> Option<usize>
    ensures none { result ≡ None → AreMet (length asked.now) kept.now asked.now }
    ensures first { IfSome result (λ i. AreMet i kept.now asked.now × DiffersAt i kept.now asked.now) }
{
    for i in 0..asked.len() {
        if !is_met(kept, i, asked[i]) {
            return Some(i);
        }
    }
    None
}
