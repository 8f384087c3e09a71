//! Which replica of a head lags most.

ghost use Rattle.std.specs.Prelude.{◌∷◌, []};
ghost use Rattle.log_head.specs.Head.{IsLagging};

/// Returns the place of the least number, and of several the first, if this number is below `units`.
#[inline(always)]
pub(crate) fn lagging(taken: &[usize], units: usize) -> Option<usize>
    ensures { IsLagging units taken.now result }
{
    match taken {
        [first, second] => lagging_of_two(*first, *second, units),
        _ => lagging_of_all(taken, units),
    }
}

/// Does the same as `lagging` for two numbers, since most heads have two replicas.
#[inline(always)]
fn lagging_of_two(first: usize, second: usize, units: usize) -> Option<usize>
    ensures { IsLagging units (first ∷ second ∷ []) result }
{
    if second < first && second < units {
        return Some(1);
    }
    (first < units).then_some(0)
}

/// Does the same as `lagging` for any count of numbers.
fn lagging_of_all(taken: &[usize], units: usize) -> Option<usize>
    ensures { IsLagging units taken.now result }
{
    let mut found = None;
    let mut least = units;
    let mut place = 0;
    while place < taken.len() {
        if taken[place] < least {
            least = taken[place];
            found = Some(place);
        }
        place += 1;
    }
    found
}
