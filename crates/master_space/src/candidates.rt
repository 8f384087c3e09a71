//! The segments that may be victims of a pass, sorted by how few bytes they keep.

ghost use Rattle.std.specs.Prelude.{◌≡◌, ◌<◌, ◌≤◌, length, insert, take, vec_len, vec_capacity};
ghost use Rattle.master_space.specs.Choosing.{is_before, placed};

use cleaner::MAX_VICTIMS;

/// A segment that may be a victim.
#[derive(Clone, Copy)]
pub struct Candidate {
    pub id: u64,
    /// How many bytes of its objects and tombstones are kept.
    pub kept: usize,
}

/// Returns true if a pass takes `candidate` before `other`: if it keeps fewer bytes, or as many and has the lower id.
fn is_before(candidate: &Candidate, other: &Candidate) -> bool
    ensures { result ≡ is_before candidate.now other.now }
{
    candidate.kept < other.kept || (candidate.kept == other.kept && candidate.id < other.id)
}

/// Returns the place at which `candidate` goes into `candidates`, which are sorted.
fn place_for(candidates: &[Candidate], candidate: &Candidate) -> usize
    ensures within { result ≤ length candidates.now }
    ensures place { insert candidates.now result candidate.now ≡ placed candidate.now candidates.now }
{
    for (at, other) in candidates.iter().enumerate() {
        if is_before(candidate, other) {
            return at;
        }
    }
    candidates.len()
}

/// Puts a candidate at its place among the sorted `best`, and keeps the first 32 of them. The call allocates no memory.
pub fn rank(best: &mut Vec<Candidate>, candidate: Candidate)
    requires few { vec_len best.old ≤ 32 }
    requires room { 32 < vec_capacity best.old }
    ensures placed { best.new.items ≡ take 32 (placed candidate best.old.items) }
    ensures few { vec_len best.new ≤ 32 }
    ensures room { 32 < vec_capacity best.new }
{
    let at = place_for(best.as_slice(), &candidate);
    best.insert(at, candidate).unwrap();
    best.truncate(MAX_VICTIMS);
}
