//! Which of the segments that a digest lists lost replicas, and how many.

ghost use Rattle.std.specs.Prelude.{◌≡◌, ◌≤◌, length};
ghost use Rattle.master_state.specs.cleaner.Seals.{first_lacking};
ghost use Rattle.log_head.specs.Head.{digest_of};
ghost use Rattle.log_head.specs.Log.{but_last};
ghost use Rattle.master_failover.specs.Left.{lost_of};

use images::Images;
use segment::Segment;

/// Returns the first segment that lacks a replica, and how many replicas it has. The search goes through the segments
/// that the head's digest lists, without the head itself.
pub fn first_lost(image: &Segment, closed: &Images, replicas: usize) -> Option<(u64, usize)>
    ensures { result ≡ first_lacking replicas closed.now.images (but_last (digest_of image.now)) }
{
    let Some(digest) = image.view().digest() else {
        return None;
    };
    let others = digest.count().saturating_sub(1);
    for place in 0..others {
        let id = digest.id(place);
        let held = closed.replicas(id);
        if held < replicas {
            return Some((id, held));
        }
    }
    None
}

/// Counts the lost replicas of the segments that the head's digest lists, without the head itself. The segment `whole`
/// counts as one that has all its replicas, since `closed` doesn't count them.
pub fn lost_of(image: &Segment, whole: u64, closed: &Images, replicas: usize) -> u64
    requires few { replicas ≤ 64 }
    requires listed { length (digest_of image.now) ≤ 262144 }
    ensures lost { result ≡ lost_of replicas closed.now.images whole (but_last (digest_of image.now)) }
    ensures small { result ≤ 16777216 }
{
    let Some(digest) = image.view().digest() else {
        return 0;
    };
    let others = digest.count().saturating_sub(1);
    let mut lost = 0;
    for place in 0..others {
        let id = digest.id(place);
        if id == whole {
            continue;
        }
        lost += replicas.saturating_sub(closed.replicas(id)) as u64;
    }
    lost
}
