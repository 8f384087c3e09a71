//! How a table finds the bucket of a hash.

ghost use Rattle.std.specs.Prelude.{◌≡◌, ◌<◌};
ghost use Rattle.hash_index.specs.Buckets.{bucket_of};

/// Returns the number of the bucket, among `count` buckets, that has the places of a hash. The number is made of as
/// many of the hash's lowest bits as keep it below `count`. So one more bucket takes places from only one other
/// bucket.
#[inline(always)]
pub(crate) fn bucket_at(count: usize, hash: u64) -> usize
    requires { 0 < count }
    ensures bucket { result ≡ bucket_of count hash }
    ensures within { result < count }
{
    let half = 1usize << count.ilog2();
    let low = hash as usize & (half - 1 + half);
    if low < count {
        low
    } else {
        hash as usize & (half - 1)
    }
}
