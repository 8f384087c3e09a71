//! Hashes of keys.
#![tactic(auto)]

ghost use Rattle.std.specs.Prelude.{◌≡◌, ℕ, List, [], ◌∷◌};
ghost use Rattle.entry.specs.declared.key.Key.{Key};
ghost use Rattle.entry.specs.View.{shown_key};
ghost use Rattle.places.specs.Hashing.{fast_hash, secret_hash, hash_by, piece};
ghost use Rattle.places.specs.Secrets.{fast_hasher, secret_seed};

use entry::KeyRef;
use std::hash::{DefaultHasher, FoldHasher, Hasher};

/// A hasher, by which an index hashes keys.
pub trait KeyHash {
    /// The seed: the numbers from which the hasher was made.
    ghost seed: { Self → List ℕ };

    /// The hash of a key under a seed.
    ghost hash_of: { List ℕ → Key → ℕ };

    /// Returns the hash of a key. It depends on the hasher's seed and the key alone.
    fn hash(&self, key: &KeyRef<'_>) -> u64
        ensures { result ≡ hash_of (seed self.now) (shown_key key.now) };
}

/// A secret: two numbers that the embedding program draws at random. Clients, who pick the keys, must not know them.
#[derive(Clone, Copy)]
pub struct Secret {
    pub first: u64,
    pub second: u64,
}

/// The default hasher of an index.
///
/// Without a secret the hash is fast, and the same in every run. A client can then pick any number of keys with the
/// same hash. With a secret the hash is SipHash-1-3, and a client can't pick such keys as long as he doesn't know the
/// secret.
#[derive(Clone, Copy)]
pub struct KeyHasher {
    secret: Option<Secret>,
}

impl KeyHasher {
    /// Makes the fast hasher, which has no secret.
    pub fn new() -> KeyHasher
        ensures { result ≡ fast_hasher }
    {
        KeyHasher { secret: None }
    }

    /// Makes a hasher with this secret.
    pub fn with_secret(secret: Secret) -> KeyHasher
        ensures { secret_seed result.secret ≡ secret.first ∷ secret.second ∷ [] }
    {
        KeyHasher {
            secret: Some(secret),
        }
    }
}

impl KeyHash for KeyHasher {
    ghost seed = { λ h. secret_seed h.secret };

    ghost hash_of = { hash_by };

    #[inline]
    fn hash(&self, key: &KeyRef<'_>) -> u64 {
        match self.secret {
            None => fast_hash(key),
            Some(secret) => secret_hash(secret, key),
        }
    }
}

/// Returns the hash of a key without a secret.
#[inline]
#[tactic(auto, unfolding(crate::specs::Hashing::fast_hash))]
fn fast_hash(key: &KeyRef<'_>) -> u64
    ensures { result ≡ fast_hash (shown_key key.now) }
{
    let mut hasher = FoldHasher::default();
    hasher.write_u64(key.table);
    hasher.write(key.bytes);
    hasher.finish()
}

/// Returns the hash of a key under a secret.
#[tactic(auto, unfolding(crate::specs::Hashing::secret_hash))]
fn secret_hash(secret: Secret, key: &KeyRef<'_>) -> u64
    ensures { result ≡ secret_hash secret.first secret.second (shown_key key.now) }
{
    let mut sip = DefaultHasher::new();
    sip.write_u64(secret.first);
    sip.write_u64(secret.second);
    sip.write_u64(key.table);
    sip.write(key.bytes);
    sip.finish()
}

/// Returns the piece of a hash that an index keeps: its upper 25 bits, or 512 if these are a smaller number.
#[inline]
#[tactic(auto, unfolding(crate::specs::Hashing::piece))]
pub fn piece(hash: u64) -> u64
    ensures { result ≡ piece hash }
{
    (hash >> 39).max(512)
}
