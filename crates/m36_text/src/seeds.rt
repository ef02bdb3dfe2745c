//! The seeds of hash tables.
//!
//! A table whose keys come from an input hashes them by SipHash with a seed: the SHA-512/256 digest
//! of that input. Keys that collide under one seed need not collide under another. The author of an
//! input knows its seed only once its last byte is chosen, and a change of a key changes the seed.

ghost use Rattle.std.specs.Prelude.{◌≡◌, ◌++◌, IfOk};
ghost use Rattle.m36_text.specs.Packing.{packed};
ghost use Rattle.m36_text.specs.Seeds.{seed_with, seed_of};

use crate::packing::pack;
use m36_word::{NoMemory, Word};
use sha2::{Digest, Sha512_256};
use std::alloc::Global;
use std::hash::{BuildHasher, DefaultHasher, Hasher};

/// The seed of the hash tables of one input. As a `BuildHasher` it makes hashers that have already
/// read the digest.
#[derive(Clone, Copy)]
pub struct HashSeed {
    hasher: DefaultHasher,
    digest: [u8; 32],
}

impl HashSeed {
    /// The seed of an input, given as all its bytes.
    pub fn of(input: &[u8]) -> HashSeed
        ensures { result ≡ seed_of input.now }
    {
        HashSeed::with(Sha512_256::digest(input))
    }

    /// The seed of a list of words: that of the bytes into which `pack` packs them. Fails only with
    /// `NoMemory`.
    pub fn of_words(alloc: Global, words: &[Word]) -> Result<HashSeed, NoMemory>
        ensures { IfOk result (λ seed. seed ≡ seed_of (packed words.now)) }
    {
        let file = pack(alloc, words)?;
        let seed = HashSeed::of(file.bytes());
        drop(file);
        Ok(seed)
    }

    /// The seed of two inputs together, made of the digests of both in this order.
    pub fn joined(&self, other: &HashSeed) -> HashSeed
        ensures { result ≡ seed_of (self.now.digest ++ other.now.digest) }
    {
        let mut both = Sha512_256::new_with_prefix(&self.digest);
        both.update(&other.digest);
        HashSeed::with(both.finalize())
    }

    // The seed with this digest.
    fn with(digest: [u8; 32]) -> HashSeed
        ensures { result ≡ seed_with digest }
    {
        let mut hasher = DefaultHasher::new();
        hasher.write(&digest);
        HashSeed { hasher, digest }
    }
}

impl BuildHasher for HashSeed {
    type Hasher = DefaultHasher;

    ghost build_hasher = { λ s. s.hasher };

    fn build_hasher(&self) -> DefaultHasher {
        self.hasher
    }
}
