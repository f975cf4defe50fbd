//! The seed of a hash table.
ghost use Rattle.std.specs.Prelude.{◌≡◌, ◌≤◌, ◌+◌, ◌*◌, ◌%◌, ◌^◌};
ghost use Rattle.std.specs.List.{fold};
ghost use Rattle.xm_name_index.specs.Tables.{hash, home_among};

use std::hash::{BuildHasher, Hasher};
use std::random::RandomSource;

/// How the names of a table are hashed: by two random numbers, so that whoever picks references without knowing them can't
/// tell which share a bucket, and references at even distances don't crowd either. No answer depends on it.
#[derive(Clone, Copy)]
pub struct Seed {
    factor: u64,
    summand: u64,
}

impl Seed {
    /// The same seed each time: for tests, and where there are no random numbers.
    pub fn fixed() -> Seed {
        Seed {
            factor: 0x9e37_79b9_7f4a_7c15,
            summand: 0x243f_6a88_85a3_08d3,
        }
    }

    /// A seed of random numbers, or the fixed one where there are none.
    pub fn drawn(rt: &impl RandomSource) -> Seed {
        let mut factor = [0; 8];
        let mut summand = [0; 8];
        if rt.fill_bytes(&mut factor).is_err() || rt.fill_bytes(&mut summand).is_err() {
            return Seed::fixed();
        }
        Seed {
            factor: u64::from_le_bytes(factor),
            summand: u64::from_le_bytes(summand),
        }
    }
}

impl Seed {
    /// The hash of a number, of 32 bits. One product alone leaves even distances even, so its halves are joined by bits
    /// before the second.
    #[inline(always)]
    pub(crate) fn hash(&self, number: u64) -> u64
        ensures { result ≡ hash self.now number }
    {
        let sum = number.wrapping_mul(self.factor).wrapping_add(self.summand);
        (sum ^ (sum >> 32)).wrapping_mul(self.factor) >> 32
    }
}

impl Seed {
    /// The home of a number among so many buckets, which share the hashes in their order.
    #[inline(always)]
    pub(crate) fn home_among(&self, buckets: usize, number: u64) -> usize
        requires { buckets ≤ 2 ^ 32 }
        ensures { result ≡ home_among self.now buckets number }
    {
        ((self.hash(number) * buckets as u64) >> 32) as usize
    }
}

impl BuildHasher for Seed {
    type Hasher = SeededHasher;

    ghost build_hasher = { λ seed. record { seed = seed; number = 0 } };

    fn build_hasher(&self) -> SeededHasher {
        SeededHasher {
            seed: *self,
            number: 0,
        }
    }
}

/// The hash of a number of up to eight bytes.
#[derive(Clone, Copy)]
pub struct SeededHasher {
    seed: Seed,
    // The bytes so far, the last one lowest.
    number: u64,
}

impl Hasher for SeededHasher {
    ghost write = { λ s bytes. record s { number = fold (λ number byte. (number * 256 + byte) % 2 ^ 64) s.number bytes } };

    ghost finish = { λ s. hash s.seed s.number };

    fn finish(&self) -> u64 {
        self.seed.hash(self.number)
    }

    fn write(&mut self, bytes: &[u8]) {
        for byte in bytes {
            self.number = self.number.wrapping_mul(256).wrapping_add(u64::from(*byte));
        }
    }
}
