//! How names are hashed.

ghost use Rattle.std.specs.Prelude.{◌≡◌};
ghost use Rattle.name_table.specs.Hashing.{name_written, name_hash};

use std::hash::Hasher;

/// Hashes a name such that names that were given one after the other lie side by side in a table.
#[derive(Clone, Copy)]
pub struct NameHasher {
    name: u64,
}

impl Default for NameHasher {
    ghost is_default = { λ s. s ≡ record { name = 0 } };

    fn default() -> NameHasher {
        NameHasher { name: 0 }
    }
}

impl Hasher for NameHasher {
    ghost write = { λ s bytes. record { name = name_written s.name bytes } };

    ghost finish = { λ s. name_hash s.name };

    fn finish(&self) -> u64 {
        let four = self.name / 4;
        let tag = (four.wrapping_mul(0x9e37_79b9_7f4a_7c15) >> 58) * 4 + self.name % 4;
        four % (1 << 24) + tag * (1 << 24)
    }

    fn write(&mut self, bytes: &[u8]) {
        if let [a, b, c, d, e, f, g, h] = bytes {
            self.name = u64::from_le_bytes([*a, *b, *c, *d, *e, *f, *g, *h]);
        }
    }

    fn write_u64(&mut self, name: u64) {
        self.name = name;
    }
}
