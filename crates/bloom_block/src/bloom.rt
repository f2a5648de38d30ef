// Places of items by hashes.
ghost use Rattle.std.specs.Prelude.{◌≡◌, ◌<◌, ◌^◌, All, length};

use crate::hashes::place_hash;
use key_codes::{Place, Placement};

/// The places of items by the hashes of their keys.
#[derive(Drop)]
pub struct Bloom {
    hashes: Vec<u64>,
    ghost few: { length hashes.items < 2 ^ 32 },
    ghost fit: { All (λ h. h < 2 ^ 64) hashes.items },
}

impl Bloom {
    ghost use Rattle.bloom_block.specs.Bloom.{seen_hashes};
    ghost use Rattle.bloom_block.specs.Hashes.{bloom_places};

    /// The places of items with these hashes.
    pub fn new(hashes: Vec<u64>) -> Bloom
        requires { length hashes.items < 2 ^ 32 }
        ensures { seen_hashes result ≡ bloom_places hashes.items }
    {
        Bloom { hashes }
    }
}

impl Placement for Bloom {
    ghost use Rattle.bloom_block.specs.Bloom.{seen_hashes};
    ghost use Rattle.bloom_block.specs.Laws.{lawful_hashes};

    ghost seen = { seen_hashes };

    fn items(&self) -> u32 {
        self.hashes.len() as u32
    }

    fn least_words(&self) -> u32 {
        let _hashes = &self.hashes;
        1
    }

    fn place(&self, item: u32, words: u32) -> Place {
        place_hash(self.hashes[item as usize], words)
    }

    ghost lawful = { lawful_hashes };
}
