//! Choices by a seeded generator, as a run takes them.

ghost use Rattle.std.specs.Prelude.{◌≡◌, ◌%◌};
ghost use Rattle.ded_io.specs.seeds.Seeded.{seeded};

use crate::Chooser;
use rand_core::SeedableRng;
use rand_core::utils::NextWord;
use rand_pcg::Lcg64Xsh32;
use std::marker::Model;

/// A chooser whose picks go by the words of a generator one after the other: the first pick by the first word, and each word once.
/// A contract sees it as its generator, with the words that are left.
#[derive(Drop)]
pub struct SeedChooser {
    generator: Lcg64Xsh32,
}

impl Model for SeedChooser {
    ghost use Rattle.rand_pcg.specs.Lcg.{Lcg};

    ghost Value = { Lcg };

    ghost view = { λ a. a.generator };
}

impl SeedChooser {
    /// The chooser of a seed. It takes no memory.
    pub fn new(seed: u64) -> SeedChooser
        ensures { result ≡ seeded seed }
    {
        SeedChooser {
            generator: Lcg64Xsh32::seed_from_u64(seed),
        }
    }
}

impl Chooser for SeedChooser {
    ghost use Rattle.ded_io.specs.seeds.Seeded.{word_of, behind_word};

    ghost word = { word_of };

    ghost next = { behind_word };

    fn pick(&mut self, n: u32) -> u32 {
        self.generator.next_word() % n
    }
}
