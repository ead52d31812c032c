//! Words of the generator.
ghost use Rattle.std.specs.Prelude.{◌≡◌};
ghost use Rattle.task_gen.specs.Words.{words_of_number};

use rand_core::{Rng, SeedableRng};
use rand_pcg::Lcg64Xsh32;

/// The first 128 words of the generator PCG XSH-RR 64/32 that this number seeds.
pub fn words_of(number: u64) -> [u32; 128]
    ensures { result ≡ words_of_number number }
{
    let mut generator = Lcg64Xsh32::seed_from_u64(number);
    let mut words = [0; 128];
    for word in words.iter_mut() {
        *word = generator.next_u32();
    }
    words
}
