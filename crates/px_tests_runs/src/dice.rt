// Random numbers of a seed.
use rand_core::utils::NextWord;
use rand_pcg::Pcg32;

#[derive(Drop)]
pub struct Dice {
    words: Pcg32,
}

impl Dice {
    pub fn of(seed: u64) -> Dice {
        Dice {
            words: Pcg32::new(seed, 1),
        }
    }

    /// A number below another.
    pub fn below(&mut self, n: u32) -> u32 {
        self.words.next_word() % n.max(1)
    }

    /// A place of a list of so many.
    pub fn place(&mut self, count: usize) -> usize {
        self.words.next_word() as usize % count.max(1)
    }
}
