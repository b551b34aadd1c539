//! Numbers that look random, and are the same in every run.

ghost use Rattle.std.specs.Prelude.{◌<◌};

/// A source of numbers, by three shifts of a word.
#[derive(Clone, Copy)]
pub struct Chance {
    word: u32,
}

impl Chance {
    /// The source that each search begins with.
    pub fn new() -> Chance {
        Chance {
            word: 2_463_534_242,
        }
    }

    /// The next number.
    pub fn word(&mut self) -> u32 {
        let mut word = self.word;
        word ^= word << 13;
        word ^= word >> 17;
        word ^= word << 5;
        self.word = word;
        word
    }

    /// A number below the count, or 0 if the count is 0.
    pub fn below(&mut self, count: usize) -> usize
        ensures { 0 < count → result < count }
    {
        let word = self.word() >> 3;
        if count == 0 { 0 } else { word as usize % count }
    }

    /// One of the bits that are set in a word, or 0 if there is none.
    pub fn bit_of(&mut self, bits: u32) -> u32 {
        let mut left = bits;
        for _ in 0..self.below(bits.count_ones() as usize) {
            left &= left.wrapping_sub(1);
        }
        left & !left.wrapping_sub(1)
    }
}
