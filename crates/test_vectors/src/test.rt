//! What a vector drives and tests, as words of bits.

use pld_base::{Trace, Vector};

/// The outside levels of a vector, and those while its clocks are turned, with one level of the pins that it doesn't
/// drive: bit p for pin p.
#[derive(Clone, Copy)]
pub struct Drive {
    pub outside: u32,
    pub turned: u32,
}

/// What a vector drives, with 0 and with 1 at the pins that it doesn't, and the pins that it tests for 1, for 0 and for
/// being released.
#[derive(Clone, Copy)]
pub struct Test {
    pub low: Drive,
    pub high: Drive,
    pub ones: u32,
    pub zeros: u32,
    pub released: u32,
}

/// The bit of a pin; 0 of a pin past them all.
pub fn bit(pin: u8) -> u32 {
    if pin < 32 { 1 << pin } else { 0 }
}

impl Drive {
    /// The levels with those of one more pin.
    fn with(self, outside: u32, turned: u32) -> Drive {
        Drive {
            outside: self.outside | outside,
            turned: self.turned | turned,
        }
    }
}

impl Test {
    /// Nothing is driven or tested.
    fn new() -> Test {
        let none = Drive {
            outside: 0,
            turned: 0,
        };
        Test {
            low: none,
            high: none,
            ones: 0,
            zeros: 0,
            released: 0,
        }
    }

    /// The test with a pin that is driven at these levels.
    fn with_driven(self, outside: u32, turned: u32) -> Test {
        Test {
            low: self.low.with(outside, turned),
            high: self.high.with(outside, turned),
            ..self
        }
    }

    /// The test with a pin that isn't driven.
    fn with_other(self, pin: u32, char: u8) -> Test {
        let mut test = Test {
            high: self.high.with(pin, pin),
            ..self
        };
        match char {
            b'H' => test.ones |= pin,
            b'L' => test.zeros |= pin,
            b'Z' => test.released |= pin,
            _ => {}
        }
        test
    }

    /// The test with the character of one more pin.
    fn with_char(self, pin: u32, char: u8) -> Test {
        match char {
            b'0' => self,
            b'1' => self.with_driven(pin, pin),
            b'C' => self.with_driven(0, pin),
            b'K' => self.with_driven(pin, 0),
            _ => self.with_other(pin, char),
        }
    }

    /// Whether a tested pin isn't as it should be.
    pub fn disagrees(&self, shown: Trace) -> bool {
        let ones = shown.driven & shown.level;
        let zeros = shown.driven & !shown.level;
        self.ones & !ones | self.zeros & !zeros | self.released & shown.driven != 0
    }
}

/// What a vector of a device with so many pins drives and tests.
pub fn test_of(vector: &Vector, pins: u8) -> Test {
    let mut test = Test::new();
    for (index, char) in vector.chars.iter().enumerate() {
        let pin = index as u8 + 1;
        if pin <= pins {
            test = test.with_char(bit(pin), *char);
        }
    }
    test
}
