//! Numbers that come alike of the same seed.

/// Dice: a linear congruence, of which the upper bits are taken.
#[derive(Clone, Copy)]
pub struct Dice {
    state: u64,
}

impl Dice {
    /// Returns the dice of one connection at a station of this seed.
    pub fn new(seed: u64, connection: usize) -> Dice {
        Dice {
            state: seed.wrapping_mul(1_000_003).wrapping_add(connection as u64),
        }
    }

    /// Returns any number below 2 ^ 31.
    pub fn throw(&mut self) -> u64 {
        self.state = self
            .state
            .wrapping_mul(6_364_136_223_846_793_005)
            .wrapping_add(1_442_695_040_888_963_407);
        self.state >> 33
    }

    /// Returns a number of bytes: none once in four times, and else up to this number.
    pub fn cut(&mut self, most: u64) -> usize {
        if self.throw() % 4 == 0 {
            return 0;
        }
        (self.throw() % most.max(1)) as usize
    }
}
