//! Chance, from a seed.

/// Numbers that look like chance, from a seed.
#[derive(Drop)]
pub struct Chance {
    state: u64,
}

impl Chance {
    pub fn new(seed: u64) -> Self {
        Chance { state: seed }
    }

    /// A number below this one; 0, if there is none.
    pub fn below(&mut self, count: usize) -> usize {
        self.state = self
            .state
            .wrapping_mul(6364136223846793005)
            .wrapping_add(1442695040888963407);
        let number = (self.state >> 33) as usize;
        if count == 0 { 0 } else { number % count }
    }

    /// Once in N times.
    pub fn one_in(&mut self, count: usize) -> bool {
        self.below(count) == 0
    }
}
