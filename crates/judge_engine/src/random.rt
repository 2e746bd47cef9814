//! Numbers that look like chance, the same for the same seed.

ghost use Rattle.std.specs.Prelude.{◌<◌};

/// A generator: Steele, Lea and Flood's SplitMix64.
#[derive(Clone, Copy)]
pub(crate) struct Random {
    state: u64,
}

impl Random {
    /// The generator of a seed.
    pub(crate) fn new(seed: u64) -> Random {
        Random { state: seed }
    }

    /// The next number.
    fn next(&mut self) -> u64 {
        self.state = self.state.wrapping_add(0x9e37_79b9_7f4a_7c15);
        let mut mixed = self.state;
        mixed = (mixed ^ (mixed >> 30)).wrapping_mul(0xbf58_476d_1ce4_e5b9);
        mixed = (mixed ^ (mixed >> 27)).wrapping_mul(0x94d0_49bb_1331_11eb);
        mixed ^ (mixed >> 31)
    }

    /// A number below this one; 0, where that is 0.
    pub(crate) fn below(&mut self, limit: u32) -> u32
        ensures { 0 < limit → result < limit }
    {
        let number = self.next();
        if limit == 0 {
            0
        } else {
            (number % u64::from(limit)) as u32
        }
    }

    /// A place in a list that is so long; 0, where it is empty.
    pub(crate) fn place(&mut self, length: usize) -> usize {
        let number = self.next();
        if length == 0 {
            0
        } else {
            (number % (length as u64)) as usize
        }
    }
}
