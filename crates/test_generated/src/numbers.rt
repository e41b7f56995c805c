//! Numbers from a fixed generator: each run of the program has the same.
ghost use Rattle.std.specs.Prelude.{◌<◌};

/// A linear congruential generator: modulus 2^32, with the multiplier and the increment of Knuth and Lewis. It
/// has the number that came last.
#[derive(Clone, Copy)]
pub(crate) struct Numbers(pub u32);

impl Numbers {
    /// The next number below this one: the remainder of the high half of the state, whose periods are long.
    pub(crate) fn below(&mut self, count: usize) -> usize
        requires { 0 < count }
        ensures { result < count }
    {
        self.0 = self.0.wrapping_mul(1_664_525).wrapping_add(1_013_904_223);
        (self.0 / 65_536) as usize % count
    }
}
