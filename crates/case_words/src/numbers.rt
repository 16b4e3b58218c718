//! A seeded generator of numbers.
ghost use Rattle.std.specs.Prelude.{◌<◌};

/// Numbers that look random: the high half of a linear congruence (the constants are Knuth's, MMIX).
#[derive(Drop)]
pub struct Numbers {
    state: u64,
}

impl Numbers {
    /// The numbers of a seed.
    pub fn new(seed: u32) -> Numbers {
        Numbers {
            state: u64::from(seed),
        }
    }

    /// The next number.
    pub fn next(&mut self) -> u32 {
        let product = self.state.wrapping_mul(6_364_136_223_846_793_005);
        self.state = product.wrapping_add(1_442_695_040_888_963_407);
        (self.state >> 32) as u32
    }

    /// The next number, below a bound.
    pub fn below(&mut self, bound: u32) -> u32
        requires { 0 < bound }
        ensures { result < bound }
    {
        self.next() % bound
    }

    /// Yes or no.
    pub fn coin(&mut self) -> bool {
        self.next() % 2 == 1
    }

    /// Eight octets.
    pub fn eight(&mut self) -> [u8; 8] {
        let [a, b, c, d] = self.next().to_be_bytes();
        let [e, f, g, h] = self.next().to_be_bytes();
        [a, b, c, d, e, f, g, h]
    }
}
