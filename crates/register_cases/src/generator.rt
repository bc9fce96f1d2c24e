// A seeded generator of random numbers (xorshift).
#[derive(Drop)]
pub(crate) struct Generator {
    state: u64,
}

impl Generator {
    pub(crate) fn new(seed: u64) -> Generator {
        Generator { state: seed | 1 }
    }

    // The next 64 random bits.
    pub(crate) fn next(&mut self) -> u64 {
        let mut x = self.state;
        x = x ^ x.wrapping_shl(13);
        x = x ^ (x >> 7);
        x = x ^ x.wrapping_shl(17);
        self.state = x;
        x.wrapping_mul(0x2545_F491_4F6C_DD1D)
    }

    // A number below the bound, which counts as 1 where it is 0.
    pub(crate) fn below(&mut self, bound: u32) -> u32 {
        let bound = bound.max(1);
        let high = (self.next() >> 32) & 0xffff_ffff;
        (high as u32) % bound
    }
}
