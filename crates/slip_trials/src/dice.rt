// Numbers that look drawn by lot, and are the same in every run.
ghost use Rattle.std.specs.Prelude.{◌-◌, ◌≤◌};

#[derive(Drop)]
pub struct Dice {
    state: u64,
}

impl Dice {
    pub fn new(state: u64) -> Dice {
        Dice { state }
    }

    // The next number of 31 bits.
    fn next(&mut self) -> u32 {
        let scaled = self.state.wrapping_mul(6_364_136_223_846_793_005);
        self.state = scaled.wrapping_add(1_442_695_040_888_963_407);
        (self.state >> 33) as u32
    }

    // A number below `sides`, or 0.
    pub fn roll(&mut self, sides: u32) -> u32
        ensures { result ≤ sides - 1 }
    {
        self.next().checked_rem(sides).unwrap_or(0)
    }

    // A place below `count`, or 0.
    pub fn place(&mut self, count: usize) -> usize
        ensures { result ≤ count - 1 }
    {
        self.roll(u32::try_from(count).unwrap_or(u32::MAX)) as usize
    }

    // A number of 16 bits below `sides`, or 0.
    pub fn short(&mut self, sides: u32) -> u16 {
        u16::try_from(self.roll(sides)).unwrap_or(u16::MAX)
    }
}
