// What a box is rated at: three whole numbers, whose meaning is the load kind's.
ghost use Rattle.std.specs.Prelude.{◌≡◌};
ghost use Rattle.load.specs.Ratings.{in_range};

// The largest part of a rating.
pub const MOST_PART: u32 = 1_000_000;

#[derive(Clone, Copy, Debug, PartialEq, Eq)]
pub struct Rating {
    pub a: u32,
    pub b: u32,
    pub c: u32,
}

impl Rating {
    // Whether every part is at most 1,000,000.
    pub fn is_in_range(self) -> bool
        ensures { result ≡ in_range self }
    {
        self.a <= MOST_PART && self.b <= MOST_PART && self.c <= MOST_PART
    }
}
