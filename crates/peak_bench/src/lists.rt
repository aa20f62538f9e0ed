// Full lists of boxes, the same in every run.
ghost use Rattle.std.specs.Prelude.{◌<◌};

use congruence::Clock;
use draws::{Draw, DrawList, PLACES};
use load::Rating;

// Periods with many divisors.
static COMPOSITE: [u16; 16] = [
    240, 360, 420, 480, 504, 540, 600, 630, 660, 720, 756, 780, 840, 900, 924, 960,
];

// A generator of numbers that look random.
#[derive(Debug, Drop)]
pub struct Random {
    state: u64,
}

impl Random {
    pub fn new(seed: u64) -> Random {
        Random { state: seed }
    }

    fn next_u64(&mut self) -> u64 {
        let mut x = self.state;
        x ^= x << 13;
        x ^= x >> 7;
        x ^= x << 17;
        self.state = x;
        x
    }

    fn below(&mut self, n: u16) -> u16
        requires { 0 < n }
        ensures { result < n }
    {
        ((self.next_u64() >> 16) % u64::from(n)) as u16
    }

    fn rating(&mut self) -> Rating {
        Rating {
            a: u32::from(self.below(30)) + 1,
            b: 0,
            c: 0,
        }
    }

    fn random_box(&mut self) -> Draw {
        let period = self.below(1_000) + 1;
        let wait = self.below(period);
        Draw {
            clock: Clock { period, wait },
            rating: self.rating(),
        }
    }

    // A box that draws some multiple of 2,520 ticks after the given one. Of two such boxes most
    // meet.
    fn composite_box(&mut self, tick: u16) -> Draw {
        let period = COMPOSITE[usize::from(self.below(16))];
        let later = u64::from(self.below(40)) * 2_520;
        let wait = ((u64::from(tick) + later) % u64::from(period)) as u16;
        Draw {
            clock: Clock { period, wait },
            rating: self.rating(),
        }
    }

    pub fn random_list(&mut self) -> DrawList {
        full_list(|| self.random_box())
    }

    pub fn composite_list(&mut self) -> DrawList {
        let tick = self.below(60_000);
        full_list(|| self.composite_box(tick))
    }
}

// A list with a made box at each place; a box that is refused leaves its place empty.
fn full_list<F: FnMut() -> Draw>(mut make: F) -> DrawList
    requires { F.IsAlwaysCallable make }
{
    let mut list = DrawList::new();
    // A place is named by its number: there is nothing yet to go over.
    for place in 0..PLACES {
        let _ = list.set(place, make());
    }
    list
}
