// The finder to use where no other is asked for.
#![tactic(auto)]

use congruence::Refusal;
use draws::DrawList;
use finder::{Finder, FullFinder};
use load::Load;
use reduce::{Choose, Reduce};
use search::Search;
use walk::Walk;

// With the periods reduced, goes through one cycle where it is short, and searches where it is not.
#[derive(Drop)]
pub struct PeakFinder {
    chosen: Choose<Reduce<Walk>, Reduce<Search>>,
}

impl PeakFinder {
    pub fn new() -> PeakFinder {
        PeakFinder {
            chosen: Choose {
                first: Reduce { below: Walk },
                second: Reduce { below: Search },
            },
        }
    }
}

impl<L: Load> Finder<L> for PeakFinder {
    ghost reach = { λ _ _. Unit {0} };

    fn find(&mut self, list: &DrawList) -> Result<(u32, u32), Refusal> {
        Ok(FullFinder::<L>::find_any(&mut self.chosen, list))
    }
}

impl<L: Load> FullFinder<L> for PeakFinder {
    ghost full = { λ _ _. tt };
}
