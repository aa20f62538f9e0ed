// Asks a finder about the list with its periods reduced, which has the same peak and the same groups.
ghost use Rattle.draws.specs.Draws.{Places};
ghost use Rattle.reduce.specs.Reductions.{Reduced};

use crate::reduced::reduced;
use congruence::Refusal;
use draws::DrawList;
use finder::{Finder, FullFinder};
use load::Load;

#[derive(Clone, Copy, Debug, Drop)]
pub struct Reduce<F> {
    pub below: F,
}

impl<L: Load, F: Finder<L>> Finder<L> for Reduce<F> {
    ghost reach = { λ s ps. ((qs : Places) → Reduced ps 24 qs → F.Finder.reach s.below qs) };

    fn find(&mut self, list: &DrawList) -> Result<(u32, u32), Refusal> {
        let short = reduced(list);
        self.below.find(&short)
    }
}

impl<L: Load, F: FullFinder<L>> FullFinder<L> for Reduce<F> {
    ghost full = { λ s _ qs _. F.FullFinder.full s.below qs };
}
