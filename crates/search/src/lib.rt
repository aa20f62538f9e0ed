// A full finder that visits only groups whose boxes all meet.
#![tactic(auto)]

mod table;
mod visit;

use congruence::Refusal;
use draws::DrawList;
use finder::{Finder, FullFinder};
use load::Load;
use visit::best_group;

#[derive(Clone, Copy, Debug)]
pub struct Search;

impl<L: Load> Finder<L> for Search {
    ghost reach = { λ _ _. Unit {0} };

    fn find(&mut self, list: &DrawList) -> Result<(u32, u32), Refusal> {
        Ok(best_group::<L>(list))
    }
}

impl<L: Load> FullFinder<L> for Search {
    ghost full = { λ _ _. tt };
}
