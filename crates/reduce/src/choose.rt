// Asks the first finder, and the second where the first refuses.
use congruence::Refusal;
use draws::DrawList;
use finder::{Finder, FullFinder};
use load::Load;

#[derive(Clone, Copy, Debug, Drop)]
pub struct Choose<F, G> {
    pub first: F,
    pub second: G,
}

impl<L: Load, F: Finder<L>, G: FullFinder<L>> Finder<L> for Choose<F, G> {
    ghost reach = { λ _ _. Unit {0} };

    fn find(&mut self, list: &DrawList) -> Result<(u32, u32), Refusal> {
        let found = self
            .first
            .find(list)
            .unwrap_or_else(|_| self.second.find_any(list));
        Ok(found)
    }
}

impl<L: Load, F: Finder<L>, G: FullFinder<L>> FullFinder<L> for Choose<F, G> {
    ghost full = { λ _ _. tt };
}
