// What a finder is: it answers the peak of a list of boxes, with a group that reaches it.
#![tactic(auto)]

ghost use Rattle.std.specs.Prelude.{◌↔◌};
ghost use Rattle.draws.specs.Draws.{Found, Places};
ghost use Rattle.finder.specs.Finders.{Answered};

use congruence::Refusal;
use draws::DrawList;
use load::Load;

// A finder answers the lists within its reach, and refuses the others; what it remembers besides is its own.
pub trait Finder<L: Load> {
    // Which lists are within reach.
    ghost reach: { Self → Places → Type 0 };

    // The peak, and a group of places that reaches it, as a mask: a pair, by a rule of the project.
    fn find(&mut self, list: &DrawList) -> Result<(u32, u32), Refusal>
        ensures answer { Answered L.Load.kind list.now.places (reach self.old list.now.places) result }
        ensures reach { (ps : Places) → reach self.new ps ↔ reach self.old ps };
}

// A full finder is a finder that has every list within reach, and so answers it.
pub trait FullFinder<L: Load>: Finder<L> {
    fn find_any(&mut self, list: &DrawList) -> (u32, u32)
        ensures answer { Found L.Load.kind list.now.places result.0 result.1 }
        ensures before { (ps : Places) → Self.reach self.old ps }
        ensures after { (ps : Places) → Self.reach self.new ps }
    {
        self.find(list).unwrap()
    }

    ghost full: { (finder : Self) (ps : Places) → Self.reach finder ps };
}
