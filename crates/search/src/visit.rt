// Going through the groups whose boxes all meet.
ghost use Rattle.std.specs.Prelude.{◌≡◌};
ghost use Rattle.draws.specs.Draws.{Found};
ghost use Rattle.search.specs.Visits.{IsNode, Reached, Tabled, Visited};

use crate::table::{held, meetings};
use draws::DrawList;
use load::Load;
use std::cmp::max_by_key;

// Where a search stands: a group whose boxes all meet, its load, and the places that are left to add to it.
#[derive(Clone, Copy)]
pub struct Node<L> {
    pub group: u32,
    pub load: L,
    pub left: u32,
}

// The best of `best`, a peak and its group, and of all groups that hold the node's and else only places that it
// has left. The next place is the lowest of these: first with it, then without. A branch is cut where all that it
// has left together does not measure more than the best.
// The list and its meetings are two parameters. A struct of both was tried: that they belong together is told by ticks,
// and a ghost field holds only what is told in one way.
fn visit<L: Load>(list: &DrawList, meets: &[u32; 24], node: Node<L>, best: (u32, u32)) -> (u32, u32)
    requires tabled { Tabled list.now.places 24 meets.now }
    requires node { IsNode L.Load.kind list.now.places node.group node.load node.left best.0 }
    requires reached { Reached L.Load.kind list.now.places best.0 best.1 }
    ensures { Visited L.Load.kind list.now.places node.group node.left best.0 result.0 result.1 }
{
    let Node { group, load, left } = node;
    if left == 0 || load.plus(list.load_of(left)).measure() <= best.0 {
        return best;
    }
    let next = left.trailing_zeros() as usize;
    let rest = left & (left - 1);
    let with = Node {
        group: group | (1 << next),
        load: load.plus(list.load_at(next)),
        left: rest & meets[next],
    };
    // Of groups that measure the same the one that was visited first stays.
    let here = max_by_key((with.load.measure(), with.group), best, |found| found.0);
    let taken = visit(list, meets, with, here);
    visit(list, meets, Node { left: rest, ..node }, taken)
}

// The peak of a list, and a group that reaches it.
pub fn best_group<L: Load>(list: &DrawList) -> (u32, u32)
    ensures { Found L.Load.kind list.now.places result.0 result.1 }
{
    let start = Node {
        group: 0,
        load: L::none(),
        left: held(list),
    };
    visit(list, &meetings(list), start, (0, 0))
}
