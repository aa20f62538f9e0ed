// Reduces the periods of a list, each to what its meetings with the other places depend on.
ghost use Rattle.std.specs.Prelude.{◌≡◌, Some, None, Ok, slice_index_or};
ghost use Rattle.draws.specs.Checks.{draw_verdict};
ghost use Rattle.reduce.specs.Reductions.{Reduced, ReducedAt};

use congruence::Clock;
use draws::{Draw, DrawList};

// The box of a place with its period reduced.
fn shorter(list: &DrawList, place: usize, draw: Draw) -> Draw
    requires { slice_index_or list.now.places place None ≡ Some draw }
    ensures shortened { ReducedAt list.now.places place (Some draw) (Some result) }
    ensures fits { draw_verdict result ≡ Ok tt }
{
    match list.factor_without(place, draw.clock.period) {
        Some(period) => Draw {
            clock: Clock {
                period,
                wait: draw.clock.wait % period,
            },
            rating: draw.rating,
        },
        None => unreachable(),
    }
}

pub fn reduced(list: &DrawList) -> DrawList
    ensures { Reduced list.now.places 24 result.places }
{
    let mut out = DrawList::new();
    for (place, held) in list.places().iter().enumerate() {
        if let Some(draw) = held {
            let _ = out.set(place, shorter(list, place, *draw));
        }
    }
    out
}
