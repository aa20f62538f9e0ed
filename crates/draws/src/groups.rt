// Groups of places as masks: bit s stands for place s.
ghost use Rattle.std.specs.Prelude.{false, IsTrue, slice_index_or};
ghost use Rattle.draws.specs.Masks.{Names};

// The mask of the places that are named.
pub fn mask_of(named: &[bool; 24]) -> u32
    ensures { Names (λ s. IsTrue (slice_index_or named.now s false)) 24 result }
{
    let mut mask = 0;
    for (place, named) in named.iter().enumerate() {
        if *named {
            mask |= 1 << place;
        }
    }
    mask
}
