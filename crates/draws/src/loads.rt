// What places of a list draw at a tick, and what load they are.
ghost use Rattle.std.specs.Prelude.{◌≡◌, IsTrue, None, slice_index_or};
ghost use Rattle.draws.specs.Draws.{bit, drawing, load_of, total};
ghost use Rattle.draws.specs.Masks.{Names};

use crate::list::DrawList;
use load::Load;

impl DrawList {
    // The load of what stands at a place.
    pub fn load_at<L: Load>(&self, place: usize) -> L
        ensures { result ≡ load_of L.Load.kind (slice_index_or self.now.places place None) }
    {
        match self.at(place) {
            Some(draw) => L::of(draw.rating),
            None => L::none(),
        }
    }

    // The load of the places that a mask names; its bits above the last place name nothing.
    pub fn load_of<L: Load>(&self, mask: u32) -> L
        ensures { result ≡ total L.Load.kind (bit mask) 0 self.now.places }
    {
        let mut left = mask & 0xff_ffff;
        let mut sum = L::none();
        while left != 0 {
            let next = left.trailing_zeros() as usize;
            left &= left - 1;
            sum = sum.plus(self.load_at(next));
        }
        sum
    }

    // The places that draw at a tick. A walk asks this at every tick, so the mask is made as the places are gone
    // through, and not by `mask_of`, which reads an array that would have to be filled first.
    pub fn drawing_at(&self, tick: u64) -> u32
        ensures { Names (λ s. IsTrue (drawing self.now.places tick s)) 24 result }
    {
        let mut mask = 0;
        for (place, held) in self.places.iter().enumerate() {
            if held.is_some_and(|draw| draw.is_due(tick)) {
                mask |= 1 << place;
            }
        }
        mask
    }
}
