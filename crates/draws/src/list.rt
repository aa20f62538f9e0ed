// A list of boxes: one place a socket, each empty or a box within its ranges.
ghost use Rattle.std.specs.Prelude.{◌≡◌, ℕ, ◌<◌, length, replicate, Some, None, IsTrue, OnErr, OnOk, slice_index_or, slice_set};
ghost use Rattle.draws.specs.Checks.{sound};
ghost use Rattle.draws.specs.Lists.{place_verdict};

use crate::draw::Draw;
use congruence::Refusal;

// One place for each socket of a bank.
pub const PLACES: usize = 24;

#[derive(Clone, Copy)]
pub struct DrawList {
    pub(crate) places: [Option<Draw>; 24],
    ghost whole: { length places ≡ 24 },
    ghost ranges: { (k : ℕ) → k < 24 → IsTrue (sound (slice_index_or places k None)) },
}

impl DrawList {
    pub fn new() -> DrawList
        ensures { result.places ≡ replicate 24 None }
    {
        DrawList { places: [None; 24] }
    }

    // Every place, from place 0 up.
    pub fn places(&self) -> &[Option<Draw>]
        ensures { result.now ≡ self.now.places }
    {
        &self.places
    }

    // What stands at a place; past the last place nothing does.
    pub fn at(&self, place: usize) -> Option<Draw>
        ensures { result ≡ slice_index_or self.now.places place None }
    {
        self.places.get(place).copied().flatten()
    }

    // Puts a box at a place, or refuses it and leaves the list as it was.
    pub fn set(&mut self, place: usize, draw: Draw) -> Result<(), Refusal>
        ensures told { result ≡ place_verdict place draw }
        ensures ok { OnOk result (self.new.places ≡ slice_set self.old.places place (Some draw)) }
        ensures err { OnErr result (self.new ≡ self.old) }
    {
        if place >= PLACES {
            return Err(Refusal::SocketOutOfRange);
        }
        draw.check()?;
        let mut places = self.places;
        places[place] = Some(draw);
        *self = DrawList { places };
        Ok(())
    }

    // Empties a place; past the last place there is nothing to empty.
    pub fn clear(&mut self, place: usize)
        ensures { self.new.places ≡ slice_set self.old.places place None }
    {
        if place < PLACES {
            let mut places = self.places;
            places[place] = None;
            *self = DrawList { places };
        }
    }
}
