// The table of sockets: one slot a socket, each within its ranges.
ghost use Rattle.std.specs.Prelude.{◌≡◌, ℕ, ◌<◌, length, replicate, IsTrue, OnErr, OnOk, slice_index_or, slice_set};
ghost use Rattle.table.specs.declared.slot.Slot.TheVariants.{Empty};
ghost use Rattle.table.specs.Slots.{sound_slot};
ghost use Rattle.table.specs.Tables.{running, set_verdict};

use crate::slot::Slot;
use congruence::Refusal;
use draws::DrawList;

pub const SOCKETS: usize = 24;

// It has the form of a list of boxes, which holds other content. By a rule of the project it is the bank's plain table,
// with its rows in its invariant and its array copied and written back whole, and so a type of its own and no instance
// of a generic one.
#[derive(Clone, Copy)]
pub struct Table {
    pub(crate) slots: [Slot; 24],
    ghost whole: { length slots ≡ 24 },
    ghost ranges: { (k : ℕ) → k < 24 → IsTrue (sound_slot (slice_index_or slots k Empty)) },
}

impl Table {
    pub fn new() -> Table
        ensures { result.slots ≡ replicate 24 Empty }
    {
        Table {
            slots: [Slot::Empty; 24],
        }
    }

    // Every socket's slot, from socket 0 up.
    pub fn slots(&self) -> &[Slot]
        ensures { result.now ≡ self.now.slots }
    {
        &self.slots
    }

    // What a socket holds; past the last socket there is nothing.
    pub fn at(&self, socket: usize) -> Slot
        ensures { result ≡ slice_index_or self.now.slots socket Empty }
    {
        self.slots.get(socket).copied().unwrap_or(Slot::Empty)
    }

    // Puts a slot's content into a socket, or refuses it and leaves the table as it was.
    pub fn set(&mut self, socket: usize, slot: Slot) -> Result<(), Refusal>
        ensures told { result ≡ set_verdict socket slot }
        ensures ok { OnOk result (self.new.slots ≡ slice_set self.old.slots socket slot) }
        ensures err { OnErr result (self.new ≡ self.old) }
    {
        if socket >= SOCKETS {
            return Err(Refusal::SocketOutOfRange);
        }
        slot.check()?;
        let mut slots = self.slots;
        slots[socket] = slot;
        *self = Table { slots };
        Ok(())
    }

    // The running boxes, each at the place of its socket.
    pub fn running(&self) -> DrawList
        ensures { result.places ≡ running self.now.slots }
    {
        let mut list = DrawList::new();
        for (socket, slot) in self.slots.iter().enumerate() {
            if let Slot::Running(draw) = slot {
                // A table's box is within the ranges of a list, and so the list takes it.
                let _ = list.set(socket, *draw);
            }
        }
        list
    }
}
