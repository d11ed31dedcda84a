// The memory of a store, and its use anew.
ghost use Rattle.std.specs.Prelude.{◌≡◌, ◌≤◌, ℕ, [], length, None};
ghost use Rattle.store.specs.Contents.{items, capacity, status};
ghost use Rattle.store.specs.Items.{room_for};
ghost use Rattle.store.specs.Memory.{places, lookups};

use super::Store;

/// The room that slices of these lengths have for `n` records.
pub(crate) fn room_for(n: usize, records: usize, entries: usize) -> usize
    ensures value { result ≡ room_for n records entries }
    ensures bound { (result ≤ records) × (result ≤ entries) }
{
    if n <= records && n <= entries { n } else { 0 }
}

impl<'m, S: Copy> Store<'m, S> {
    /// How many records were lent.
    pub fn places(&self) -> usize
        ensures { result ≡ places self.now }
    {
        self.records.len()
    }

    /// How many lookup entries were lent.
    pub fn lookups(&self) -> usize
        ensures { result ≡ lookups self.now }
    {
        self.table.entries.len()
    }

    /// Holds nothing from now on, with room for `room` points, or for none where a slice is shorter than that.
    pub fn reset(&mut self, room: usize)
        ensures empty { items self.new ≡ [] }
        ensures none { (q : ℕ) → status self.new q ≡ None }
        ensures room { capacity self.new ≡ room_for room (places self.old) (lookups self.old) }
    {
        let room = room_for(room, self.places(), self.lookups());
        self.table.clear();
        self.room = room;
    }

    /// Holds nothing from now on, with the same capacity.
    pub fn clear(&mut self)
        ensures empty { items self.new ≡ [] }
        ensures none { (q : ℕ) → status self.new q ≡ None }
        ensures room { capacity self.new ≡ capacity self.old }
    {
        self.reset(self.room)
    }
}
