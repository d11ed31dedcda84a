// What a store does.
ghost use Rattle.std.specs.Prelude.{◌≡◌, ℕ, ◌+◌, ◌-◌, ◌^◌, ◌<◌, ◌≤◌, [], length, Some, None};
ghost use Rattle.std.specs.List.{slice_get};
ghost use Rattle.store.specs.Index.{point_at};
ghost use Rattle.store.specs.Contents.{items, capacity, status, left, Holds};
ghost use Rattle.store.specs.Layout.{Written};
ghost use Rattle.store.specs.Items.{room_for, InsertAnswer, ReplaceAnswer, RemoveAnswer, Removed, Weeded};

use super::Store;
use super::entry::Entry;
use super::fault::InsertFault;
use super::items::Items;
use super::memory::room_for;
use super::picks::Picks;
use super::table::Table;

impl<'m, S: Copy> Store<'m, S> {
    // That nothing is held is told of the items and of every state by `new`, `reset` and `clear`: other calls put points in, so that it is
    // no invariant.
    /// A store that holds nothing, with room for `room` points, or for none where a slice is shorter than that.
    pub fn new(room: usize, records: &'m mut [S], entries: &'m mut [Entry]) -> Store<'m, S>
        ensures empty { items result ≡ [] }
        ensures none { (q : ℕ) → status result q ≡ None }
        ensures room { capacity result ≡ room_for room (length records.old) (length entries.old) }
    {
        Store {
            room: room_for(room, records.len(), entries.len()),
            records,
            table: Table::new(entries),
        }
    }

    /// How many points it can hold.
    pub fn capacity(&self) -> usize
        ensures { result ≡ capacity self.now }
    {
        self.room
    }

    /// How many points it holds.
    pub fn len(&self) -> usize
        ensures { result ≡ length (items self.now) }
    {
        self.table.used
    }

    /// The state of a point.
    pub fn get(&self, point: u32) -> Option<S>
        ensures { result ≡ status self.now point }
    {
        let i = self.table.find(point)?;
        Some(self.records[i])
    }

    /// The item of number `i`, in an order that is open.
    pub fn at(&self, i: usize) -> Option<(u32, S)>
        ensures { result ≡ slice_get (items self.now) i }
    {
        if i < self.table.used {
            Some((self.table.entries[i].point, self.records[i]))
        } else {
            None
        }
    }

    /// The items, in that order.
    pub fn iter(&self) -> Items<'_, S>
        ensures items { left result ≡ items self.now }
        ensures bound { length (left result) < 2 ^ 64 }
    {
        let n = self.table.used;
        Items {
            entries: &self.table.entries[..n],
            records: &self.records[..n],
        }
    }

    // That the capacity stays is a clause of each call below that changes the store, and of `clear`: it is about the store before and
    // after, which no invariant can be.
    /// Gives a state to a point that has none.
    pub fn insert(&mut self, point: u32, state: S) -> Result<(), InsertFault>
        ensures answer { InsertAnswer (items self.old) (items self.new) (capacity self.old) point state result }
        ensures room { capacity self.new ≡ capacity self.old }
    {
        if self.table.find(point).is_some() {
            return Err(InsertFault::Known);
        }
        let used = self.table.used;
        if used == self.room {
            return Err(InsertFault::Full);
        }
        self.table.push(point);
        self.records[used] = state;
        Ok(())
    }

    /// Gives another state to a point that has one, and tells whether it had.
    pub fn replace(&mut self, point: u32, state: S) -> bool
        ensures answer { ReplaceAnswer (items self.old) (items self.new) point state result }
        ensures room { capacity self.new ≡ capacity self.old }
    {
        let Some(i) = self.table.find(point) else {
            return false;
        };
        self.records[i] = state;
        true
    }

    /// Removes a point, and tells whether it had a state.
    pub fn remove(&mut self, point: u32) -> bool
        ensures answer { RemoveAnswer (items self.old) (items self.new) point result }
        ensures room { capacity self.new ≡ capacity self.old }
    {
        let Some(i) = self.table.find(point) else {
            return false;
        };
        self.remove_at(i);
        true
    }

    /// Removes each point whose state is picked, and tells how many. It goes downward, so that what takes a removed record's
    /// place was looked at before.
    pub fn remove_picked<P: Picks<S>>(&mut self, picks: &P) -> usize
        ensures weeded { Weeded (items self.old) (items self.new) (P.picked picks.now) result }
        ensures room { capacity self.new ≡ capacity self.old }
    {
        let mut n = 0;
        // An index loop: a turn may move the records.
        for k in (0..self.table.used).rev() {
            if picks.picks(self.records[k]) {
                self.remove_at(k);
                n += 1;
            }
        }
        n
    }

    /// Removes the point of record `i`: the last record takes its place.
    fn remove_at(&mut self, i: usize)
        requires { i < self.old.table.used }
        ensures room { capacity self.new ≡ capacity self.old }
        ensures used { self.new.table.used + 1 ≡ self.old.table.used }
        ensures moved { Written self.old.records.now self.new.records.now i (slice_get self.old.records.now (self.old.table.used - 1)) }
        ensures removed { Removed (items self.old) (items self.new) (point_at self.old.table.entries.now i) }
    {
        self.records[i] = self.records[self.table.used - 1];
        self.table.remove(i);
    }

    /// Tells that the items are a finite map, for the proofs of a caller.
    pub fn facts(&self)
        ensures { Holds self.now }
    {}
}
