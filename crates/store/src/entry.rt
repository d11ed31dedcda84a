// One lookup entry.
ghost use Rattle.std.specs.Prelude.{◌≡◌};
ghost use Rattle.store.specs.Index.{blank, taken};

/// What a slot of the hash table holds: nothing yet, nothing any more, or the number of a record.
// No `Option`: a search ends at an empty slot, and goes on past one that is gone.
#[derive(Clone, Copy)]
pub(crate) enum Slot {
    Empty,
    Gone,
    At(usize),
}

// Two halves in one entry, and numbers that lead from entry to entry: the memory is lent as one slice.
/// The entry of number i has the slot i of the hash table, and of the record i the point and the slot that leads to it, its home.
#[derive(Clone, Copy)]
pub struct Entry {
    pub(crate) slot: Slot,
    pub(crate) point: u32,
    pub(crate) home: usize,
}

impl Entry {
    /// An entry to make the memory of; a store takes memory of any content.
    pub fn blank() -> Entry
        ensures { result ≡ blank }
    {
        Entry {
            slot: Slot::Empty,
            point: 0,
            home: 0,
        }
    }
}

impl Slot {
    /// Whether it leads to a record.
    pub(crate) fn is_taken(self) -> bool
        ensures { result ≡ taken self }
    {
        matches!(self, Slot::At(_))
    }
}
