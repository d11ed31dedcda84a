// A finite map from 32-bit point numbers to states, over two slices that the caller lends: one of records, which are the
// states, and one of lookup entries. It allocates nothing.
#![tactic(auto, unfolding(crate::specs::Contents::items, crate::specs::Contents::capacity))]

ghost use Rattle.std.specs.Prelude.{◌≤◌, length};

use table::Table;

mod acts;
mod entry;
mod fault;
mod items;
mod memory;
mod picks;
mod probe;
mod table;
#[cfg(test)]
mod tests;

pub use entry::Entry;
pub use fault::InsertFault;
pub use items::Items;
pub use picks::Picks;

// Counts beside the slices, and numbers of records in place of references: the memory is lent, and nothing is allocated.
/// Room for so many records, of which those in use lie at the front of their slice, and the table that leads to them.
#[derive(Drop)]
pub struct Store<'m, S> {
    room: usize,
    records: &'m mut [S],
    table: Table<'m>,
    ghost fits: { table.used ≤ room },
    ghost records_suffice: { room ≤ length records.now },
    ghost entries_suffice: { room ≤ length table.entries.now },
}
