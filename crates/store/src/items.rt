// The items of a store, one after the other.
ghost use Rattle.std.specs.Iterator.{YieldsFirst, item_count};

use super::entry::Entry;

/// The points and the states of the records that are left.
// Two slices, as they are lent to the store; a `Zip` of their iterators would only wrap them.
#[derive(Clone, Drop)]
pub struct Items<'a, S> {
    pub(crate) entries: &'a [Entry],
    pub(crate) records: &'a [S],
}

impl<'a, S: Copy> Iterator for Items<'a, S> {
    type Item = (u32, S);

    ghost use Rattle.store.specs.Contents.{left};

    ghost next_gives = { YieldsFirst left };

    ghost remaining = { item_count left };

    fn next(&mut self) -> Option<(u32, S)> {
        let (entry, entries) = self.entries.split_first()?;
        let (record, records) = self.records.split_first()?;
        self.entries = entries;
        self.records = records;
        Some((entry.point, *record))
    }
}
