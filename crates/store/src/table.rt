// The hash table of a store, and how it changes with the records.
ghost use Rattle.std.specs.Prelude.{◌≡◌, ◌+◌, ◌<◌, length};
ghost use Rattle.store.specs.Index.{Index, Absent, Added, Dropped, Rehashed, worn_after};

use super::entry::{Entry, Slot};

// A count beside the slice: the memory is lent.
/// The entries are an index of the first `used` records; `worn` counts the removals since the hash table was made.
#[derive(Drop)]
pub(crate) struct Table<'m> {
    pub(crate) entries: &'m mut [Entry],
    pub(crate) used: usize,
    pub(crate) worn: usize,
    ghost sound: { Index entries.now used },
}

/// Empties every slot, whatever the memory holds.
fn wipe(es: &mut [Entry])
    ensures { Rehashed es.old es.new 0 }
{
    for e in es {
        e.slot = Slot::Empty;
    }
}

impl<'m> Table<'m> {
    /// A table that leads to no record, over memory of any content.
    pub(crate) fn new(entries: &'m mut [Entry]) -> Table<'m>
        ensures used { result.used ≡ 0 }
        ensures len { length result.entries.now ≡ length entries.old }
    {
        wipe(entries);
        Table {
            entries,
            used: 0,
            worn: 0,
        }
    }

    /// Leads to no record from now on.
    pub(crate) fn clear(&mut self)
        ensures used { self.new.used ≡ 0 }
        ensures rehashed { Rehashed self.old.entries.now self.new.entries.now 0 }
        ensures worn { self.new.worn ≡ 0 }
    {
        let es = &mut *self.entries;
        wipe(es);
        self.used = 0;
        self.worn = 0;
    }

    /// One record more, at the end.
    pub(crate) fn push(&mut self, p: u32)
        requires room { self.old.used < length self.old.entries.now }
        requires absent { Absent self.old.entries.now self.old.used p }
        ensures used { self.new.used ≡ self.old.used + 1 }
        ensures added { Added self.old.entries.now self.new.entries.now self.old.used p }
        ensures worn { self.new.worn ≡ self.old.worn }
    {
        let i = self.used;
        let j = self.vacancy(p);
        let es = &mut *self.entries;
        es[i] = Entry {
            point: p,
            home: j,
            ..es[i]
        };
        es[j].slot = Slot::At(i);
        self.used = i + 1;
    }

    /// One record less: the last takes the place of record `i`, and the slot that led to `i` is gone.
    pub(crate) fn remove(&mut self, i: usize)
        requires { i < self.old.used }
        ensures used { self.new.used + 1 ≡ self.old.used }
        ensures dropped { Dropped self.old.entries.now self.new.entries.now self.old.used i }
        ensures worn { self.new.worn ≡ worn_after self.old.worn (length self.old.entries.now) }
    {
        let last = self.used - 1;
        let es = &mut *self.entries;
        let hole = es[i].home;
        let Entry { point, home, .. } = es[last];
        es[home].slot = Slot::At(i);
        es[i] = Entry {
            point,
            home,
            ..es[i]
        };
        es[hole].slot = Slot::Gone;
        self.used = last;
        self.wear();
    }

    /// Counts a removal: makes the hash table anew once a quarter of its slots may be gone.
    fn wear(&mut self)
        ensures used { self.new.used ≡ self.old.used }
        ensures rehashed { Rehashed self.old.entries.now self.new.entries.now self.old.used }
        ensures worn { self.new.worn ≡ worn_after self.old.worn (length self.old.entries.now) }
    {
        if self.worn < self.entries.len() / 4 {
            self.worn += 1;
        } else {
            self.rebuild();
        }
    }

    /// Makes the hash table anew, with no slot that is gone.
    fn rebuild(&mut self)
        ensures used { self.new.used ≡ self.old.used }
        ensures rehashed { Rehashed self.old.entries.now self.new.entries.now self.old.used }
        ensures worn { self.new.worn ≡ 0 }
    {
        let used = self.used;
        self.clear();
        // An index loop: each turn writes the entries that it reads.
        for i in 0..used {
            let p = self.entries[i].point;
            self.push(p);
        }
    }
}
