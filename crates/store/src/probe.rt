// Linear probing: from a point's start to the end of the slots, and then from slot 0 to the start.
ghost use Rattle.std.specs.Prelude.{◌≡◌, ◌<◌, ◌≤◌, length, MatchOption};
ghost use Rattle.store.specs.Index.{Absent, Taken, Free, Scanned, Vacancy, Place, start_of};

use super::entry::Slot;
use super::table::Table;

/// 2^32 over the golden ratio, so that points that lie close together begin far apart.
const SPREAD: u32 = 2_654_435_769;

/// The slot at which the search for a point begins, of `n`.
fn start(p: u32, n: usize) -> usize
    requires { 0 < n }
    ensures value { result ≡ start_of p n }
    ensures bound { result < n }
{
    p.wrapping_mul(SPREAD) as usize % n
}

impl<'m> Table<'m> {
    /// The record of a point.
    pub(crate) fn find(&self, p: u32) -> Option<usize>
        ensures { MatchOption result (Absent self.now.entries.now self.now.used p) (Place self.now.entries.now self.now.used p) }
    {
        if self.used == 0 {
            return None;
        }
        let n = self.entries.len();
        let h = start(p, n);
        if let Some(end) = self.scan(p, h, n) {
            return end;
        }
        self.scan(p, 0, h)?
    }

    // A step for each of the two parts of the way, as `vacancy_in`: one loop over a chain of them took up to twice the time for a slot.
    /// How the search for a point ends in the slots from `from` to `end`: at its record, or with none at an empty slot. Nothing where
    /// it goes on past them.
    fn scan(&self, p: u32, from: usize, end: usize) -> Option<Option<usize>>
        requires order { from ≤ end }
        requires within { end ≤ length self.now.entries.now }
        ensures { Scanned self.now.entries.now self.now.used p from end result }
    {
        for e in &self.entries[from..end] {
            match e.slot {
                Slot::Empty => return Some(None),
                Slot::Gone => {}
                Slot::At(i) => {
                    if self.entries[i].point == p {
                        return Some(Some(i));
                    }
                }
            }
        }
        None
    }

    /// The first slot that is not taken, on the way from a point's start.
    pub(crate) fn vacancy(&self, p: u32) -> usize
        requires { self.now.used < length self.now.entries.now }
        ensures { Free self.now.entries.now (start_of p (length self.now.entries.now)) result }
    {
        let n = self.entries.len();
        let h = start(p, n);
        if let Some(j) = self.vacancy_in(h, n) {
            return j;
        }
        let Some(j) = self.vacancy_in(0, h) else {
            unreachable()
        };
        j
    }

    /// The first slot from `from` to `end` that is not taken.
    fn vacancy_in(&self, from: usize, end: usize) -> Option<usize>
        requires order { from ≤ end }
        requires within { end ≤ length self.now.entries.now }
        ensures { MatchOption result (Taken self.now.entries.now from end) (Vacancy self.now.entries.now from end) }
    {
        // `find` was tried in place of the loop, and that its closure may look at the slots it is given was left unproved.
        for j in from..end {
            if !self.entries[j].slot.is_taken() {
                return Some(j);
            }
        }
        None
    }
}
