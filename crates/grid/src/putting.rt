// Points put in by a reader.
ghost use Rattle.std.specs.Prelude.{◌≡◌, [], length, ◌==◌};
ghost use Rattle.store.specs.Contents.{items, capacity};

use crate::grid::Grid;
use crate::record::{Entered, Record};
use crate::surplus::Arrival;
use kinds::kind::Kind;
use points::dimensions::Dims;
use points::point::parent_in;
use points::refusal::Refusal;
use store::InsertFault;

impl<'g, 'm, K: Kind> Grid<'g, 'm, K> {
    /// The number of dimensions.
    pub fn dims(&self) -> Dims
        ensures { result ≡ self.now.dims }
    {
        self.dims
    }

    /// Whether nothing is in or out.
    pub fn is_empty(&self) -> bool
        ensures { result ≡ (length (items self.now.store.now) == 0) }
    {
        self.store.len() == 0
    }

    /// Takes out whatever is in or out.
    pub fn clear(&mut self)
        ensures empty { items self.new.store.now ≡ [] }
        ensures room { capacity self.new.store.now ≡ capacity self.old.store.now }
        ensures dims { self.new.dims ≡ self.old.dims }
        ensures number { self.new.number ≡ self.old.number }
        ensures ticket { self.new.next_ticket ≡ self.old.next_ticket }
    {
        self.store.clear()
    }

    /// Puts a point in, with the value of a whole number as its sample.
    pub fn put(&mut self, point: u32, sample: i32) -> Result<(), Refusal> {
        self.dims.check_point(point)?;
        if self.holds(point) {
            return Err(Refusal::PointIn);
        }
        if !self.has_parents(point) {
            return Err(Refusal::ParentNotIn);
        }
        if self.is_full() {
            return Err(Refusal::PlacesFull);
        }
        let sample = K::whole(sample).ok_or(Refusal::Sample)?;
        self.enter(point, sample)
    }

    // Puts a point in with its sample and its surplus.
    fn enter(&mut self, point: u32, sample: K) -> Result<(), Refusal> {
        let surplus = self
            .surplus_of(Arrival { point, sample })
            .ok_or(Refusal::Sample)?;
        self.store
            .insert(point, Record::In(Entered { sample, surplus }))
            // No `From`: both types are of other crates.
            .map_err(|fault| match fault {
                InsertFault::Known => Refusal::PointIn,
                InsertFault::Full => Refusal::PlacesFull,
            })
    }

    // Whether a point is in or out.
    fn holds(&self, point: u32) -> bool {
        self.store.get(point).is_some()
    }

    // Whether the points in and out fill the places.
    fn is_full(&self) -> bool {
        self.store.len() >= self.store.capacity()
    }

    // Whether every parent of a point is in.
    fn has_parents(&self, point: u32) -> bool {
        (0..4)
            .filter_map(|direction| parent_in(direction, point))
            .all(|parent| matches!(self.store.get(parent), Some(Record::In(_))))
    }
}
