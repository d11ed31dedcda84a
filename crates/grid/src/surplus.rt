// The surplus of a point, from the samples of its neighbours.
ghost use Rattle.std.specs.Prelude.{◌≤◌};

use crate::grid::Grid;
use crate::record::Record;
use hats::multiple::halved;
use kinds::kind::Kind;
use points::point::neighbours_in;

/// A point that comes in, and its sample.
#[derive(Clone, Copy)]
pub(crate) struct Arrival<K> {
    pub(crate) point: u32,
    pub(crate) sample: K,
}

/// What one way adds: the sample found, halved once for each direction moved, and negated if these are odd in number.
fn term<K: Kind>(sample: K, moves: u32) -> Option<K> {
    let part = halved(sample, moves)?;
    if moves % 2 == 1 {
        part.negative()
    } else {
        Some(part)
    }
}

impl<'g, 'm, K: Kind> Grid<'g, 'm, K> {
    /// The sample of a point in, once the arrival is in too; zero for any other.
    fn sample_with(&self, arrival: Arrival<K>, point: u32) -> K {
        if point == arrival.point {
            return arrival.sample;
        }
        match self.store.get(point) {
            Some(Record::In(entered)) => entered.sample,
            _ => K::zero(),
        }
    }

    /// The sum of all ways to stay or to go to a neighbour in each direction from `direction` on, from a place that is so
    /// many moves away. A way that meets the border adds nothing.
    fn ways(&self, arrival: Arrival<K>, direction: usize, place: u32, moves: u32) -> Option<K>
        requires { moves ≤ direction }
    {
        if direction >= usize::from(self.dims.count()) {
            return term(self.sample_with(arrival, place), moves);
        }
        let mut sum = self.ways(arrival, direction + 1, place, moves)?;
        let (left, right) = neighbours_in(direction, place);
        // A chain of the two, which makes no array.
        for next in left.into_iter().chain(right) {
            sum = sum.sum(self.ways(arrival, direction + 1, next, moves + 1)?)?;
        }
        Some(sum)
    }

    /// The surplus of a point that comes in, or nothing where the kind has no answer on the way.
    pub(crate) fn surplus_of(&self, arrival: Arrival<K>) -> Option<K> {
        self.ways(arrival, 0, arrival.point, 0)
    }
}
