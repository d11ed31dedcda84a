// What a grid is asked.
use crate::grid::Grid;
use crate::record::Record;
use hats::multiple::halved;
use kinds::kind::Kind;
use points::dimensions::Dims;

impl<'g, 'm, K: Kind> Grid<'g, 'm, K> {
    /// How many points are in.
    pub fn count(&self) -> usize {
        let mut count = 0;
        // An index loop: a chain over the iterator, and one over the numbers, took more than twice the time.
        for i in 0..self.store.len() {
            if let Some((_, Record::In(_))) = self.store.at(i) {
                count += 1;
            }
        }
        count
    }

    /// The integral over the unit cube.
    pub fn integral(&self) -> K {
        // No question about an integral is refused.
        self.sum_of_parts().unwrap_or(K::zero())
    }

    fn sum_of_parts(&self) -> Option<K> {
        let mut sum = K::zero();
        for (point, record) in self.store.iter() {
            sum = sum.sum(part(self.dims, point, record)?)?;
        }
        Some(sum)
    }
}

// What one record adds to the integral: the surplus of a point in, halved as often as its level sum says.
fn part<K: Kind>(dims: Dims, point: u32, record: Record<K>) -> Option<K> {
    match record {
        Record::In(entered) => halved(entered.surplus, dims.level_sum(point)),
        Record::Out(_) => Some(K::zero()),
    }
}
