// A grid over memory that the caller lends.
use crate::record::Record;
use points::dimensions::Dims;
use store::Store;

/// A grid of one to four dimensions: its number, the number of its next ticket, and the points that are in and out.
#[derive(Drop)]
pub struct Grid<'g, 'm, K> {
    pub(crate) dims: Dims,
    pub(crate) number: u32,
    pub(crate) next_ticket: u64,
    pub(crate) store: &'g mut Store<'m, Record<K>>,
}
