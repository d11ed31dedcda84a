// Why an insertion is refused.

/// The point has a state already, or the store holds as many points as its capacity.
#[derive(Clone, Copy, PartialEq, Eq, Debug)]
pub enum InsertFault {
    Known,
    Full,
}
