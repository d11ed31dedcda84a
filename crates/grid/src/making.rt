// The making of a grid.
ghost use Rattle.std.specs.Prelude.{◌≡◌, [], IfOk};
ghost use Rattle.grid.specs.Making.{make_causes, made_dims, made_room};
ghost use Rattle.store.specs.Contents.{items, capacity};
ghost use Rattle.store.specs.Memory.{places, lookups};
ghost use Rattle.points.specs.Refusals.{refusal_of, first};

use crate::grid::Grid;
use crate::record::Record;
use kinds::kind::Kind;
use points::dimensions::Dims;
use points::refusal::Refusal;
use store::Store;

/// The most point places of a grid.
const MOST_PLACES: usize = 4_096;

/// Refuses figures that no grid can be made with: the number of dimensions, of point places and of lookup entries, the
/// grid number and the first ticket number.
pub fn check(
    dims: u32,
    places: usize,
    lookups: usize,
    number: u32,
    ticket: u32,
) -> Result<Dims, Refusal>
    ensures refuses { refusal_of result ≡ first (make_causes dims places lookups number ticket) }
    ensures counts { IfOk result (λ x. x ≡ dims) }
{
    let dims = Dims::new(dims)?;
    if !(1..=MOST_PLACES).contains(&places) || lookups < places {
        return Err(Refusal::Memory);
    }
    if number == 0 || ticket == 0 {
        return Err(Refusal::ZeroNumber);
    }
    Ok(dims)
}

impl<'g, 'm, K: Kind> Grid<'g, 'm, K> {
    /// A grid with nothing in or out, over a store of any content. With figures that the check refuses it has one dimension
    /// and no places.
    pub fn new(
        dims: u32,
        number: u32,
        ticket: u32,
        store: &'g mut Store<'m, Record<K>>,
    ) -> Grid<'g, 'm, K>
        ensures dims { result.dims ≡ made_dims (first (make_causes dims (places store.old) (lookups store.old) number ticket)) dims }
        ensures number { result.number ≡ number }
        ensures ticket { result.next_ticket ≡ ticket }
        ensures empty { items result.store.now ≡ [] }
        ensures room { capacity result.store.now ≡ made_room (first (make_causes dims (places store.old) (lookups store.old) number ticket)) (places store.old) }
    {
        let places = store.places();
        // A grid comes of any figures.
        let (dims, room) = match check(dims, places, store.lookups(), number, ticket) {
            Ok(dims) => (dims, places),
            Err(_) => (Dims::one(), 0),
        };
        store.reset(room);
        Grid {
            dims,
            number,
            next_ticket: u64::from(ticket),
            store,
        }
    }
}
