// Examples of what a store does.
ghost use Rattle.std.specs.Prelude.{nat_lt};

use super::Store;
use super::entry::{Entry, Slot};
use super::fault::InsertFault;
use super::picks::Picks;

/// Memory that held something else before.
const STALE: Entry = Entry {
    slot: Slot::At(9),
    point: 7,
    home: 40,
};

/// Picks the states above a number.
#[derive(Clone, Copy)]
struct Above(u32);

impl Picks<u32> for Above {
    ghost picked = { λ a s. nat_lt a.0 s };

    fn picks(&self, state: u32) -> bool {
        self.0 < state
    }
}

#[test]
fn refusals(rt: HostRuntime) {
    let mut records = [5; 4];
    let mut entries = [STALE; 4];
    let mut store = Store::new(2, &mut records, &mut entries);
    assert_eq!(rt; store.capacity(), 2);
    assert_eq!(rt; store.get(7), None);
    assert_eq!(rt; store.insert(7, 70), Ok(()));
    assert_eq!(rt; store.insert(7, 71), Err(InsertFault::Known));
    assert_eq!(rt; store.insert(4_000_000_000, 72), Ok(()));
    assert_eq!(rt; store.insert(8, 73), Err(InsertFault::Full));
    assert_eq!(rt; store.insert(7, 74), Err(InsertFault::Known));
    assert_eq!(rt; store.get(7), Some(70));
    assert_eq!(rt; store.get(4_000_000_000), Some(72));
    assert_eq!(rt; store.get(8), None);
    assert_eq!(rt; store.len(), 2);
}

#[test]
fn too_little_memory(rt: HostRuntime) {
    let mut records = [0; 3];
    let mut entries = [Entry::blank(); 2];
    let mut store = Store::new(3, &mut records, &mut entries);
    assert_eq!(rt; store.capacity(), 0);
    assert_eq!(rt; store.insert(1, 1), Err(InsertFault::Full));
    assert_eq!(rt; store.at(0), None);
}

#[test]
fn removals(rt: HostRuntime) {
    let mut records = [0; 5];
    let mut entries = [STALE; 5];
    let mut store = Store::new(5, &mut records, &mut entries);
    assert_eq!(rt; store.insert(1000, 3), Ok(()));
    assert!(rt; !store.replace(1001, 4));
    assert!(rt; store.replace(1000, 4));
    for point in 0..40 {
        assert_eq!(rt; store.insert(point, point), Ok(()));
        assert_eq!(rt; store.insert(point + 40, point), Ok(()));
        assert!(rt; store.remove(point));
        assert!(rt; !store.remove(point));
        assert_eq!(rt; store.get(point + 40), Some(point));
        assert!(rt; store.remove(point + 40));
    }
    assert_eq!(rt; store.len(), 1);
    assert_eq!(rt; store.at(0), Some((1000, 4)));
}

#[test]
fn picked(rt: HostRuntime) {
    let mut records = [0; 8];
    let mut entries = [Entry::blank(); 16];
    let mut store = Store::new(8, &mut records, &mut entries);
    for point in 0..8 {
        assert_eq!(rt; store.insert(point, point), Ok(()));
    }
    assert_eq!(rt; store.remove_picked(&Above(2)), 5);
    assert_eq!(rt; store.len(), 3);
    assert_eq!(rt; store.get(2), Some(2));
    assert_eq!(rt; store.get(3), None);
}
