// Examples worked out by hand, run.
use super::axis::Coordinate;
use super::dimensions::Dims;
use super::point::{children_in, neighbours_in, number_of, parent_in};
use super::refusal::Refusal;
use std::test::Fail;

#[test]
fn coordinate_of_level_three(rt: HostRuntime) -> Result<(), Fail> {
    let Some(k) = Coordinate::new(48) else {
        assert!(rt; false, "48 is a point's coordinate");
        return Ok(());
    };
    assert_eq!(rt; k.level_and_index(), (3, 3));
    assert_eq!(rt; k.neighbours(), (32, 64));
    assert_eq!(rt; k.parent(), Coordinate::new(32));
    Ok(())
}

#[test]
fn points_and_places_are_checked(rt: HostRuntime) -> Result<(), Fail> {
    let dims = Dims::new(3)?;
    assert_eq!(rt; dims.level_sum(number_of([127, 127, 32, 0])), 16);
    assert_eq!(rt; dims.check_point(number_of([127, 127, 32, 0])), Ok(()));
    assert_eq!(rt;
        dims.check_point(number_of([127, 127, 16, 0])),
        Err(Refusal::LevelSum)
    );
    assert_eq!(rt;
        dims.check_point(number_of([64, 64, 64, 64])),
        Err(Refusal::Coordinate)
    );
    assert_eq!(rt; dims.check_place(number_of([0, 128, 5, 0])), Ok(()));
    assert_eq!(rt;
        dims.check_place(number_of([0, 129, 5, 0])),
        Err(Refusal::Coordinate)
    );
    assert_eq!(rt; u32::from(Refusal::NoNumeral), 30);
    Ok(())
}

#[test]
fn parents_and_children_by_number(rt: HostRuntime) {
    let point = 64 * 16_777_216 + 48 * 65_536;
    assert_eq!(rt; parent_in(1, point), Some(number_of([64, 32, 0, 0])));
    assert_eq!(rt; parent_in(0, point), None);
    assert_eq!(rt;
        children_in(1, point),
        Some((number_of([64, 40, 0, 0]), number_of([64, 56, 0, 0])))
    );
    assert_eq!(rt; children_in(4, point), None);
}

#[test]
fn neighbours_by_number(rt: HostRuntime) {
    let point = number_of([64, 48, 0, 0]);
    assert_eq!(rt;
        neighbours_in(1, point),
        (
            Some(number_of([64, 32, 0, 0])),
            Some(number_of([64, 64, 0, 0]))
        )
    );
    assert_eq!(rt; neighbours_in(0, point), (None, None));
    assert_eq!(rt;
        neighbours_in(2, number_of([64, 64, 96, 0])),
        (Some(number_of([64, 64, 64, 0])), None)
    );
}
