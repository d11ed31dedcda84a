// Examples worked out by hand, run.
use super::hat::{exponent, exponents, numerator, numerators};
use super::multiple::{halved, taken, term};
use kinds::dyadic::Dyadic;
use kinds::residue::Residue;
use points::axis::Coordinate;
use points::dimensions::Dims;
use points::point::number_of;
use std::test::Fail;

#[test]
fn hats_of_one_direction(rt: HostRuntime) -> Result<(), Fail> {
    let Some(k) = Coordinate::new(48) else {
        assert!(rt; false, "48 is a point's coordinate");
        return Ok(());
    };
    assert_eq!(rt; exponent(k), 4);
    assert_eq!(rt; numerator(k, 48), 16);
    assert_eq!(rt; numerator(k, 40), 8);
    assert_eq!(rt; numerator(k, 63), 1);
    assert_eq!(rt; numerator(k, 64), 0);
    assert_eq!(rt; numerator(k, 128), 0);
    Ok(())
}

#[test]
fn hats_of_two_directions(rt: HostRuntime) -> Result<(), Fail> {
    let dims = Dims::new(2)?;
    let point = number_of([48, 96, 0, 0]);
    assert_eq!(rt; exponents(dims, point), 9);
    assert_eq!(rt; numerators(dims, point, number_of([40, 80, 0, 0])), 128);
    assert_eq!(rt; numerators(dims, point, number_of([64, 80, 0, 0])), 0);
    assert_eq!(rt; numerators(dims, point, point), 512);
    Ok(())
}

#[test]
fn halves_and_multiples(rt: HostRuntime) -> Result<(), Fail> {
    let limit = 1i64 << 60;
    assert_eq!(rt;
        halved(Dyadic { count: -40 }, 3),
        Some(Dyadic { count: -5 })
    );
    assert_eq!(rt; halved(Dyadic { count: -40 }, 4), None);
    assert_eq!(rt; taken(Dyadic { count: 3 }, 13), Some(Dyadic { count: 39 }));
    assert_eq!(rt; taken(Dyadic { count: 3 }, 0), Some(Dyadic { count: 0 }));
    assert_eq!(rt;
        taken(Dyadic { count: limit / 4 }, 4),
        Some(Dyadic { count: limit })
    );
    assert_eq!(rt; taken(Dyadic { count: limit / 4 }, 5), None);
    let Some(seven) = taken(
        Residue {
            bits: 2_147_483_646,
        },
        2_147_483_640,
    ) else {
        assert!(rt; false, "a residue has every multiple");
        return Ok(());
    };
    assert_eq!(rt; seven.least(), 7);
    Ok(())
}

/// At place 80 the surpluses 8 of 64 and 3 of 96 add 6 and 3/2.
#[test]
fn terms_of_a_value(rt: HostRuntime) {
    let unit = 1i64 << 28;
    assert_eq!(rt;
        term(Dyadic { count: 8 * unit }, 48, 6),
        Some(Dyadic { count: 6 * unit })
    );
    assert_eq!(rt;
        term(Dyadic { count: 3 * unit }, 16, 5),
        Some(Dyadic {
            count: 3 * unit / 2
        })
    );
    assert_eq!(rt; term(Dyadic { count: 24 }, 2, 4), None);
}
