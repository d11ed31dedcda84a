// Examples of each kind, run.
use super::dyadic::Dyadic;
use super::kind::Kind;
use super::pair::Pair;
use super::residue::Residue;
use std::test::Fail;

/// The bits of an answer.
fn bits(x: Option<Residue>) -> Option<u32> {
    x.map(|x| x.bits)
}

#[test]
fn dyadic_counts(rt: HostRuntime) {
    let limit = 1i64 << 60;
    assert_eq!(rt; Dyadic { count: 3 }.half(), None);
    assert_eq!(rt; Dyadic { count: -3 }.half(), None);
    assert_eq!(rt; Dyadic { count: -2 }.half(), Some(Dyadic { count: -1 }));
    assert_eq!(rt;
        Dyadic { count: limit }.sum(Dyadic { count: 0 }),
        Some(Dyadic { count: limit })
    );
    assert_eq!(rt; Dyadic { count: limit }.sum(Dyadic { count: -1 }), None);
    assert_eq!(rt; Dyadic { count: i64::MIN }.negative(), None);
    assert_eq!(rt;
        <Dyadic as Kind>::whole(-65_536),
        Some(Dyadic {
            count: -17_592_186_044_416
        })
    );
    assert_eq!(rt; <Dyadic as Kind>::whole(65_537), None);
    assert!(rt;
        Dyadic {
            count: 17_592_186_044_416,
        }
        .fit()
    );
    assert!(rt;
        !Dyadic {
            count: 17_592_454_479_872,
        }
        .fit()
    );
    assert!(rt; !Dyadic { count: 1 }.fit());
    assert_eq!(rt;
        Dyadic {
            count: -805_306_368,
        }
        .back(),
        Some(-3)
    );
    assert_eq!(rt; Dyadic { count: 134_217_728 }.back(), None);
}

#[test]
fn residues_modulo_a_prime(rt: HostRuntime) {
    assert_eq!(rt; bits(Residue { bits: 1 }.half()), Some(1_073_741_824));
    assert_eq!(rt;
        bits(Residue { bits: u32::MAX }.half()),
        Some(1_073_741_824)
    );
    assert_eq!(rt;
        bits(Residue {
            bits: 2_147_483_646,
        }
        .sum(Residue { bits: 3 })),
        Some(2)
    );
    assert_eq!(rt; bits(Residue { bits: 0 }.negative()), Some(0));
    assert_eq!(rt; bits(Residue { bits: 5 }.negative()), Some(2_147_483_642));
    assert_eq!(rt; bits(<Residue as Kind>::whole(-1)), Some(2_147_483_646));
    assert_eq!(rt;
        Residue {
            bits: 2_147_418_111,
        }
        .back(),
        Some(-65_536)
    );
    assert_eq!(rt; Residue { bits: 65_537 }.back(), None);
}

#[test]
fn pairs_of_two_kinds(rt: HostRuntime) -> Result<(), Fail> {
    let three: Option<Pair<Dyadic, Residue>> = <Pair<_, _> as Kind>::whole(3);
    let Some(three) = three else {
        return Err(Fail::new("three is a whole number"));
    };
    assert_eq!(rt; three.back(), Some(3));
    assert!(rt; three.half().is_some());
    let torn = Pair {
        first: three.first,
        second: Residue { bits: 4 },
    };
    assert_eq!(rt; torn.back(), None);
    Ok(())
}
