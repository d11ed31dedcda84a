// The dyadic numbers: a value is a count of 2^-28.
ghost use Rattle.std.specs.Prelude.{◌≡◌, ◌%◌, ◌^◌, ◌==◌, unsigned_abs};
ghost use Rattle.kinds.specs.Integers.{integers, whole_count};
ghost use Rattle.kinds.specs.IntegersLemmas.{integer_laws, integer_unique, integer_halving, integer_numbers};

use super::kind::Kind;
use super::limits;

/// How many counts make 1: 2^28
const UNIT: i64 = 1 << 28;

/// A count of 2^-28.
#[derive(Clone, Copy, PartialEq, Eq, Debug)]
pub struct Dyadic {
    pub count: i64,
}

impl Kind for Dyadic {
    ghost group = { integers };

    ghost meaning = { λ x. x.count };

    ghost number = { λ n. record { count = whole_count n } };

    ghost lawful = { integer_laws };

    ghost unique = { integer_unique };

    ghost halving = { integer_halving };

    ghost numbers = { integer_numbers };

    fn zero() -> Dyadic {
        Dyadic { count: 0 }
    }

    fn sum(self, other: Dyadic) -> Option<Dyadic> {
        if limits::pass_together(self.size(), other.size()) {
            return None;
        }
        Some(Dyadic {
            count: self.count + other.count,
        })
    }

    fn negative(self) -> Option<Dyadic> {
        if limits::passes(self.size()) {
            return None;
        }
        Some(Dyadic { count: -self.count })
    }

    fn half(self) -> Option<Dyadic> {
        if self.count % 2 == 0 {
            Some(Dyadic {
                count: self.count / 2,
            })
        } else {
            None
        }
    }

    fn size(self) -> u64 {
        self.count.unsigned_abs()
    }

    #[tactic(auto, using(crate::specs::IntegersLemmas::fit_told))]
    fn fit(self) -> bool {
        self.size() <= limits::SAMPLE_LIMIT && is_whole(self.count)
    }

    fn whole(n: i32) -> Option<Dyadic> {
        let n = i64::from(n);
        if limits::in_range(n) {
            Some(Dyadic { count: n * UNIT })
        } else {
            None
        }
    }

    fn back(self) -> Option<i32> {
        let n = self.count / UNIT;
        if is_whole(self.count) && limits::in_range(n) {
            Some(n as i32)
        } else {
            None
        }
    }
}

/// Whether a count of 2^-28 is a whole number.
fn is_whole(count: i64) -> bool
    ensures { result ≡ (unsigned_abs count % 2 ^ 28 == 0) }
{
    count % UNIT == 0
}
