// Halving several times, taking multiples, and one term of a value.
ghost use Rattle.std.specs.Prelude.{◌≡◌, true, is_some};
ghost use Rattle.hats.specs.Multiples.{Halved, Taken, Term, Proper};

use kinds::kind::Kind;

/// The value halved `times` times, if it is some member doubled so often.
#[tactic(auto, using(crate::proofs::Multiples::half_of, crate::proofs::Multiples::doubled_first, crate::proofs::Multiples::doubled_none))]
pub fn halved<K: Kind>(value: K, times: u32) -> Option<K>
    ensures { Halved K.Kind.group K.Kind.meaning times value result }
{
    let mut half = value;
    for _ in 0..times {
        half = half.half()?;
    }
    Some(half)
}

/// The value taken `times` times, by doubling.
#[tactic(auto, using(basis::proofs::Algebra::taken_none, crate::proofs::Multiples::taken_even, crate::proofs::Multiples::double_large, crate::proofs::Multiples::odd_sum))]
pub fn taken<K: Kind>(value: K, times: u64) -> Option<K>
    ensures { Taken K.Kind.group K.Kind.meaning times value result }
{
    if times == 0 {
        return Some(K::zero());
    }
    let half = taken(value, times / 2)?;
    let even = half.sum(half)?;
    if times % 2 == 0 {
        Some(even)
    } else {
        even.sum(value)
    }
}

/// One term of a value: the surplus taken `numerator` times and halved `exponent` times. It is halved first, so that it stays small.
pub fn term<K: Kind>(surplus: K, numerator: u64, exponent: u32) -> Option<K>
    ensures exact { Term K.Kind.group K.Kind.meaning numerator exponent surplus result }
    ensures answers { Proper K.Kind.group numerator exponent (K.Kind.meaning surplus) → is_some result ≡ true }
{
    let part = halved(surplus, exponent)?;
    taken(part, numerator)
}
