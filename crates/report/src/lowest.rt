// Dyadic numbers in lowest terms.
ghost use Rattle.report.specs.Lowest.{LowestTerms};

/// The exponent of the denominator that every count has.
const EXPONENT: u32 = 28;

/// The numerator and the exponent of the denominator, a power of two, of a count of 2^-28.
pub fn lowest_terms(count: i64) -> (i64, u32)
    ensures { LowestTerms count result.0 result.1 }
{
    let halvings = count.unsigned_abs().trailing_zeros().min(EXPONENT);
    (count / (1 << halvings), EXPONENT - halvings)
}
