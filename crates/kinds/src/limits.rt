// The limits that every kind keeps.
ghost use Rattle.std.specs.Prelude.{◌+◌, ◌^◌, ◌<◌, ◌↔◌, IsTrue};
ghost use Rattle.kinds.specs.Numbers.{InRange};

/// The greatest size of two summands together, and of what has a negative: 2^60.
const SIZE_LIMIT: u64 = 1 << 60;

/// The greatest size of a sample: 2^44.
pub(crate) const SAMPLE_LIMIT: u64 = 1 << 44;

/// The largest whole number; the smallest is its negative.
pub(crate) const LARGEST_NUMBER: u32 = 65_536;

/// Whether a size passes the limit.
pub(crate) fn passes(size: u64) -> bool
    ensures { IsTrue result ↔ (2 ^ 60 < size) }
{
    size > SIZE_LIMIT
}

/// Whether two sizes together pass the limit.
pub(crate) fn pass_together(a: u64, b: u64) -> bool
    ensures { IsTrue result ↔ (2 ^ 60 < a + b) }
{
    passes(a.saturating_add(b))
}

/// Whether a number is one that `whole` takes.
pub(crate) fn in_range(n: i64) -> bool
    ensures { IsTrue result ↔ InRange n }
{
    let largest = i64::from(LARGEST_NUMBER);
    (-largest..=largest).contains(&n)
}
