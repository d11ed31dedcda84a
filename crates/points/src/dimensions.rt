// The number of dimensions of a grid.
ghost use Rattle.std.specs.Prelude.{◌≡◌, ℕ, ◌≤◌, IfOk};
ghost use Rattle.points.specs.Points.{dims_causes};
ghost use Rattle.points.specs.Refusals.{refusal_of, first};

use super::refusal::Refusal;
use std::marker::Model;

/// One to four dimensions. A clause sees their number.
#[derive(Clone, Copy, PartialEq, Eq, Debug)]
pub struct Dims {
    count: u8,
}

impl Model for Dims {
    ghost Value = { ℕ };

    ghost view = { λ d. d.count };

    ghost invariant = { λ d. (1 ≤ d.count) × (d.count ≤ 4) };

    ghost inverse = { λ d. record { count = d } };
}

impl Dims {
    /// `d` dimensions.
    pub fn new(d: u32) -> Result<Dims, Refusal>
        ensures refuses { refusal_of result ≡ first (dims_causes d) }
        ensures counts { IfOk result (λ x. x ≡ d) }
    {
        match d {
            1..=4 => Ok(Dims { count: d as u8 }),
            _ => Err(Refusal::Dimensions),
        }
    }

    /// One dimension.
    pub fn one() -> Dims
        ensures { result ≡ 1 }
    {
        Dims { count: 1 }
    }

    /// How many dimensions.
    pub fn count(self) -> u8
        ensures count { result ≡ self }
        ensures least { 1 ≤ result }
        ensures most { result ≤ 4 }
    {
        self.count
    }
}
