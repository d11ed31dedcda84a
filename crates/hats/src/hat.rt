// The hat of a coordinate, and the product of the hats of a point.
ghost use Rattle.std.specs.Prelude.{◌≡◌, ◌*◌, ◌^◌, ◌≤◌, true, take, length, sum_by, map, fold};
ghost use Rattle.std.specs.List.{zip};
ghost use Rattle.points.specs.Points.{coords, is_point, is_place};
ghost use Rattle.basis.specs.Axis.{zero_border, axes, four_axes};
ghost use Rattle.basis.specs.Grid.{exponents, numerators};

use points::axis::Coordinate;
use points::dimensions::Dims;
use points::point::coordinates;

/// The number of zero bits below the lowest one bit of any byte; 8 at 0.
#[tactic(auto, unfolding(basis::specs::Axis::zero_border, points::specs::Axis::zeros))]
fn zeros_of(k: u8) -> u8
    ensures { result ≡ zero_border.exponent k }
{
    k.trailing_zeros() as u8
}

/// The numerator of the hat of any byte `k` at `y`.
#[tactic(auto, using(crate::proofs::Hats::exponent_small, std::proofs::lemmas::Nat::one_shl, std::proofs::Common::pow_mono), unfolding(points::specs::Axis::width, basis::specs::Axis::zero_border))]
fn numerator_of(k: u8, y: u8) -> u16
    ensures value { result ≡ zero_border.numerator k y }
    ensures bound { result ≤ 2 ^ 8 }
{
    let width = 1u16 << zeros_of(k);
    width.saturating_sub(u16::from(k.abs_diff(y)))
}

/// The width of the hat of `k` is 2 to this power.
pub fn exponent(k: Coordinate) -> u8
    ensures { result ≡ zero_border.exponent k }
{
    zeros_of(k.get())
}

/// The value of the hat of `k` at `y`, over its width.
#[tactic(auto, using(points::proofs::Hierarchy::reach), unfolding(basis::specs::Axis::zero_border))]
pub fn numerator(k: Coordinate, y: u8) -> u8
    ensures { result ≡ zero_border.numerator k y }
{
    numerator_of(k.get(), y) as u8
}

// What bounds the sum and the product below is the length of a slice, which has no type of its own. They differ from one another, and
// from the sum of levels in points, in what they add or multiply: one function over a closure would be as long.
/// The exponents of at most four coordinates together.
fn exponents_together(coordinates: &[u8]) -> u32
    requires { length coordinates.now ≤ 4 }
    ensures { result ≡ sum_by zero_border.exponent coordinates.now }
{
    coordinates.iter().map(|k| u32::from(zeros_of(*k))).sum()
}

/// The numerators of at most four hats, each at its place, multiplied.
fn numerators_multiplied(point: &[u8], place: &[u8]) -> u64
    requires { length point.now ≤ 4 }
    ensures { result ≡ fold ◌*◌ 1 (map (λ p. zero_border.numerator p.0 p.1) (zip point.now place.now)) }
{
    point
        .iter()
        .zip(place)
        .map(|(k, y)| u64::from(numerator_of(*k, *y)))
        .product()
}

// Functions of the dimensions and not methods: `Dims` is of another crate.
/// The product of a point's widths is 2 to this power: over the used directions, and over all four.
#[tactic(auto, using(points::proofs::Points::coords_length, crate::proofs::Hats::exponents_used, crate::proofs::Hats::exponents_padded))]
pub fn exponents(dims: Dims, point: u32) -> u32
    ensures used { result ≡ exponents (axes dims) (take dims (coords point)) }
    ensures padded { result ≡ exponents (four_axes dims) (coords point) }
{
    let used = usize::from(dims.count());
    let point = coordinates(point);
    exponents_together(&point[..used])
}

/// The value of a point's hat at a place, over the product of its widths: over the used directions, and of what is a point and a place over all four.
#[tactic(auto, using(points::proofs::Points::coords_length, crate::proofs::Hats::numerators_used, crate::proofs::Hats::numerators_four))]
pub fn numerators(dims: Dims, point: u32, place: u32) -> u64
    ensures used { result ≡ numerators (axes dims) (take dims (coords point)) (take dims (coords place)) }
    ensures padded { is_point dims point ≡ true → is_place dims place ≡ true → result ≡ numerators (four_axes dims) (coords point) (coords place) }
{
    let used = usize::from(dims.count());
    let point = coordinates(point);
    let place = coordinates(place);
    numerators_multiplied(&point[..used], &place[..used])
}
