// Points and places as numbers of 32 bits: the first coordinate is the highest byte, and unused ones are 0.
ghost use Rattle.std.specs.Prelude.{◌≡◌, ◌≤◌, length, sum_by};
ghost use Rattle.std.specs.List.{list_all};
ghost use Rattle.points.specs.Axis.{level, left, right, within, inner};
ghost use Rattle.points.specs.Points.{coords, number, Numbered, shaped, level_sum, coord_in, replaced, neighbour_in, parent_in, children_in, point_causes, place_causes};
ghost use Rattle.points.specs.Refusals.{refusal_of, first};
ghost use Rattle.std.specs.Bool.{then_some};

use super::axis::{Coordinate, level_of};
use super::dimensions::Dims;
use super::refusal::Refusal;

/// The greatest level sum of a point.
const LEVEL_SUM_LIMIT: u32 = 16;

/// The four coordinates, the first direction's first.
#[tactic(auto, unfolding(crate::specs::Points::coords))]
pub fn coordinates(n: u32) -> [u8; 4]
    ensures { result ≡ coords n }
{
    n.to_be_bytes()
}

/// The number of four coordinates.
#[tactic(auto, unfolding(crate::specs::Points::number))]
pub fn number_of(coordinates: [u8; 4]) -> u32
    ensures { result ≡ number coordinates }
{
    u32::from_be_bytes(coordinates)
}

// The sum of exponents in hats differs in what it adds, and one function for both would be as long.
/// The levels of coordinates together.
fn levels_together(coordinates: &[u8]) -> u32
    requires { length coordinates.now ≤ 4 }
    ensures { result ≡ sum_by level coordinates.now }
{
    coordinates.iter().map(|k| u32::from(level_of(*k))).sum()
}

/// Whether each coordinate is `low` to `high`.
fn all_within(coordinates: &[u8], low: u8, high: u8) -> bool
    ensures { result ≡ list_all (within low high) coordinates.now }
{
    coordinates.iter().all(|k| (low..=high).contains(k))
}

impl Dims {
    /// The levels of a point's used coordinates together.
    #[tactic(auto, unfolding(crate::specs::Points::level_sum))]
    pub fn level_sum(self, point: u32) -> u32
        ensures { result ≡ level_sum self point }
    {
        let all = coordinates(point);
        let (used, _) = all.split_at(usize::from(self.count()));
        levels_together(used)
    }

    /// Whether the used coordinates are `low` to `high` and the others 0.
    fn is_shaped(self, n: u32, low: u8, high: u8) -> bool
        ensures { result ≡ shaped (within low high) self n }
    {
        let all = coordinates(n);
        let (used, unused) = all.split_at(usize::from(self.count()));
        all_within(used, low, high) && all_within(unused, 0, 0)
    }

    /// Refuses what is no point: a wrong coordinate first, then too great a level sum.
    #[tactic(auto, unfolding(crate::specs::Points::is_point))]
    pub fn check_point(self, point: u32) -> Result<(), Refusal>
        ensures { refusal_of result ≡ first (point_causes self point) }
    {
        if !self.is_shaped(point, 1, 127) {
            return Err(Refusal::Coordinate);
        }
        if self.level_sum(point) > LEVEL_SUM_LIMIT {
            return Err(Refusal::LevelSum);
        }
        Ok(())
    }

    /// Refuses what is no place.
    #[tactic(auto, unfolding(crate::specs::Points::is_place))]
    pub fn check_place(self, place: u32) -> Result<(), Refusal>
        ensures { refusal_of result ≡ first (place_causes self place) }
    {
        if self.is_shaped(place, 0, 128) {
            Ok(())
        } else {
            Err(Refusal::Coordinate)
        }
    }
}

// A direction and a point stay two numbers below: any two may be asked about, so a type for both would keep no fact.
/// The coordinate of a direction, counted from 0, where it is a point's.
fn coordinate_in(direction: usize, point: u32) -> Option<Coordinate>
    ensures { result ≡ then_some (inner (coord_in direction point)) (coord_in direction point) }
{
    let all = coordinates(point);
    let k = all.get(direction)?;
    Coordinate::new(*k)
}

/// The point with another coordinate in a direction.
#[tactic(auto, unfolding(crate::specs::Points::coords, crate::specs::Points::replaced))]
fn with_coordinate(direction: usize, point: u32, k: Coordinate) -> u32
    ensures { result ≡ replaced direction point k }
{
    let mut all = coordinates(point);
    if direction < all.len() {
        all[direction] = k.get();
    }
    number_of(all)
}

/// The left and the right neighbour in a direction, counted from 0, or none where that is on the border.
#[tactic(auto, using(crate::proofs::Points::no_left, crate::proofs::Points::no_right), unfolding(crate::specs::Points::neighbour_in))]
pub fn neighbours_in(direction: usize, point: u32) -> (Option<u32>, Option<u32>)
    ensures left { result.0 ≡ neighbour_in left direction point }
    ensures right { result.1 ≡ neighbour_in right direction point }
{
    let Some(k) = coordinate_in(direction, point) else {
        return (None, None);
    };
    let (left, right) = k.neighbours();
    (
        Coordinate::new(left).map(|k| with_coordinate(direction, point, k)),
        Coordinate::new(right).map(|k| with_coordinate(direction, point, k)),
    )
}

/// The parent in a direction, counted from 0, if the coordinate there has one.
#[tactic(auto, unfolding(crate::specs::Points::parent_in, crate::specs::Axis::parent))]
pub fn parent_in(direction: usize, point: u32) -> Option<u32>
    ensures { result ≡ parent_in direction point }
{
    let up = coordinate_in(direction, point)?.parent()?;
    Some(with_coordinate(direction, point, up))
}

/// The left and the right child in a direction, counted from 0, if the coordinate there has children.
#[tactic(auto, unfolding(crate::specs::Points::children_in, crate::specs::Axis::children))]
pub fn children_in(direction: usize, point: u32) -> Option<(u32, u32)>
    ensures { result ≡ children_in direction point }
{
    let (left, right) = coordinate_in(direction, point)?.children()?;
    Some((
        with_coordinate(direction, point, left),
        with_coordinate(direction, point, right),
    ))
}

/// Holds by its contract: neither a number nor its coordinates lose anything.
pub fn numbers_and_coordinates_agree()
    ensures { Numbered }
{}
