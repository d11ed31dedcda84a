// One direction of a grid: a coordinate, its level, index and width, and its place in the hierarchy.
ghost use Rattle.std.specs.Prelude.{◌≡◌, ℕ, ◌≤◌};
ghost use Rattle.std.specs.Bool.{then_some};
ghost use Rattle.points.specs.Axis.{width, level, index, left, right, inner, parent, children};
ghost use Rattle.points.specs.Hierarchy.{OneLevelUp, ChildByParent};

use std::marker::Model;

/// A coordinate of a point, in 128ths: neither 0 nor 128, which are the border. A clause sees the count of 128ths.
#[derive(Clone, Copy, PartialEq, Eq, Debug)]
pub struct Coordinate {
    value: u8,
}

impl Model for Coordinate {
    ghost Value = { ℕ };

    ghost view = { λ k. k.value };

    ghost invariant = { λ k. (1 ≤ k.value) × (k.value ≤ 127) };

    ghost inverse = { λ k. record { value = k } };
}

impl Coordinate {
    /// The coordinate of `k` 128ths, unless that is not 1 to 127.
    pub fn new(k: u8) -> Option<Coordinate>
        ensures { result ≡ then_some (inner k) k }
    {
        match k {
            1..=127 => Some(Coordinate { value: k }),
            _ => None,
        }
    }

    /// The count of 128ths.
    pub fn get(self) -> u8
        ensures value { result ≡ self }
        ensures least { 1 ≤ result }
        ensures most { result ≤ 127 }
    {
        self.value
    }

    /// The level and the index.
    #[tactic(auto, unfolding(crate::specs::Axis::zeros, crate::specs::Axis::width, crate::specs::Axis::level, crate::specs::Axis::index))]
    pub fn level_and_index(self) -> (u8, u8)
        ensures level { result.0 ≡ level self }
        ensures index { result.1 ≡ index self }
    {
        let zeros = self.value.trailing_zeros();
        (7 - zeros as u8, self.value >> zeros)
    }

    /// The width of the coordinate's hat, in 128ths.
    #[tactic(auto, using(crate::proofs::Hierarchy::few_zeros), unfolding(crate::specs::Axis::zeros, crate::specs::Axis::width))]
    pub fn width(self) -> u8
        ensures { result ≡ width self }
    {
        1 << self.value.trailing_zeros()
    }

    /// The left and the right neighbour, of which either may be the border.
    #[tactic(auto, using(crate::proofs::Hierarchy::reach), unfolding(crate::specs::Axis::left, crate::specs::Axis::right))]
    pub fn neighbours(self) -> (u8, u8)
        ensures left { result.0 ≡ left self }
        ensures right { result.1 ≡ right self }
        ensures place { result.1 ≤ 128 }
    {
        let width = self.width();
        (self.value - width, self.value + width)
    }

    /// The neighbour that is one level above, if this coordinate is of level 2 or more.
    #[tactic(auto, using(crate::proofs::Hierarchy::right_inside, crate::proofs::Hierarchy::found_above, crate::proofs::Hierarchy::none_above), unfolding(crate::specs::Axis::above, crate::specs::Axis::level))]
    pub fn parent(self) -> Option<Coordinate>
        ensures { result ≡ parent self }
    {
        let (level, _) = self.level_and_index();
        if level < 2 {
            return None;
        }
        let (left, right) = self.neighbours();
        let up = if level_of(left) + 1 == level {
            left
        } else {
            right
        };
        Coordinate::new(up)
    }

    /// The left and the right child, if the width can be halved.
    #[tactic(auto, using(crate::proofs::Hierarchy::reach), unfolding(crate::specs::Axis::children))]
    pub fn children(self) -> Option<(Coordinate, Coordinate)>
        ensures { result ≡ children self }
    {
        let width = self.width();
        if width < 2 {
            return None;
        }
        let left = Coordinate {
            value: self.value - width / 2,
        };
        let right = Coordinate {
            value: self.value + width / 2,
        };
        Some((left, right))
    }
}

/// The level of any coordinate, which at the border is 0.
#[tactic(auto, unfolding(crate::specs::Axis::zeros, crate::specs::Axis::level))]
pub(crate) fn level_of(k: u8) -> u8
    ensures { result ≡ level k }
{
    7u32.saturating_sub(k.trailing_zeros()) as u8
}

/// Holds by its contract: at level 2 or more exactly one neighbour is one level above.
pub fn exactly_one_neighbour_is_a_level_up()
    ensures { OneLevelUp }
{}

/// Holds by its contract: the children of a coordinate are those whose parent it is.
pub fn children_are_those_with_this_parent()
    ensures { ChildByParent }
{}
