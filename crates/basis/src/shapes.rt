// What the lists of inner places, ways and parents hold. Each claim holds by the contract of its function.
ghost use Rattle.std.specs.Prelude.{ℕ};
ghost use Rattle.basis.specs.Numbers.{NumbersAgree};
ghost use Rattle.basis.specs.Shapes.{InnerPlaces, AllWays, ParentsByDirection};

/// There are 127^d inner places.
pub fn inner_places_are_counted()
    ensures { (d n : ℕ) → InnerPlaces d n }
{}

/// The ways are all lists of moves, one for each direction.
pub fn ways_are_counted()
    ensures { (d n : ℕ) → AllWays d n }
{}

/// The parents of a point are those in some direction.
pub fn parents_go_by_directions()
    ensures { ParentsByDirection }
{}

/// A point's number and its coordinates over four axes say the same.
pub fn numbers_agree_with_coordinates()
    ensures { NumbersAgree }
{}
