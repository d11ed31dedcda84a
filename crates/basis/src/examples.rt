// Worked grids.
ghost use Rattle.basis.specs.Examples.{WorkedGrids};

/// Holds by its contract: the surpluses, values and integrals of two grids.
pub fn worked_grids()
    ensures { WorkedGrids }
{}
