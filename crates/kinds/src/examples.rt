// Worked examples, as theorems about the definitions.
ghost use Rattle.kinds.specs.Examples.{WorkedHalves};

/// The residue half of 1 is 1,073,741,824; a count of 3 has no half; the half of a count of -2 is -1.
pub fn worked_halves()
    ensures { WorkedHalves }
{}
