// Worked courses.
ghost use Rattle.kinds.specs.Halving.{Halving};
ghost use Rattle.kinds.specs.Integers.{integers};
ghost use Rattle.ledger.specs.Examples.{WorkedCourses};

/// Holds by its contract: the answers of four short courses.
pub fn worked_courses()
    ensures { (H : Halving integers) → WorkedCourses H }
{}
