// Worked examples of the definitions, as a theorem.
ghost use Rattle.points.specs.Examples.{WorkedExamples};

/// Holds by its contract: the worked examples come out as stated.
pub fn worked_examples()
    ensures { WorkedExamples }
{}
