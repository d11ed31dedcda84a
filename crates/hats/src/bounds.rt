// Sizes, so that sums, negatives and halves of an evaluation always have an answer.
ghost use Rattle.hats.specs.Bounds.{Bounded};

use kinds::kind::Kind;

/// Holds by its contract: surpluses, terms and sums stay small.
pub fn sizes_are_bounded<K: Kind>()
    ensures { Bounded K.Kind.group }
{}
