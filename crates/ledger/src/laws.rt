// What holds of every ledger and of every course of calls, over every kind of value. Each theorem holds by the contract of its function.
ghost use Rattle.ledger.specs.Guarantees.{EveryCourse};
ghost use Rattle.ledger.specs.Numbers.{AllListed};
ghost use Rattle.ledger.specs.Refused.{EveryRefusal};
ghost use Rattle.ledger.specs.Sound.{EveryCall, EveryCount, EverySoundLedger};

use kinds::kind::Kind;

/// The inner places are just the points, each once.
pub fn points_are_listed()
    ensures { AllListed }
{}

/// A refused call leaves the ledger as it was, or frees the point of a sample that does not fit.
pub fn refusals_leave_the_ledger<K: Kind>()
    ensures { EveryRefusal K.Kind.group }
{}

/// A new ledger is sound, and so is a sound one after any call.
pub fn every_call_keeps_a_sound_ledger<K: Kind>()
    ensures { EveryCall K.Kind.group }
{}

/// What is counted of a sound ledger is the number of points that can be listed.
pub fn counts_are_of_points<K: Kind>()
    ensures { EveryCount K.Kind.group }
{}

/// The answers of a sound ledger interpolate its samples, and come from them alone.
pub fn sound_ledgers_interpolate<K: Kind>()
    ensures { EverySoundLedger K.Kind.group }
{}

/// At the end of every course the answers interpolate the samples last entered, and a point is out just as long as its ticket is neither entered nor withdrawn nor swept.
pub fn every_course_is_guaranteed<K: Kind>()
    ensures { EveryCourse K.Kind.group }
{}
