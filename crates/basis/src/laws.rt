// The laws of the hierarchical hat basis, over every kind of value. Each holds by the contract of its function.
ghost use Rattle.basis.specs.Laws.{Reconstruction, Existence, Uniqueness, Integration, Locality, OrderFree, HalvingFree, ExactHalves};
ghost use Rattle.basis.specs.Recursion.{ByDirections};

use kinds::kind::Kind;

/// At each point in, the value is its sample.
pub fn samples_are_reconstructed<K: Kind>()
    ensures { Reconstruction K.Kind.group }
{}

/// The surpluses, as coefficients, meet all samples.
pub fn surpluses_meet_the_samples<K: Kind>()
    ensures { Existence K.Kind.group }
{}

/// Coefficients that meet all samples are the surpluses.
pub fn surpluses_are_unique<K: Kind>()
    ensures { Uniqueness K.Kind.group }
{}

/// The integral, doubled 7·d times, is the sum of the values at all inner places.
pub fn integral_is_the_sum_of_values<K: Kind>()
    ensures { Integration K.Kind.group }
{}

/// The surplus of a point depends only on samples of points that are in with it.
pub fn surplus_is_local<K: Kind>()
    ensures { Locality K.Kind.group }
{}

/// The order of the points changes no surplus, no value and not the integral.
pub fn order_is_free<K: Kind>()
    ensures { OrderFree K.Kind.group }
{}

/// What halving does off doubles changes nothing.
pub fn halving_is_free<K: Kind>()
    ensures { HalvingFree K.Kind.group }
{}

/// Samples and surpluses can be halved as often as the interpolant asks.
pub fn halvings_are_exact<K: Kind>()
    ensures { ExactHalves K.Kind.group }
{}

/// The surplus can be summed one direction after the other.
pub fn surplus_goes_by_directions<K: Kind>()
    ensures { ByDirections K.Kind.group }
{}
