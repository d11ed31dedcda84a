// The interface of a kind of value.
ghost use Rattle.std.specs.Prelude.{◌≡◌, ℤ};
ghost use Rattle.kinds.specs.Group.{Group, Laws};
ghost use Rattle.kinds.specs.Halving.{Halving, UniqueHalves};
ghost use Rattle.kinds.specs.Numbers.{Numbers};
ghost use Rattle.kinds.specs.Operations.{Sum, Negative, Half, Fit, Whole, Back};

/// A value means a member of a commutative group in which halves are unique, and two values are equal if they mean the
/// same member. Every operation says its answer in terms of the members.
pub trait Kind: Copy {
    // the group
    ghost group: { Group };

    // the member that a value means
    ghost meaning: { Self → group.Member };

    // the value that stands for a whole number
    ghost number: { ℤ → Self };

    /// The neutral value.
    fn zero() -> Self
        ensures { meaning result ≡ group.zero };

    /// The exact sum, or nothing exactly when the two sizes together pass 2^60.
    fn sum(self, other: Self) -> Option<Self>
        ensures { Sum group meaning self other result };

    /// The exact negative, or nothing exactly when the size passes 2^60.
    fn negative(self) -> Option<Self>
        ensures { Negative group meaning self result };

    /// The exact half, or nothing exactly when no member doubled is the value.
    fn half(self) -> Option<Self>
        ensures { Half group meaning self result };

    /// The size, the same for equal values.
    fn size(self) -> u64
        ensures { result ≡ group.size (meaning self) };

    /// Whether the value may be a sample: its size is at most 2^44, and it is some member doubled 28 times.
    fn fit(self) -> bool
        ensures { Fit group (meaning self) result };

    /// The value of a whole number from -65,536 to 65,536, and nothing for any other.
    fn whole(n: i32) -> Option<Self>
        ensures { Whole group meaning number n result };

    /// The whole number that has this value, or nothing exactly when there is none.
    fn back(self) -> Option<i32>
        ensures { Back group meaning number self result };

    // the laws of the group and of sizes
    ghost lawful: { Laws group };

    // equal doubles mean equal members
    ghost unique: { UniqueHalves group };

    // halves as a function on the members, and a test of fit
    ghost halving: { Halving group };

    // the laws of whole numbers
    ghost numbers: { Numbers group (λ n. meaning (number n)) };
}
