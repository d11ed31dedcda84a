// A choice of states.
ghost use Rattle.std.specs.Prelude.{◌≡◌, Bool};

/// Says of each state whether it is picked.
// A trait and no closure: a call of a closure needs a premise of the public function that takes it, and a clause on what was
// picked needs the choice as a function, which a closure's bound has only as a relation.
pub trait Picks<S> {
    ghost picked: { Self → S → Bool };

    /// Whether a state is picked.
    fn picks(&self, state: S) -> bool
        ensures { result ≡ picked self.now state };
}
