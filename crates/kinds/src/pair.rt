// Pairs of two kinds, which work part by part.
ghost use Rattle.kinds.specs.Product.{product};
ghost use Rattle.kinds.specs.ProductLemmas.{product_laws, product_unique, product_halving, product_numbers};

use super::kind::Kind;
use super::limits;

/// A value of each of two kinds.
#[derive(Clone, Copy, PartialEq, Eq, Debug)]
pub struct Pair<A, B> {
    pub first: A,
    pub second: B,
}

impl<A: Kind, B: Kind> Kind for Pair<A, B> {
    ghost group = { product A.Kind.group B.Kind.group };

    ghost meaning = { λ x. (A.Kind.meaning x.first, B.Kind.meaning x.second) };

    ghost number = { λ n. record { first = A.Kind.number n; second = B.Kind.number n } };

    ghost lawful = { product_laws A.Kind.group B.Kind.group A.Kind.lawful B.Kind.lawful };

    ghost unique = { product_unique A.Kind.group B.Kind.group A.Kind.unique B.Kind.unique };

    ghost halving = { product_halving A.Kind.group B.Kind.group A.Kind.halving B.Kind.halving };

    ghost numbers = { product_numbers A.Kind.group B.Kind.group (λ n. A.Kind.meaning (A.Kind.number n)) (λ n. B.Kind.meaning (B.Kind.number n))
        A.Kind.numbers B.Kind.numbers };

    fn zero() -> Pair<A, B> {
        Pair {
            first: A::zero(),
            second: B::zero(),
        }
    }

    // The operations that answer a pair name their parts' answers in place: a function of two answers would work out the second for nothing
    // where the first is none.
    fn sum(self, other: Pair<A, B>) -> Option<Pair<A, B>> {
        if limits::pass_together(self.size(), other.size()) {
            return None;
        }
        Some(Pair {
            first: self.first.sum(other.first)?,
            second: self.second.sum(other.second)?,
        })
    }

    fn negative(self) -> Option<Pair<A, B>> {
        Some(Pair {
            first: self.first.negative()?,
            second: self.second.negative()?,
        })
    }

    fn half(self) -> Option<Pair<A, B>> {
        Some(Pair {
            first: self.first.half()?,
            second: self.second.half()?,
        })
    }

    fn size(self) -> u64 {
        self.first.size().max(self.second.size())
    }

    #[tactic(auto, using(crate::specs::ProductLemmas::fit_second_told, crate::specs::ProductLemmas::fit_first_told))]
    fn fit(self) -> bool {
        self.first.fit() && self.second.fit()
    }

    fn whole(n: i32) -> Option<Pair<A, B>> {
        Some(Pair {
            first: A::whole(n)?,
            second: B::whole(n)?,
        })
    }

    fn back(self) -> Option<i32> {
        let n = self.first.back()?;
        if self.second.back()? == n {
            Some(n)
        } else {
            None
        }
    }
}
