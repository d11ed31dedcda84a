// The residues modulo the prime 2^31 - 1. Every pattern of 32 bits is a value, and answers are below the modulus.
ghost use Rattle.std.specs.Prelude.{◌≡◌, ◌+◌, ◌%◌, ◌<◌, IfSome};
ghost use Rattle.kinds.specs.Operations.{Sum, Negative, Half, Whole};
ghost use Rattle.kinds.specs.Residues.{mersenne, class, residues, whole_residue};
ghost use Rattle.kinds.specs.ResiduesLemmas.{residue_laws, residue_unique, residue_halving, residue_numbers};

use super::kind::Kind;
use super::limits;

/// The prime 2^31 - 1.
const MODULUS: u32 = 2_147_483_647;

/// A residue, by any number that has it.
// It has no `==`, since two patterns of bits can be one residue.
#[derive(Clone, Copy, Debug)]
pub struct Residue {
    pub bits: u32,
}

impl Residue {
    /// The least number with this residue.
    pub fn least(self) -> u32
        ensures value { result ≡ self.bits % mersenne.modulus }
        ensures bound { result < mersenne.modulus }
    {
        self.bits % MODULUS
    }
}

// Every pattern of 32 bits is a value, so that answers are below the modulus is no invariant of the type: each says so.
impl Kind for Residue {
    ghost group = { residues mersenne };

    ghost meaning = { λ x. class mersenne x.bits };

    ghost number = { λ n. record { bits = whole_residue mersenne n } };

    ghost lawful = { residue_laws mersenne };

    ghost unique = { residue_unique mersenne };

    ghost halving = { residue_halving mersenne };

    ghost numbers = { residue_numbers mersenne };

    fn zero() -> Residue {
        Residue { bits: 0 }
    }

    fn sum(self, other: Residue) -> Option<Residue>
        ensures sum { Sum (residues mersenne) (λ x. class mersenne x.bits) self other result }
        ensures answered { IfSome result (λ x. x.bits < mersenne.modulus) }
    {
        let sum = (self.least() + other.least()) % MODULUS;
        Some(Residue { bits: sum })
    }

    fn negative(self) -> Option<Residue>
        ensures negative { Negative (residues mersenne) (λ x. class mersenne x.bits) self result }
        ensures answered { IfSome result (λ x. x.bits < mersenne.modulus) }
    {
        let negative = (MODULUS - self.least()) % MODULUS;
        Some(Residue { bits: negative })
    }

    fn half(self) -> Option<Residue>
        ensures half { Half (residues mersenne) (λ x. class mersenne x.bits) self result }
        ensures answered { IfSome result (λ x. x.bits < mersenne.modulus) }
    {
        let least = self.least();
        if least % 2 == 0 {
            Some(Residue { bits: least / 2 })
        } else {
            Some(Residue {
                bits: (least + MODULUS) / 2,
            })
        }
    }

    fn size(self) -> u64 {
        0
    }

    fn fit(self) -> bool {
        true
    }

    fn whole(n: i32) -> Option<Residue>
        ensures whole { Whole (residues mersenne) (λ x. class mersenne x.bits) (λ n. record { bits = whole_residue mersenne n }) n result }
        ensures answered { IfSome result (λ x. x.bits < mersenne.modulus) }
    {
        if !limits::in_range(i64::from(n)) {
            return None;
        }
        let magnitude = n.unsigned_abs();
        let bits = if n < 0 {
            MODULUS - magnitude
        } else {
            magnitude
        };
        Some(Residue { bits })
    }

    #[tactic(auto, using(crate::specs::ResiduesLemmas::back_told, crate::specs::ResiduesLemmas::back_none))]
    fn back(self) -> Option<i32> {
        let least = self.least();
        let below = MODULUS - least;
        if least <= limits::LARGEST_NUMBER {
            Some(least as i32)
        } else if below <= limits::LARGEST_NUMBER {
            Some(-(below as i32))
        } else {
            None
        }
    }
}
