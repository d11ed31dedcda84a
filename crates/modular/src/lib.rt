// A kind of value from outside the library: counts modulo 1,000,003, and a grid over them.
#![tactic(auto)]

ghost use Rattle.kinds.specs.Residues.{class, residues, whole_residue};
ghost use Rattle.modular.specs.Million.{million};
ghost use Rattle.kinds.specs.ResiduesLemmas.{residue_laws, residue_unique, residue_halving, residue_numbers};

use kinds::kind::Kind;

#[cfg(test)]
mod tests;

const MODULUS: u32 = 1_000_003;

/// The largest whole number.
const LARGEST: u32 = 65_536;

/// A count modulo 1,000,003.
#[derive(Clone, Copy)]
pub struct Modular {
    pub count: u32,
}

// Written out whole, though the kind of residues differs only in its modulus and its limits: it shows that a kind needs nothing of
// the library's but the interface.
impl Kind for Modular {
    ghost group = { residues million };

    ghost meaning = { λ x. class million x.count };

    ghost number = { λ n. record { count = whole_residue million n } };

    ghost lawful = { residue_laws million };

    ghost unique = { residue_unique million };

    ghost halving = { residue_halving million };

    ghost numbers = { residue_numbers million };

    fn zero() -> Modular {
        Modular { count: 0 }
    }

    fn sum(self, other: Modular) -> Option<Modular> {
        let sum = self.count % MODULUS + other.count % MODULUS;
        Some(Modular { count: sum })
    }

    fn negative(self) -> Option<Modular> {
        let negative = MODULUS - self.count % MODULUS;
        Some(Modular { count: negative })
    }

    fn half(self) -> Option<Modular> {
        let least = self.count % MODULUS;
        if least % 2 == 0 {
            Some(Modular { count: least / 2 })
        } else {
            Some(Modular {
                count: (least + MODULUS) / 2,
            })
        }
    }

    fn size(self) -> u64 {
        0
    }

    fn fit(self) -> bool {
        true
    }

    fn whole(n: i32) -> Option<Modular> {
        let magnitude = n.unsigned_abs();
        if magnitude > LARGEST {
            return None;
        }
        let count = if n < 0 {
            MODULUS - magnitude
        } else {
            magnitude
        };
        Some(Modular { count })
    }

    #[tactic(auto, using(kinds::specs::ResiduesLemmas::back_told, kinds::specs::ResiduesLemmas::back_none))]
    fn back(self) -> Option<i32> {
        let least = self.count % MODULUS;
        let below = MODULUS - least;
        if least <= LARGEST {
            Some(least as i32)
        } else if below <= LARGEST {
            Some(-(below as i32))
        } else {
            None
        }
    }
}
