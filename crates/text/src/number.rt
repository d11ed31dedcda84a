// The number that a numeral writes.
ghost use Rattle.std.specs.Prelude.{◌≡◌};
ghost use Rattle.text.specs.Number.{number_of};

use crate::numeral::Numeral;

/// The number that a numeral writes, or none where the bytes are not a numeral.
pub fn numeral_value(bytes: &[u8]) -> Option<i32>
    ensures { result ≡ number_of bytes.now }
{
    let numeral = Numeral::new(bytes);
    if numeral.is_lawful() {
        Some(numeral.value())
    } else {
        None
    }
}
