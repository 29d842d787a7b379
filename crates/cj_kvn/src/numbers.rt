//! Numbers of kilometres and the like, read as whole numbers of a smaller unit.
ghost use Rattle.std.specs.Prelude.{◌≡◌, ◌^◌, ◌<◌, ◌≤◌, length};
ghost use Rattle.cj_kvn.specs.Numbers.{scaled_of};

use crate::scaling::scale;
use crate::scanning::scan;

/// Why a text gives no number.
#[derive(Clone, Copy, Debug, PartialEq, Eq)]
pub enum NumFault {
    /// The text has not the form of a number.
    NotNumber,
    /// The number is past the range of the reading.
    TooLarge,
}

/// The number times 10 to the power of the places, rounded to the nearest whole number, halves away from zero. It is
/// too large beyond 10^36 in size.
pub fn read_scaled(text: &[u8], places: u32) -> Result<i128, NumFault>
    requires places { places ≤ 12 }
    requires short { length text.now < 2 ^ 32 }
    ensures { result ≡ scaled_of places text.now }
{
    match scan(text) {
        None => Err(NumFault::NotNumber),
        Some(number) => scale(number, places),
    }
}
