//! Numbers: one to ten decimal digits, whose value fits in a `u32`. Leading zeros are digits.
ghost use Rattle.std.specs.Prelude.{◌≡◌};
ghost use Rattle.mk_script.specs.Numbers.{number};
ghost use Rattle.mk_script.specs.SeenFields.{field_text};
ghost use Rattle.mk_script.specs.ReaderAnswers.{IsFound};
ghost use Rattle.mk_class.specs.TextClasses.{itself};

use crate::fault::NotThere;
use crate::field::Field;

// The most digits that a number may have.
const MOST_DIGITS: usize = 10;

/// The number that a field writes.
///
/// # Errors
///
/// [`NotThere`] if the field writes no number.
pub(crate) fn number_of(field: Field<'_>) -> Result<u32, NotThere>
    ensures { IsFound itself (number (field_text field.entry)) result }
{
    read_number(field.written())
}

fn read_number(digits: &[u8]) -> Result<u32, NotThere>
    ensures { IsFound itself (number digits.now) result }
{
    if digits.len() > MOST_DIGITS || digits.is_empty() {
        return Err(NotThere);
    }
    let mut value = 0u64;
    for digit in digits {
        if !digit.is_ascii_digit() {
            return Err(NotThere);
        }
        value = 10 * value + u64::from(*digit - b'0');
    }
    if value > u64::from(u32::MAX) {
        return Err(NotThere);
    }
    Ok(value as u32)
}
