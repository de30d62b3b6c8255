//! The names of rescue files.

ghost use Rattle.std.specs.Prelude.{◌≡◌, ◌≢◌, ◌<◌, ◌+◌, ◌∷◌, [], ℕ, Ok, Err, MatchOption};
ghost use Rattle.rescue_file.specs.Reading.{Gives};
ghost use Rattle.rescue_file.specs.Numbered.{IsFileNumber, three_digits, rescue_name_of, IsFound, IsHighest};
ghost use Rattle.rescue_file.specs.declared.fault.RescueFault.TheVariants.{NotThere};

use crate::fault::RescueFault;
use dag_reader::Text;
use std::alloc::Global;

/// The greatest number of a rescue file.
const LAST_NUMBER: u16 = 999;

/// The name of the rescue file of this number, from 1 to 999: that of the top DAG file, `.rescue`
/// and three digits, as in the chapter "The rescue DAG" of the HTCondor manual.
///
/// # Errors
/// `NotThere` with the number where it is 0 or above 999, and else `Memory` where memory runs out.
pub fn rescue_name(alloc: Global, top: &str, number: u16) -> Result<Text, RescueFault>
    // A number from 1 to 999 has this name.
    ensures name { IsFileNumber number → Gives (λ name. name) result (Ok (rescue_name_of top.now number)) }

    // Any other number is refused, whether there is memory or not.
    ensures refused { ¬ (IsFileNumber number) → result ≡ Err (NotThere number) }
{
    if number == 0 || number > LAST_NUMBER {
        return Err(RescueFault::NotThere(number));
    }
    let (hundreds, tens, units) = (number / 100, number / 10 % 10, number % 10);
    let mut name = String::from_str(alloc, top)?;
    write!(name, ".rescue{hundreds}{tens}{units}")?;
    Ok(Text::new(alloc, name.as_str())?)
}

/// The highest number, from 1 to 999, of a rescue file of this top DAG file among these names, or 0
/// where there is none. It is the file to be read when the DAG is started again. It takes no memory.
///
/// A name counts only if it is the `rescue_name` of such a number: one with another number of
/// digits does not, nor does that with 000.
pub fn pick_number(names: &[Text], top: &str) -> u16
    ensures { IsHighest names.now top.now result }
{
    let mut highest = 0u16;
    for name in names {
        if let Some(number) = number_in(name.as_str().as_bytes(), top.as_bytes()) {
            highest = highest.max(number);
        }
    }
    highest
}

/// The number of the rescue file that has this name, if one has.
fn number_in(name: &[u8], top: &[u8]) -> Option<u16>
    ensures { IsFound (rescue_name_of top.now) name.now result }
{
    number_of_digits(name.strip_prefix(top)?.strip_prefix(b".rescue")?)
}

/// The number from 1 to 999 that is these three digits.
fn number_of_digits(digits: &[u8]) -> Option<u16>
    ensures { IsFound three_digits digits.now result }
{
    match digits {
        [hundreds, tens, units] => number_of_three(*hundreds, *tens, *units),
        _ => None,
    }
}

/// The number of three digits, if it is from 1 to 999.
fn number_of_three(hundreds: u8, tens: u8, units: u8) -> Option<u16>
    ensures { IsFound three_digits (hundreds ∷ tens ∷ units ∷ []) result }
{
    let number = 100 * value_of(hundreds)? + 10 * value_of(tens)? + value_of(units)?;
    if number == 0 {
        return None;
    }
    Some(number)
}

/// The value of a digit.
fn value_of(digit: u8) -> Option<u16>
    ensures { MatchOption result ((value : ℕ) → value < 10 → 48 + value ≢ digit)
        (λ value. (value < 10) × (48 + value ≡ digit)) }
{
    if digit.is_ascii_digit() {
        Some(u16::from(digit - b'0'))
    } else {
        None
    }
}
