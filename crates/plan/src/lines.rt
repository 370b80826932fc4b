//! Lines: a strategy and a row of codes.
ghost use Rattle.std.specs.Prelude.{◌≡◌};
ghost use Rattle.plan.specs.Reading.{choice_of, code_of_digit, row_of, request_of_line};

use crate::bad::Bad;
use tree::{CRADLES, Code};

/// One of the three strategies.
#[derive(Clone, Copy)]
pub enum Choice {
    Star,
    UserOriented,
    KeyOriented,
}

/// What a line asks for.
#[derive(Clone, Copy)]
pub struct Request {
    pub choice: Choice,
    pub row: [Code; 128],
}

impl TryFrom<u8> for Choice {
    type Error = Bad;

    ghost try_from_gives = { λ digit result. result ≡ choice_of digit };

    fn try_from(digit: u8) -> Result<Choice, Bad> {
        match digit {
            b'1' => Ok(Choice::Star),
            b'2' => Ok(Choice::UserOriented),
            b'3' => Ok(Choice::KeyOriented),
            _ => Err(Bad::UnknownStrategy),
        }
    }
}

// The code of a digit's byte, b'0' to b'4'.
fn code_of_digit(digit: u8) -> Option<Code>
    ensures { result ≡ code_of_digit digit }
{
    Code::try_from(digit.checked_sub(b'0')?).ok()
}

// The row of 1 to 128 digits: the codes of the first cradles; the others are empty.
fn row_of(digits: &[u8]) -> Result<[Code; 128], Bad>
    ensures { result ≡ row_of digits.now }
{
    if digits.is_empty() || digits.len() > CRADLES {
        return Err(Bad::RowLength {
            codes: digits.len(),
        });
    }
    let mut row = [Code::Empty; CRADLES];
    // By index: a proof does not know what a zipped `row.iter_mut()` has written.
    for (i, digit) in digits.iter().enumerate() {
        row[i] = code_of_digit(*digit).ok_or(Bad::NotACode { cradle: i + 1 })?;
    }
    Ok(row)
}

/// Reads a line; `None` if it is empty.
pub(crate) fn read_line(line: &[u8]) -> Result<Option<Request>, Bad>
    ensures { result ≡ request_of_line line.now }
{
    match line {
        [] => Ok(None),
        [strategy, b' ', digits @ ..] => Ok(Some(Request {
            choice: Choice::try_from(*strategy)?,
            row: row_of(digits)?,
        })),
        _ => Err(Bad::Form),
    }
}
