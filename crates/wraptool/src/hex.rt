//! Bytes in hexadecimal: read in either case, written in lower case.
ghost use Rattle.std.specs.Prelude.{◌≡◌, ◌<◌, IfSome, Some, MatchResult};
ghost use Rattle.wraptool.specs.declared.hex.HexFault.TheVariants.{NoMemory};
ghost use Rattle.wraptool.specs.Digits.{hex_digit_value, byte_of_digits, decoded_bytes, IsHexFaultOf};
ghost use Rattle.wraptool.specs.Digits.{two_digits, hex_digits};

use std::alloc::{AllocFailed, Global};
use std::fmt;
use thiserror::Error;

/// Why a text does not write bytes in hexadecimal.
#[derive(Clone, Copy, Debug, Error)]
pub enum HexFault {
    #[error("odd number of digits")]
    OddCount,
    #[error("not a hexadecimal digit")]
    NotADigit,
    #[error("no memory for it")]
    NoMemory,
}

impl From<AllocFailed<u8>> for HexFault {
    ghost from_gives = { λ a r. r ≡ NoMemory };

    fn from(_refused: AllocFailed<u8>) -> HexFault {
        HexFault::NoMemory
    }
}

// The value of a hexadecimal digit of either case.
fn digit(c: u8) -> Option<u8>
    ensures value { result ≡ hex_digit_value c }
    ensures small { IfSome result (λ v. v < 16) }
{
    // `char::to_digit` gives a u32, which would have to be cast back.
    match c {
        b'0'..=b'9' => Some(c - b'0'),
        b'a'..=b'f' => Some(c - b'a' + 10),
        b'A'..=b'F' => Some(c - b'A' + 10),
        _ => None,
    }
}

// The byte that two digits write.
fn pair(c: u8, d: u8) -> Option<u8>
    ensures { result ≡ byte_of_digits c d }
{
    let high = digit(c)?;
    let low = digit(d)?;
    Some(16 * high + low)
}

/// The bytes that a text of digits writes. An odd count is reported before a character that is no digit.
pub(crate) fn decode(heap: Global, text: &[u8]) -> Result<Vec<u8>, HexFault>
    ensures { MatchResult result (λ v. decoded_bytes text.now ≡ Some v.items)
        (λ f. IsHexFaultOf f text.now) }
{
    let (pairs, odd) = text.as_chunks::<2>();
    if !odd.is_empty() {
        return Err(HexFault::OddCount);
    }
    let mut out = Vec::new(heap);
    for [high, low] in pairs {
        let byte = pair(*high, *low).ok_or(HexFault::NotADigit)?;
        out.push(byte)?;
    }
    Ok(out)
}

// Shows a byte as two digits.
#[derive(Clone, Copy)]
struct TwoDigits(u8);

impl fmt::Display for TwoDigits {
    ghost output = { λ b. Some (two_digits b.0) };

    fn fmt<W: fmt::Write>(&self, f: &mut fmt::Formatter<W>) -> fmt::Result {
        let byte = self.0;
        write!(f, "{byte:02x}")
    }
}

/// Shows bytes as two digits each.
#[derive(Clone, Copy)]
pub(crate) struct HexDigits<'a>(pub(crate) &'a [u8]);

impl fmt::Display for HexDigits<'_> {
    ghost output = { λ h. Some (hex_digits h.0.now) };

    fn fmt<W: fmt::Write>(&self, f: &mut fmt::Formatter<W>) -> fmt::Result {
        for byte in self.0 {
            f.write(TwoDigits(*byte))?;
        }
        Ok(())
    }
}
