//! The kinds of key wraps.
ghost use Rattle.std.specs.Prelude.{◌≡◌, Some, codes};
ghost use Rattle.kinds.specs.Kinds.{kind_number, kind_result_of_word, kind_result_of_number};

use std::error::Error;
use std::fmt;
use std::str::FromStr;

/// A kind of key wrap.
#[derive(Clone, Copy, PartialEq, Eq, Debug)]
pub enum Kind {
    /// The key wrap of RFC 3394.
    Rfc3394,
    /// AES-SIV, RFC 5297.
    Rfc5297,
}

/// The number or the word stands for no kind of wrap.
#[derive(Clone, Copy, PartialEq, Eq, Debug)]
pub struct UnknownKind;

/// The number that stands for the kind in a file.
impl From<Kind> for u8 {
    ghost from_gives = { λ kind number. number ≡ kind_number kind };

    fn from(kind: Kind) -> u8 {
        match kind {
            Kind::Rfc3394 => 1,
            Kind::Rfc5297 => 2,
        }
    }
}

/// The kind that a number stands for.
impl TryFrom<u8> for Kind {
    type Error = UnknownKind;

    ghost try_from_gives = { λ number kind. kind ≡ kind_result_of_number number };

    fn try_from(number: u8) -> Result<Kind, UnknownKind> {
        match number {
            1 => Ok(Kind::Rfc3394),
            2 => Ok(Kind::Rfc5297),
            _ => Err(UnknownKind),
        }
    }
}

/// Reads a kind's number, in one digit.
impl FromStr for Kind {
    type Err = UnknownKind;

    ghost from_str_gives = { λ word kind. kind ≡ kind_result_of_word word };

    fn from_str(word: &str) -> Result<Kind, UnknownKind> {
        match word.as_bytes() {
            [b'1'] => Ok(Kind::Rfc3394),
            [b'2'] => Ok(Kind::Rfc5297),
            _ => Err(UnknownKind),
        }
    }
}

// By hand: what a derive writes has no contract.
impl fmt::Display for UnknownKind {
    ghost output = { λ _. Some (codes "unknown kind of wrap") };

    fn fmt<W: fmt::Write>(&self, f: &mut fmt::Formatter<W>) -> fmt::Result {
        f.write_str("unknown kind of wrap")
    }
}

impl Error for UnknownKind {}
