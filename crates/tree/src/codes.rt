//! Codes by their numbers, and what is looked for among them.
ghost use Rattle.std.specs.Prelude.{◌≡◌, ok_or};
ghost use Rattle.tree.specs.Rows.{code_of_number, is_mark_of, standing_of, standing_or, has_mark};

use crate::types::{Code, Mark, UnknownCode};

impl TryFrom<u8> for Code {
    type Error = UnknownCode;

    ghost try_from_gives = { λ number result. result
        ≡ ok_or (code_of_number number) (record { 0 = number }) };

    fn try_from(number: u8) -> Result<Code, UnknownCode> {
        match number {
            0 => Ok(Code::Empty),
            1 => Ok(Code::Stays),
            2 => Ok(Code::Arrives),
            3 => Ok(Code::Departs),
            4 => Ok(Code::Swaps),
            _ => Err(UnknownCode(number)),
        }
    }
}

impl Mark {
    /// Whether the code is one that this mark looks for.
    pub fn is_mark_of(self, code: Code) -> bool
        ensures { result ≡ is_mark_of self code }
    {
        match self {
            Mark::Change => matches!(code, Code::Arrives | Code::Departs | Code::Swaps),
            Mark::Presence => matches!(code, Code::Stays | Code::Arrives | Code::Swaps),
            Mark::Stay => matches!(code, Code::Stays),
            Mark::Departure => matches!(code, Code::Departs | Code::Swaps),
        }
    }
}

/// Which marks stand at a node or beneath it.
#[derive(Clone, Copy, Default)]
pub struct Standing {
    pub change: bool,
    pub presence: bool,
    pub stay: bool,
    pub departure: bool,
}

impl From<Code> for Standing {
    ghost from_gives = { λ code standing. standing ≡ standing_of code };

    /// The marks of one code.
    fn from(code: Code) -> Standing {
        Standing {
            change: Mark::Change.is_mark_of(code),
            presence: Mark::Presence.is_mark_of(code),
            stay: Mark::Stay.is_mark_of(code),
            departure: Mark::Departure.is_mark_of(code),
        }
    }
}

impl Standing {
    /// The marks that stand in either place.
    pub fn or(self, other: Standing) -> Standing
        ensures { result ≡ standing_or self other }
    {
        Standing {
            change: self.change | other.change,
            presence: self.presence | other.presence,
            stay: self.stay | other.stay,
            departure: self.departure | other.departure,
        }
    }

    /// Whether the mark is one of those that stand there.
    pub fn has_mark(self, mark: Mark) -> bool
        ensures { result ≡ has_mark self mark }
    {
        match mark {
            Mark::Change => self.change,
            Mark::Presence => self.presence,
            Mark::Stay => self.stay,
            Mark::Departure => self.departure,
        }
    }
}
