//! Why a line has no bytes for an answer.
use crate::hex::HexFault;
use kinds::UnknownKind;
use std::alloc::AllocError;
use std::fmt;
use thiserror::Error;
use wrap::WrapFault;

/// A part of a line that has to have a certain length.
#[derive(Clone, Copy, Debug)]
pub enum Part {
    Key,
    Block,
    Name,
    Content,
}

impl fmt::Display for Part {
    fn fmt<W: fmt::Write>(&self, f: &mut fmt::Formatter<W>) -> fmt::Result {
        f.write_str(match *self {
            Part::Key => "key",
            Part::Block => "block",
            Part::Name => "name",
            Part::Content => "content",
        })
    }
}

/// What is wrong with a line, or that the wrap refused what it asks for.
#[derive(Clone, Copy, Debug, Error)]
pub enum Fault {
    #[error("not text")]
    NotText,
    #[error("unknown command")]
    UnknownCommand,
    #[error("wrong number of words, {wanted} wanted")]
    WordCount {
        wanted: usize,
    },
    #[error(transparent)]
    UnknownKind(#[from] UnknownKind),
    #[error(transparent)]
    Hex(#[from] HexFault),
    #[error("{part} of {bytes} bytes, {wanted} wanted")]
    Length {
        part: Part,
        bytes: usize,
        wanted: usize,
    },
    #[error("key of {bytes} bytes, 16 or 32 wanted")]
    AesKeyLength {
        bytes: usize,
    },
    #[error("no memory for it")]
    NoMemory(#[from(alloc)] AllocError),
    #[error("no {}", .0.number())]
    Refused(WrapFault),
}
