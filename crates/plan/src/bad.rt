//! Why a line is bad.
use thiserror::Error;

/// What is wrong with a line.
#[derive(Clone, Copy, Debug, Error)]
pub enum Bad {
    #[error("a strategy, one space and a row wanted")]
    Form,
    #[error("unknown strategy, 1 to 3 wanted")]
    UnknownStrategy,
    #[error("row of {codes} codes, 1 to 128 wanted")]
    RowLength { codes: usize },
    #[error("the code of cradle {cradle} is not 0 to 4")]
    NotACode { cradle: usize },
}
