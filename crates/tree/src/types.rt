//! Codes, openers and pairs, and the refusal of a strategy's call.

/// What a change does at a cradle.
#[derive(Clone, Copy, PartialEq, Eq, Debug)]
pub enum Code {
    /// Empty before and after.
    Empty,
    /// Its scanner stays.
    Stays,
    /// A scanner arrives in an empty cradle.
    Arrives,
    /// Its scanner departs, and leaves it empty.
    Departs,
    /// Its scanner departs, and another one arrives.
    Swaps,
}

/// A number that no code has.
#[derive(Clone, Copy, PartialEq, Eq, Debug)]
pub struct UnknownCode(pub u8);

/// What is looked for among the codes beneath a node.
#[derive(Clone, Copy, PartialEq, Eq, Debug)]
pub enum Mark {
    /// Somebody arrives or departs.
    Change,
    /// Somebody is there after the change.
    Presence,
    /// Somebody is there before and after.
    Stay,
    /// Somebody is there before, and not after.
    Departure,
}

/// The key that opens a wrap: a node's key after the change, or the one before it.
#[derive(Clone, Copy, PartialEq, Eq, Debug)]
pub enum Opener {
    Present(u8),
    Former(u8),
}

/// A wrap to be made: the new key of the node `content`, under an opener.
#[derive(Clone, Copy, PartialEq, Eq, Debug)]
pub struct Pair {
    pub opener: Opener,
    pub content: u8,
}

/// Why a strategy's call was refused.
#[derive(Clone, Copy, PartialEq, Eq, Debug)]
pub enum PlanFault {
    /// The plan does not fit in the pair buffer that was lent; `needed` is its number of pairs.
    ShortPairs { needed: usize },
}
