//! The cradles of a site: who is in each, what is noted for it, and what a publishing draws for
//! them.
#![tactic(auto)]

ghost use Rattle.std.specs.Prelude.{◌≡◌};
ghost use Rattle.cradles.specs.Cradles.{cradle_code, occupant, holder, has_departure, with_arrival, with_departure, without_notes, after_change};

mod draws;
mod nodes;
mod rows;

pub use draws::Draws;
pub use rows::{after_change, row, without_notes};
use tree::Code;

/// A cradle. Scanners go by their serials.
#[derive(Clone, Copy, PartialEq, Eq, Debug)]
pub enum Cradle {
    /// Nobody is in it, and nothing is noted.
    Empty,
    /// A scanner is in it, and nothing is noted.
    Stays(u16),
    /// Nobody is in it, and an arrival is noted.
    Arrives(u16),
    /// A scanner is in it, and its departure is noted.
    Departs(u16),
    /// A scanner is in it, and its departure and an arrival are noted.
    Swaps { departs: u16, arrives: u16 },
}

impl Cradle {
    /// Its code in the row of the next change.
    pub fn code(self) -> Code
        ensures { result ≡ cradle_code self }
    {
        match self {
            Cradle::Empty => Code::Empty,
            Cradle::Stays(_) => Code::Stays,
            Cradle::Arrives(_) => Code::Arrives,
            Cradle::Departs(_) => Code::Departs,
            Cradle::Swaps { .. } => Code::Swaps,
        }
    }

    /// Who is in it now.
    pub fn occupant(self) -> Option<u16>
        ensures { result ≡ occupant self }
    {
        match self {
            Cradle::Empty | Cradle::Arrives(_) => None,
            Cradle::Stays(serial) | Cradle::Departs(serial) => Some(serial),
            Cradle::Swaps { departs, .. } => Some(departs),
        }
    }

    /// Who is in it once the notes are carried out.
    pub fn holder(self) -> Option<u16>
        ensures { result ≡ holder self }
    {
        match self {
            Cradle::Empty | Cradle::Departs(_) => None,
            Cradle::Stays(serial) | Cradle::Arrives(serial) => Some(serial),
            Cradle::Swaps { arrives, .. } => Some(arrives),
        }
    }

    /// Whether a departure is noted.
    pub fn has_departure(self) -> bool
        ensures { result ≡ has_departure self }
    {
        matches!(self, Cradle::Departs(_) | Cradle::Swaps { .. })
    }

    /// With an arrival noted, where the cradle has no holder.
    pub fn with_arrival(self, serial: u16) -> Cradle
        ensures { result ≡ with_arrival self serial }
    {
        match self {
            Cradle::Empty => Cradle::Arrives(serial),
            Cradle::Departs(departs) => Cradle::Swaps {
                departs,
                arrives: serial,
            },
            held => held,
        }
    }

    /// With the departure of its scanner noted.
    pub fn with_departure(self) -> Cradle
        ensures { result ≡ with_departure self }
    {
        match self {
            Cradle::Stays(serial) => Cradle::Departs(serial),
            other => other,
        }
    }

    /// With nothing noted.
    pub fn without_notes(self) -> Cradle
        ensures { result ≡ without_notes self }
    {
        match self {
            Cradle::Empty | Cradle::Arrives(_) => Cradle::Empty,
            Cradle::Stays(serial) | Cradle::Departs(serial) => Cradle::Stays(serial),
            Cradle::Swaps { departs, .. } => Cradle::Stays(departs),
        }
    }

    /// With its notes carried out.
    pub fn after_change(self) -> Cradle
        ensures { result ≡ after_change self }
    {
        match self {
            Cradle::Empty | Cradle::Departs(_) => Cradle::Empty,
            Cradle::Stays(serial) | Cradle::Arrives(serial) => Cradle::Stays(serial),
            Cradle::Swaps { arrives, .. } => Cradle::Stays(arrives),
        }
    }
}
