//! What a server is, and what its calls make of it: words for contracts, and laws about them.
#![tactic(auto)]

ghost use Rattle.server_rules.specs.Laws.{StateLaws};

mod state;

pub use state::{PublishReport, State};

/// Every call keeps a server sound, and what a publishing does to keys.
pub fn state_laws()
    ensures { StateLaws }
{}
