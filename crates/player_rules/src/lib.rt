//! What a player is, and what its calls make of it and of its ring: definitions for contracts, and
//! laws about them.
#![tactic(auto)]

ghost use Rattle.player_rules.specs.Laws.{PlayerLaws};

mod limits;

pub use limits::RING_BYTES;

/// The laws of a player: what it finds and reads, and what a refused call keeps.
#[tactic(auto, using(crate::proofs::EveryPlayer::player_laws))]
pub fn player_laws()
    ensures { PlayerLaws }
{}
