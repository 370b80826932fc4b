//! The player: it is enrolled with a card, reads rekey files, shows the group key, and is wiped.
#![tactic(auto)]

ghost use Rattle.std.specs.Prelude.{◌≡◌};

mod any;
mod card;
mod fault;
mod players;
mod read;
mod rings;
mod seated;
mod waiting;

pub use any::{AnyPlayer, Stored, storing_laws};
pub use card::enrol;
pub use climb::ReadFault;
pub use fault::{EnrolFault, RingFault};
pub use keys::CARD_BYTES;
pub use player_rules::RING_BYTES;
pub use players::{Refused, Seated, Waiting, Wiped};

impl Wiped {
    /// The serial of the player.
    pub fn serial(&self) -> u16
        ensures { result ≡ self.now }
    {
        self.serial
    }
}
