//! A player in any state, and what is stored of it.
ghost use Rattle.std.specs.Prelude.{◌≡◌, Some};
ghost use Rattle.player.specs.Stored.{store, restore, has_player_ranges, is_serial_alone};
ghost use Rattle.player.specs.Laws.{StoringLaws};
ghost use Rattle.player.specs.declared.any.AnyPlayer.TheVariants as any;

use crate::players::{Seated, Waiting, Wiped};
use keys::{LAST_EPOCH, is_serial};

/// A player in any state. A match gives the player of that state back.
#[derive(Drop)]
pub enum AnyPlayer {
    Waiting(Waiting),
    Seated(Seated),
    Wiped(Wiped),
}

/// What is stored of a player: its state (1 waiting, 2 seated, 3 wiped) and its numbers. Leaf and
/// epoch of a wiped player are 0. It has eight bytes, and the layout of the struct in C.
#[repr(C)]
#[derive(Drop, PartialEq, Eq, Debug)]
pub struct Stored {
    pub state: u8,
    pub leaf: u8,
    pub serial: u16,
    pub epoch: u32,
}

const WAITING: u8 = 1;

const SEATED: u8 = 2;

const WIPED: u8 = 3;

impl From<Waiting> for AnyPlayer {
    ghost from_gives = { λ p a. a ≡ any.Waiting p };

    fn from(player: Waiting) -> AnyPlayer {
        Self::Waiting(player)
    }
}

impl From<Seated> for AnyPlayer {
    ghost from_gives = { λ p a. a ≡ any.Seated p };

    fn from(player: Seated) -> AnyPlayer {
        Self::Seated(player)
    }
}

impl From<Wiped> for AnyPlayer {
    ghost from_gives = { λ p a. a ≡ any.Wiped p };

    fn from(player: Wiped) -> AnyPlayer {
        Self::Wiped(player)
    }
}

impl Stored {
    // Can a waiting or seated player have these numbers?
    fn has_player_ranges(&self) -> bool
        ensures { result ≡ has_player_ranges self.now }
    {
        is_serial(self.serial) && 128 <= self.leaf && (1..=LAST_EPOCH).contains(&self.epoch)
    }

    // Are they what is left of a wiped player?
    fn is_serial_alone(&self) -> bool
        ensures { result ≡ is_serial_alone self.now }
    {
        is_serial(self.serial) && self.leaf == 0 && self.epoch == 0
    }
}

impl AnyPlayer {
    /// What to store of this player, which it replaces: `restore` gives the player back.
    pub fn store(self) -> Stored
        ensures stored { result ≡ store self }
        ensures comes_back { restore result ≡ Some self }
    {
        match self {
            AnyPlayer::Waiting(player) => Stored {
                state: WAITING,
                leaf: player.leaf,
                serial: player.serial,
                epoch: player.epoch,
            },
            AnyPlayer::Seated(player) => Stored {
                state: SEATED,
                leaf: player.leaf,
                serial: player.serial,
                epoch: player.epoch,
            },
            AnyPlayer::Wiped(player) => Stored {
                state: WIPED,
                leaf: 0,
                serial: player.serial,
                epoch: 0,
            },
        }
    }

    /// The player of which this was stored; `None` where no player has these numbers. The ring that
    /// is then lent to it is the one that was kept beside them.
    pub fn restore(stored: Stored) -> Option<AnyPlayer>
        ensures { result ≡ restore stored }
    {
        match stored.state {
            WAITING if stored.has_player_ranges() => Some(AnyPlayer::Waiting(Waiting {
                serial: stored.serial,
                leaf: stored.leaf,
                epoch: stored.epoch,
            })),
            SEATED if stored.has_player_ranges() => Some(AnyPlayer::Seated(Seated {
                serial: stored.serial,
                leaf: stored.leaf,
                epoch: stored.epoch,
            })),
            WIPED if stored.is_serial_alone() => Some(AnyPlayer::Wiped(Wiped {
                serial: stored.serial,
            })),
            _ => None,
        }
    }
}

/// A player is restored exactly of what is stored of it.
#[tactic(auto, using(crate::proofs::Storing::storing_laws))]
pub fn storing_laws()
    ensures { StoringLaws }
{}
