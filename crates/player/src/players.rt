//! The states of a player: plain numbers that move from call to call. A ring is lent to each call.
ghost use Rattle.std.specs.Prelude.{ℕ};
ghost use Rattle.player_rules.specs.Players.{PlayerNumbers, player_numbers};
ghost use Rattle.keys.specs.Limits.{IsSerial};
ghost use Rattle.player.specs.Ranges.{HasPlayerRanges};

use std::marker::Model;

/// A player that has read no file yet.
#[derive(Drop)]
pub struct Waiting {
    pub(crate) serial: u16,
    pub(crate) leaf: u8,
    // That of the first file.
    pub(crate) epoch: u32,
}

impl Model for Waiting {
    ghost Value = { PlayerNumbers };

    ghost view = { λ p. player_numbers p.serial p.leaf p.epoch };

    ghost invariant = { λ p. HasPlayerRanges p.serial p.leaf p.epoch };
}

/// A player whose ring has a group key.
#[derive(Drop)]
pub struct Seated {
    pub(crate) serial: u16,
    pub(crate) leaf: u8,
    // That of the group key.
    pub(crate) epoch: u32,
}

impl Model for Seated {
    ghost Value = { PlayerNumbers };

    ghost view = { λ p. player_numbers p.serial p.leaf p.epoch };

    ghost invariant = { λ p. HasPlayerRanges p.serial p.leaf p.epoch };
}

/// What is left of a player whose ring was wiped.
#[derive(Drop)]
pub struct Wiped {
    pub(crate) serial: u16,
}

impl Model for Wiped {
    ghost Value = { ℕ };

    ghost view = { λ p. p.serial };

    ghost invariant = { λ p. IsSerial p.serial };
}

/// A call that was refused hands the same player back.
#[derive(Drop)]
pub struct Refused<P, F> {
    pub player: P,
    pub fault: F,
}
