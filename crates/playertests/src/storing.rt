//! Players that are stored between their calls, and numbers that no player has.
use crate::bytes::{CARD_11, FILE_1, FILE_2, GROUP_KEYS};
use crate::players::{enrolled, reads, seated};
use kw::KeyWrap;
use player::{AnyPlayer, Stored};
use siv::Siv;
use std::process::Abort;

// What is stored of a player with these numbers.
fn stored_with(state: u8, serial: u16, leaf: u8, epoch: u32) -> Stored {
    Stored {
        state,
        leaf,
        serial,
        epoch,
    }
}

// Stores the player, and restores it.
fn again(rt: &impl Abort, player: AnyPlayer, expected: Stored) -> AnyPlayer {
    let stored = player.store();
    assert_eq!(rt; stored, expected);
    AnyPlayer::restore(stored).expect(rt, "its numbers are refused")
}

#[test]
fn a_stored_player_reads_on(rt: HostRuntime) {
    let rt = &rt;
    let mut ring = [9u8; 288];
    let player = enrolled(rt, &CARD_11, &mut ring);
    let player = again(rt, player, stored_with(1, 11, 128, 1));
    let player = reads(rt, player, &KeyWrap, &FILE_1, &mut ring, GROUP_KEYS[0]);
    let player = again(rt, player, stored_with(2, 11, 128, 1));
    let player = reads(rt, player, &Siv, &FILE_2, &mut ring, GROUP_KEYS[1]);
    let player = seated(rt, player);
    assert_eq!(rt; player.epoch(), 2);
    let Ok(wiped) = player.wipe(&mut ring) else {
        assert!(rt; false, "the ring is refused");
        return;
    };
    let player = again(rt, AnyPlayer::from(wiped), stored_with(3, 11, 0, 0));
    assert!(rt; matches!(player, AnyPlayer::Wiped(_)));
}

#[test]
fn ends_of_the_ranges(rt: HostRuntime) {
    for state in [1, 2] {
        assert!(rt; AnyPlayer::restore(stored_with(state, 1, 128, 1)).is_some());
        assert!(rt; AnyPlayer::restore(stored_with(state, 9999, 255, 1_000_000)).is_some());
        assert!(rt; AnyPlayer::restore(stored_with(state, 0, 128, 1)).is_none());
        assert!(rt; AnyPlayer::restore(stored_with(state, 10000, 128, 1)).is_none());
        assert!(rt; AnyPlayer::restore(stored_with(state, 1, 127, 1)).is_none());
        assert!(rt; AnyPlayer::restore(stored_with(state, 1, 128, 0)).is_none());
        assert!(rt; AnyPlayer::restore(stored_with(state, 1, 128, 1_000_001)).is_none());
    }
    assert!(rt; AnyPlayer::restore(stored_with(3, 9999, 0, 0)).is_some());
    assert!(rt; AnyPlayer::restore(stored_with(3, 10000, 0, 0)).is_none());
    assert!(rt; AnyPlayer::restore(stored_with(3, 1, 128, 0)).is_none());
    assert!(rt; AnyPlayer::restore(stored_with(3, 1, 0, 1)).is_none());
    assert!(rt; AnyPlayer::restore(stored_with(0, 1, 128, 1)).is_none());
    assert!(rt; AnyPlayer::restore(stored_with(4, 1, 128, 1)).is_none());
}
