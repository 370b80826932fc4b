//! Cards and rings: which are refused, and what an enrolling, a showing and a wiping leave.
use crate::bytes::{CARD_11, FILE_1, FILE_2, GROUP_KEYS};
use crate::players::{Calls, enrolled, reads, seated};
use kw::KeyWrap;
use player::{AnyPlayer, EnrolFault, RingFault, Seated, enrol};
use siv::Siv;
use std::process::Abort;

// The card of scanner 11 with another serial, leaf and epoch.
fn card_with(serial: [u8; 2], leaf: u8, epoch: u32) -> [u8; 39] {
    let mut card = CARD_11;
    card[..2].copy_from_slice(&serial);
    card[2] = leaf;
    card[3..7].copy_from_slice(&epoch.to_be_bytes());
    card
}

// A card is refused, and the ring is as it was.
fn no_player(rt: &impl Abort, card: &[u8], ring_bytes: usize, fault: EnrolFault, number: u8) {
    let mut ring = [9u8; 300];
    assert!(rt; ring_bytes <= 300);
    let answer = enrol(card, &mut ring[..ring_bytes]).err();
    assert_eq!(rt; answer, Some(fault));
    assert_eq!(rt; fault.number(), number);
    assert!(rt; ring == [9; 300]);
}

#[test]
fn one_check_after_the_other(rt: HostRuntime) {
    let rt = &rt;
    let mut card = [0u8; 50];
    for ring_bytes in [0, 36, 287, 289, 300] {
        no_player(rt, &[], ring_bytes, EnrolFault::NotARing, 14);
        no_player(rt, &CARD_11, ring_bytes, EnrolFault::NotARing, 14);
    }
    for (bytes, place) in [(0, 0), (1, 1), (7, 7), (38, 38), (40, 39), (50, 39)] {
        assert!(rt; bytes <= 50);
        no_player(rt, &card[..bytes], 288, EnrolFault::Card { place }, 13);
    }
    // Serial, leaf and epoch.
    let spoilt = [
        ([0, 0], 0, 0, 0),
        ([0, 0], 128, 1, 0),
        ([0x27, 0x10], 127, 0, 0),
        ([0xFF, 0xFF], 255, 1, 0),
        ([0x27, 0x0F], 127, 1_000_001, 2),
        ([0, 1], 0, 1, 2),
        ([0, 1], 128, 0, 3),
        ([1, 0], 255, 1_000_001, 3),
        ([1, 0], 255, 0xFFFF_FFFF, 3),
    ];
    for (serial, leaf, epoch, place) in spoilt {
        let card = card_with(serial, leaf, epoch);
        no_player(rt, &card, 288, EnrolFault::Card { place }, 13);
    }
    card[..39].copy_from_slice(&CARD_11);
    no_player(rt, &card, 288, EnrolFault::Card { place: 39 }, 13);
}

#[test]
fn a_card_fills_the_first_entry(rt: HostRuntime) {
    let rt = &rt;
    let taken = [
        ([0, 1], 128, 1),
        ([0x27, 0x0F], 255, 1_000_000),
        ([1, 0], 129, 65_536),
    ];
    for (serial, leaf, epoch) in taken {
        let card = card_with(serial, leaf, epoch);
        let mut ring = [9u8; 288];
        let Ok(player) = enrol(&card, &mut ring) else {
            assert!(rt; false, "the card is refused");
            return;
        };
        assert!(rt;
            ring.iter()
                .zip(card.iter().skip(3))
                .all(|(byte, of_card)| byte == of_card)
        );
        assert!(rt; ring.iter().skip(36).all(|byte| *byte == 0));
        // A wiping that is refused hands the player back.
        let before = ring;
        let Err(refused) = player.wipe(&mut ring[1..]) else {
            assert!(rt; false, "287 bytes are wiped");
            return;
        };
        assert!(rt; refused.fault == RingFault::NotARing && refused.fault.number() == 14);
        assert!(rt; ring == before);
        let wiped = refused.player.wipe(&mut ring);
        assert!(rt; wiped.is_ok_and(|wiped| wiped.serial() == u16::from_be_bytes(serial)));
        assert!(rt; ring == [0; 288]);
    }
}

// Shows from and wipes no bytes of another length; the player comes back.
fn refuses_other_lengths(rt: &impl Abort, mut player: Seated, ring: &[u8; 288]) -> Option<Seated> {
    let mut long = [9u8; 300];
    long[..288].copy_from_slice(ring);
    for bytes in [0, 287, 289, 300] {
        assert!(rt; bytes <= 300);
        assert_eq!(rt; player.show(&long[..bytes]), Err(RingFault::NotARing));
        let kept = long;
        let Err(refused) = player.wipe(&mut long[..bytes]) else {
            assert!(rt; false, "{bytes} bytes are wiped");
            return None;
        };
        assert!(rt; refused.fault == RingFault::NotARing && refused.fault.number() == 14);
        assert!(rt; long == kept);
        player = refused.player;
    }
    Some(player)
}

#[test]
fn a_seated_player_shows_and_wipes(rt: HostRuntime) {
    let rt = &rt;
    let mut ring = [9u8; 288];
    let player = enrolled(rt, &CARD_11, &mut ring);
    assert!(rt; player.shown(&ring).is_none());
    let player = reads(rt, player, &KeyWrap, &FILE_1, &mut ring, GROUP_KEYS[0]);
    let player = seated(rt, player);
    let before = ring;
    let Some(player) = refuses_other_lengths(rt, player, &ring) else {
        return;
    };
    assert!(rt; player.show(&ring) == Ok(GROUP_KEYS[0]) && ring == before);
    // It is the player that it was: it reads the next file.
    let player = reads(
        rt,
        AnyPlayer::from(player),
        &Siv,
        &FILE_2,
        &mut ring,
        GROUP_KEYS[1],
    );
    let wiped = seated(rt, player).wipe(&mut ring);
    assert!(rt; wiped.is_ok_and(|wiped| wiped.serial() == 11) && ring == [0; 288]);
}
