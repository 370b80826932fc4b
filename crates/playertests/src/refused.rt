//! Readings that are refused: one check after the other, and what they leave.
use crate::bytes::{CARD_11, FILE_1, FILE_2, FILE_3, GROUP_KEYS};
use crate::players::{Calls, ENOUGH, Lengths, does_not_open, enrolled, no_file, reads};
use kw::KeyWrap;
use player::{AnyPlayer, ReadFault};
use siv::Siv;
use std::process::Abort;
use wrap::Wrap;

// All that may be wanting.
const NOTHING: Lengths = Lengths { ring: 0, work: 0 };

const SHORT_WORKING: Lengths = Lengths {
    ring: 289,
    work: 511,
};

const SHORT_RING: Lengths = Lengths {
    ring: 287,
    work: 512,
};

const LONG_RING: Lengths = Lengths {
    ring: 289,
    work: 600,
};

// A file is refused: nothing is written but zeros to 512 working bytes or more.
fn no_reading<W: Wrap>(
    rt: &impl Abort,
    player: AnyPlayer,
    wrap: &W,
    file: &[u8],
    ring: &mut [u8; 300],
    lengths: Lengths,
    fault: ReadFault,
    number: u8,
) -> AnyPlayer {
    let before = *ring;
    let mut work = [5u8; 600];
    assert!(rt; lengths.ring <= 300 && lengths.work <= 600);
    let (player, answer) = player.read(
        wrap,
        file,
        &mut ring[..lengths.ring],
        &mut work[..lengths.work],
    );
    assert_eq!(rt; answer, Some(fault));
    assert_eq!(rt; fault.number(), number);
    assert!(rt; *ring == before);
    let left = if lengths.work < 512 { 5 } else { 0 };
    assert!(rt; work.iter().take(lengths.work).all(|byte| *byte == left));
    assert!(rt; work.iter().skip(lengths.work).all(|byte| *byte == 5));
    player
}

// Whoever wants epoch `wanted` is refused for the bytes that are lent, for the layout and for the
// epoch, in that order.
fn refused_in_order<W: Wrap>(
    rt: &impl Abort,
    player: AnyPlayer,
    wrap: &W,
    wanted: u32,
    ring: &mut [u8; 300],
) -> AnyPlayer {
    assert!(rt; 0 < wanted && wanted < 9);
    let mut player = player;
    for file in [&[] as &[u8], &FILE_1, &FILE_2, &FILE_3] {
        for (lengths, fault, number) in [
            (NOTHING, ReadFault::ShortWorking, 9),
            (SHORT_WORKING, ReadFault::ShortWorking, 9),
            (SHORT_RING, ReadFault::NotARing, 14),
            (LONG_RING, ReadFault::NotARing, 14),
        ] {
            player = no_reading(rt, player, wrap, file, ring, lengths, fault, number);
        }
    }
    // The kind is that of another wrap, in files of any epoch.
    let mut file = FILE_3;
    file[2] = 3;
    for epoch in [1, 2, 3, 4] {
        file[6] = epoch;
        player = no_reading(rt, player, wrap, &file, ring, ENOUGH, no_file(2), 15);
    }
    // Files with no wrap for anyone: the epoch comes first.
    let mut empty = [0x4B, 1, wrap.kind(), 0, 0, 0, 0, 2, 2, 1, 0, 0];
    for (epoch, fault, number) in [
        (wanted - 1, ReadFault::TooLow { wanted }, 16),
        (wanted + 1, ReadFault::TooHigh { wanted }, 17),
        (1_000_000, ReadFault::TooHigh { wanted }, 17),
        (wanted, ReadFault::ShutOut { node: 2 }, 19),
    ] {
        if epoch > 0 {
            empty[3..7].copy_from_slice(&epoch.to_be_bytes());
            player = no_reading(rt, player, wrap, &empty, ring, ENOUGH, fault, number);
            // With a byte too many the layout comes first.
            let mut longer = [0u8; 13];
            longer[..12].copy_from_slice(&empty);
            player = no_reading(rt, player, wrap, &longer, ring, ENOUGH, no_file(12), 15);
        }
    }
    player
}

// Reads the right file after all, and so is the player that it was.
fn reads_at_last<W: Wrap>(
    rt: &impl Abort,
    player: AnyPlayer,
    wrap: &W,
    file: &[u8],
    ring: &mut [u8; 300],
    group_key: [u8; 32],
) -> AnyPlayer {
    reads(rt, player, wrap, file, &mut ring[..288], group_key)
}

#[test]
fn a_waiting_player_comes_back(rt: HostRuntime) {
    let rt = &rt;
    let mut ring = [9u8; 300];
    let player = enrolled(rt, &CARD_11, &mut ring[..288]);
    let mut player = refused_in_order(rt, player, &KeyWrap, 1, &mut ring);
    // Its wraps, damaged: those of 64, of 32 and of the root.
    for index in [1, 4, 13] {
        let mut file = FILE_1;
        file[23 + 46 * index + 6] ^= 0x80;
        let fault = does_not_open(index, 1);
        player = no_reading(rt, player, &KeyWrap, &file, &mut ring, ENOUGH, fault, 18);
        assert!(rt; matches!(player, AnyPlayer::Waiting(_)));
    }
    reads_at_last(rt, player, &KeyWrap, &FILE_1, &mut ring, GROUP_KEYS[0]);
}

#[test]
fn a_seated_player_comes_back(rt: HostRuntime) {
    let rt = &rt;
    let mut ring = [9u8; 300];
    let player = enrolled(rt, &CARD_11, &mut ring[..288]);
    let player = reads_at_last(rt, player, &KeyWrap, &FILE_1, &mut ring, GROUP_KEYS[0]);
    let mut player = refused_in_order(rt, player, &Siv, 2, &mut ring);
    // Its wraps, damaged: those of 32, of 16 and of the root.
    for index in [1, 4, 16] {
        let mut file = FILE_2;
        file[17 + 54 * index + 6] ^= 0x80;
        let fault = does_not_open(index, 2);
        player = no_reading(rt, player, &Siv, &file, &mut ring, ENOUGH, fault, 18);
        assert!(rt; matches!(player, AnyPlayer::Seated(_)));
    }
    reads_at_last(rt, player, &Siv, &FILE_2, &mut ring, GROUP_KEYS[1]);
}
