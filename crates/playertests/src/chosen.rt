//! Files with chosen wraps: which wrap is taken, and what there is where none is.
use crate::bytes::{
    CARD_42, CARD_9999, CHOSEN_5_KIND_1, CHOSEN_5_KIND_2, CHOSEN_6_KIND_1, CHOSEN_6_KIND_2,
    LAST_KEY, LAST_KIND_1, LAST_KIND_2, MISNAMED_KIND_1, MISNAMED_KIND_2, RING_5, RING_6,
    SHUT_OUT_KIND_1, SHUT_OUT_KIND_2,
};
use crate::players::{Calls, does_not_open, enrolled, is_refused, no_file};
use kw::KeyWrap;
use player::{AnyPlayer, ReadFault};
use siv::Siv;
use std::process::Abort;
use wrap::Wrap;

// Reads a file that is taken, and compares the ring.
fn taken<W: Wrap>(
    rt: &impl Abort,
    player: AnyPlayer,
    wrap: &W,
    file: &[u8],
    ring: &mut [u8; 288],
    want: &[u8; 288],
) -> AnyPlayer {
    let mut work = [5u8; 512];
    let (player, fault) = player.read(wrap, file, ring, &mut work);
    assert_eq!(rt; fault, None);
    assert!(rt; *ring == *want && work == [0; 512]);
    player
}

// Reads a file with the wrap of one index damaged: it is refused if the wrap is one of those that
// are opened, and else taken.
fn reads_damaged<W: Wrap>(
    rt: &impl Abort,
    player: AnyPlayer,
    wrap: &W,
    file: &mut [u8],
    index: usize,
    ring: &mut [u8; 288],
    opened: &[usize],
) -> AnyPlayer {
    assert!(rt; file.len() > 20 && index < 9 && wrap.sealed_len() <= 64);
    let epoch = u32::from(file[6]);
    let at = 10 + usize::from(file[7]) + index * (6 + wrap.sealed_len()) + 6;
    assert!(rt; at < file.len());
    file[at] ^= 1;
    let player = if opened.contains(&index) {
        is_refused(
            rt,
            player,
            wrap,
            file,
            ring,
            does_not_open(index, epoch),
            18,
        )
    } else {
        let mut work = [5u8; 512];
        let (player, fault) = player.read(wrap, file, ring, &mut work);
        assert_eq!(rt; fault, None, "wrap {index}");
        player
    };
    assert!(rt; at < file.len());
    file[at] ^= 1;
    player
}

// Scanner 42 reads the files of the epochs 5 and 6.
fn first_that_matches<W: Wrap>(rt: &impl Abort, wrap: &W, file_5: &mut [u8], file_6: &mut [u8]) {
    let mut ring = [9u8; 288];
    for index in 0..8 {
        let player = enrolled(rt, &CARD_42, &mut ring);
        reads_damaged(rt, player, wrap, file_5, index, &mut ring, &[0, 3, 6]);
    }
    for index in 0..9 {
        let player = enrolled(rt, &CARD_42, &mut ring);
        let player = taken(rt, player, wrap, file_5, &mut ring, &RING_5);
        reads_damaged(rt, player, wrap, file_6, index, &mut ring, &[0, 2, 4, 6, 7]);
    }
    let player = enrolled(rt, &CARD_42, &mut ring);
    let player = taken(rt, player, wrap, file_5, &mut ring, &RING_5);
    taken(rt, player, wrap, file_6, &mut ring, &RING_6);
}

#[test]
fn the_first_wrap_that_matches_is_taken(rt: HostRuntime) {
    let mut file_5 = CHOSEN_5_KIND_1;
    let mut file_6 = CHOSEN_6_KIND_1;
    first_that_matches(&rt, &KeyWrap, &mut file_5, &mut file_6);
    let mut file_5 = CHOSEN_5_KIND_2;
    let mut file_6 = CHOSEN_6_KIND_2;
    first_that_matches(&rt, &Siv, &mut file_5, &mut file_6);
}

// Node 85 gets its new key, and then nothing opens 42: the ring is as it was, and the right file is
// read after that. Of two faults the one of the lower node is reported, wherever their wraps stand.
fn shut_out<W: Wrap>(rt: &impl Abort, wrap: &W, file_5: &[u8], shut: &mut [u8], file_6: &[u8]) {
    let mut ring = [9u8; 288];
    let player = enrolled(rt, &CARD_42, &mut ring);
    let player = taken(rt, player, wrap, file_5, &mut ring, &RING_5);
    let fault = ReadFault::ShutOut { node: 42 };
    let player = is_refused(rt, player, wrap, shut, &mut ring, fault, 19);
    assert!(rt; shut.len() > 100);
    let last = shut.len() - 1;
    shut[last] ^= 1;
    let player = is_refused(rt, player, wrap, shut, &mut ring, fault, 19);
    shut[19] ^= 1;
    let fault = does_not_open(0, 6);
    let player = is_refused(rt, player, wrap, shut, &mut ring, fault, 18);
    taken(rt, player, wrap, file_6, &mut ring, &RING_6);
}

#[test]
fn a_former_key_that_was_replaced_opens_nothing(rt: HostRuntime) {
    let mut shut = SHUT_OUT_KIND_1;
    shut_out(&rt, &KeyWrap, &CHOSEN_5_KIND_1, &mut shut, &CHOSEN_6_KIND_1);
    let mut shut = SHUT_OUT_KIND_2;
    shut_out(&rt, &Siv, &CHOSEN_5_KIND_2, &mut shut, &CHOSEN_6_KIND_2);
}

#[test]
fn a_key_under_another_name(rt: HostRuntime) {
    let rt = &rt;
    let mut ring = [9u8; 288];
    let player = enrolled(rt, &CARD_42, &mut ring);
    let fault = does_not_open(0, 5);
    let player = is_refused(rt, player, &Siv, &MISNAMED_KIND_2, &mut ring, fault, 18);
    // The first kind has no name in it.
    let mut work = [5u8; 512];
    let (player, fault) = player.read(&KeyWrap, &MISNAMED_KIND_1, &mut ring, &mut work);
    assert_eq!(rt; fault, None);
    assert!(rt;
        player
            .shown(&ring)
            .is_some_and(|key| RING_5.ends_with(&key))
    );
}

// After the last epoch every file is too low.
fn last_epoch<W: Wrap>(rt: &impl Abort, wrap: &W, file: &[u8], other: &[u8]) {
    let mut ring = [9u8; 288];
    let player = enrolled(rt, &CARD_9999, &mut ring);
    let fault = ReadFault::TooLow { wanted: 1_000_000 };
    let player = is_refused(rt, player, wrap, other, &mut ring, fault, 16);
    let mut work = [5u8; 512];
    let (player, fault) = player.read(wrap, file, &mut ring, &mut work);
    assert_eq!(rt; fault, None);
    assert!(rt; player.shown(&ring) == Some(LAST_KEY));
    let fault = ReadFault::TooLow { wanted: 1_000_001 };
    let player = is_refused(rt, player, wrap, file, &mut ring, fault, 16);
    let player = is_refused(rt, player, wrap, other, &mut ring, fault, 16);
    assert!(rt; player.shown(&ring) == Some(LAST_KEY));
    let mut later = [0u8; 65];
    assert!(rt; file.len() <= 65 && file.len() > 6);
    later[..file.len()].copy_from_slice(file);
    later[6] = 0x41;
    is_refused(rt, player, wrap, &later, &mut ring, no_file(3), 15);
}

#[test]
fn no_file_after_the_last_epoch(rt: HostRuntime) {
    last_epoch(&rt, &KeyWrap, &LAST_KIND_1, &MISNAMED_KIND_1);
    last_epoch(&rt, &Siv, &LAST_KIND_2, &MISNAMED_KIND_2);
}
