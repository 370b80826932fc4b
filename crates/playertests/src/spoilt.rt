//! Files with one byte spoilt, at each place, and cut at each length: the sum over all answers and
//! rings is the model's.
use crate::bytes::{CARD_11, CARD_12_AGAIN, FILE_1, FILE_2, FILE_4, FILE_5};
use crate::players::{Calls, enrolled};
use crate::sums::add_read;
use kw::KeyWrap;
use player::AnyPlayer;
use rolls::Sum;
use siv::Siv;
use std::process::Abort;
use wrap::Wrap;

// A player whose reading is tried: scanner 11 or 12, before or after its first file.
#[derive(Clone, Copy)]
enum Stage {
    Waiting11,
    Seated11,
    Waiting12,
    Seated12,
}

fn player_of(rt: &impl Abort, stage: Stage, ring: &mut [u8], work: &mut [u8]) -> AnyPlayer {
    match stage {
        Stage::Waiting11 => enrolled(rt, &CARD_11, ring),
        Stage::Seated11 => {
            enrolled(rt, &CARD_11, ring)
                .read(&KeyWrap, &FILE_1, ring, work)
                .0
        }
        Stage::Waiting12 => enrolled(rt, &CARD_12_AGAIN, ring),
        Stage::Seated12 => {
            enrolled(rt, &CARD_12_AGAIN, ring)
                .read(&Siv, &FILE_4, ring, work)
                .0
        }
    }
}

fn try_reading<W: Wrap>(rt: &impl Abort, stage: Stage, wrap: &W, file: &[u8], sum: &mut Sum) {
    let mut ring = [9u8; 288];
    let mut work = [5u8; 512];
    let player = player_of(rt, stage, &mut ring, &mut work);
    let before = ring;
    let (_player, fault) = player.read(wrap, file, &mut ring, &mut work);
    add_read(sum, fault);
    if fault.is_some() {
        assert!(rt; ring == before);
    } else {
        sum.add_all(&ring);
    }
}

fn sum_of_tries<W: Wrap>(rt: &impl Abort, stage: Stage, wrap: &W, file: &mut [u8]) -> usize {
    let mut sum = Sum { value: 0 };
    for at in 0..file.len() {
        for mask in [1, 4, 0x80, 0xFF] {
            file[at] ^= mask;
            try_reading(rt, stage, wrap, file, &mut sum);
            file[at] ^= mask;
        }
    }
    for len in 0..file.len() {
        try_reading(rt, stage, wrap, &file[..len], &mut sum);
    }
    sum.value
}

#[test]
fn a_first_file_of_kind_1(rt: HostRuntime) {
    let mut file = FILE_1;
    let sum = sum_of_tries(&rt, Stage::Waiting11, &KeyWrap, &mut file);
    assert_eq!(rt; sum, 12_676_321_842_893_370_892);
}

#[test]
fn a_later_file_of_kind_1(rt: HostRuntime) {
    let mut file = FILE_5;
    let sum = sum_of_tries(&rt, Stage::Seated12, &KeyWrap, &mut file);
    assert_eq!(rt; sum, 14_048_144_018_817_200_988);
}

#[test]
fn a_first_file_of_kind_2(rt: HostRuntime) {
    let mut file = FILE_4;
    let sum = sum_of_tries(&rt, Stage::Waiting12, &Siv, &mut file);
    assert_eq!(rt; sum, 3_562_740_877_145_989_162);
}

#[test]
fn a_later_file_of_kind_2(rt: HostRuntime) {
    let mut file = FILE_2;
    let sum = sum_of_tries(&rt, Stage::Seated11, &Siv, &mut file);
    assert_eq!(rt; sum, 14_866_444_934_308_706_325);
}
