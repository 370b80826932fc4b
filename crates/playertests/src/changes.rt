//! Six changes of a site, one by each strategy and wrap, as two of its scanners read them.
use crate::bytes::{
    CARD_11, CARD_12, CARD_12_A_THIRD_TIME, CARD_12_AGAIN, FILE_1, FILE_2, FILE_3, FILE_4, FILE_5,
    FILE_6, GROUP_KEYS, RING_11,
};
use crate::players::{enrolled, is_refused, reads, seated};
use crate::sums::sum_of;
use kw::KeyWrap;
use player::ReadFault;
use siv::Siv;

#[test]
fn a_scanner_that_stays_reads_each_file(rt: HostRuntime) {
    let rt = &rt;
    let mut ring = [9u8; 288];
    let player = enrolled(rt, &CARD_11, &mut ring);
    let player = reads(rt, player, &KeyWrap, &FILE_1, &mut ring, GROUP_KEYS[0]);
    assert_eq!(rt; sum_of(&ring), 15_912_781_035_767_312_563);
    let player = reads(rt, player, &Siv, &FILE_2, &mut ring, GROUP_KEYS[1]);
    assert_eq!(rt; sum_of(&ring), 10_485_482_825_446_920_642);
    let player = reads(rt, player, &KeyWrap, &FILE_3, &mut ring, GROUP_KEYS[2]);
    assert_eq!(rt; sum_of(&ring), 10_382_425_041_541_903_411);
    let player = reads(rt, player, &Siv, &FILE_4, &mut ring, GROUP_KEYS[3]);
    assert_eq!(rt; sum_of(&ring), 14_869_357_764_096_569_079);
    let player = reads(rt, player, &KeyWrap, &FILE_5, &mut ring, GROUP_KEYS[4]);
    assert_eq!(rt; sum_of(&ring), 10_555_176_861_738_273_151);
    reads(rt, player, &Siv, &FILE_6, &mut ring, GROUP_KEYS[5]);
    assert!(rt; ring == RING_11);
}

#[test]
fn a_scanner_that_departs_and_comes_back(rt: HostRuntime) {
    let rt = &rt;
    let mut ring = [9u8; 288];
    let player = enrolled(rt, &CARD_12, &mut ring);
    let player = reads(rt, player, &KeyWrap, &FILE_1, &mut ring, GROUP_KEYS[0]);
    assert_eq!(rt; sum_of(&ring), 17_703_043_290_867_037_604);
    let player = reads(rt, player, &Siv, &FILE_2, &mut ring, GROUP_KEYS[1]);
    assert_eq!(rt; sum_of(&ring), 12_275_745_080_546_645_683);
    let fault = ReadFault::ShutOut { node: 64 };
    let player = is_refused(rt, player, &KeyWrap, &FILE_3, &mut ring, fault, 19);
    let fault = ReadFault::TooHigh { wanted: 3 };
    is_refused(rt, player, &Siv, &FILE_4, &mut ring, fault, 17);
    let player = enrolled(rt, &CARD_12_AGAIN, &mut ring);
    let fault = ReadFault::TooLow { wanted: 4 };
    let player = is_refused(rt, player, &KeyWrap, &FILE_3, &mut ring, fault, 16);
    let player = reads(rt, player, &Siv, &FILE_4, &mut ring, GROUP_KEYS[3]);
    assert_eq!(rt; sum_of(&ring), 16_557_439_210_097_739_998);
    let player = reads(rt, player, &KeyWrap, &FILE_5, &mut ring, GROUP_KEYS[4]);
    assert_eq!(rt; sum_of(&ring), 3_431_899_930_563_330_943);
    // It departs and arrives in one change: the key of its former stay opens nothing.
    let fault = ReadFault::ShutOut { node: 80 };
    is_refused(rt, player, &Siv, &FILE_6, &mut ring, fault, 19);
    let player = enrolled(rt, &CARD_12_A_THIRD_TIME, &mut ring);
    let player = reads(rt, player, &Siv, &FILE_6, &mut ring, GROUP_KEYS[5]);
    assert_eq!(rt; sum_of(&ring), 17_855_002_128_563_274_599);
    let wiped = seated(rt, player).wipe(&mut ring);
    assert!(rt; wiped.is_ok_and(|wiped| wiped.serial() == 12) && ring == [0; 288]);
}
