//! Changes of a site: what is reported of them, and files and cards as the model has them.
use crate::bytes::{CARD_42, CARD_4711, EMPTIED, FILLED, FILLED_TWO, STAR, USER_ORIENTED};
use crate::site::{BLANK, NO_PAIR, card, publish, report, stay};
use kw::KeyWrap;
use layout::check;
use server::{RemoveFault, Server};
use siv::Siv;
use std::process::Abort;
use strategies::{KeyOriented, Star, UserOriented};

#[test]
fn two_cradles_filled_and_one_emptied(rt: HostRuntime) {
    let rt = &rt;
    let strategy = KeyOriented::default();
    let mut server = Server::new();
    assert!(rt; server.epoch() == 0 && server.group_key().is_none());
    assert!(rt; server.admit(4711, 1).is_ok());
    let file = publish(rt, &mut server, &strategy, &KeyWrap, report(1, 7, 339, 256));
    assert!(rt; file.starts_with(&FILLED));
    assert!(rt; card(&server, 4711) == Some(CARD_4711) && card(&server, 42).is_none());
    assert!(rt; server.admit(42, 2).is_ok());
    let file = publish(
        rt,
        &mut server,
        &strategy,
        &KeyWrap,
        report(2, 14, 661, 256),
    );
    assert!(rt; file.starts_with(&FILLED_TWO));
    assert!(rt; card(&server, 4711) == Some(CARD_4711) && card(&server, 42) == Some(CARD_42));
    assert!(rt; server.remove(4711).is_ok());
    let file = publish(rt, &mut server, &strategy, &KeyWrap, report(3, 7, 339, 224));
    assert!(rt; file.starts_with(&EMPTIED));
    assert!(rt; card(&server, 4711).is_none() && card(&server, 42) == Some(CARD_42));
}

// Cradles 1 to 4 are filled, and the departure from cradle 1 is noted.
fn one_of_four_departs(rt: &impl Abort) -> Server {
    let mut server = Server::new();
    for c in 1..5 {
        assert!(rt; server.admit(100 + c, c).is_ok());
    }
    let strategy = KeyOriented::default();
    publish(
        rt,
        &mut server,
        &strategy,
        &KeyWrap,
        report(1, 11, 524, 384),
    );
    assert!(rt; server.remove(101).is_ok());
    server
}

#[test]
fn one_of_four_departs_by_each_strategy(rt: HostRuntime) {
    let rt = &rt;
    let mut server = one_of_four_departs(rt);
    let file = publish(
        rt,
        &mut server,
        &Star::default(),
        &KeyWrap,
        report(2, 19, 891, 224),
    );
    assert!(rt; file.starts_with(&STAR));
    let mut server = one_of_four_departs(rt);
    let file = publish(
        rt,
        &mut server,
        &UserOriented::default(),
        &Siv,
        report(2, 13, 719, 224),
    );
    assert!(rt; file.starts_with(&USER_ORIENTED));
    let mut server = one_of_four_departs(rt);
    publish(
        rt,
        &mut server,
        &KeyOriented::default(),
        &Siv,
        report(2, 8, 449, 224),
    );
}

#[test]
fn the_last_member_leaves(rt: HostRuntime) {
    let rt = &rt;
    let strategy = Star::default();
    let mut server = Server::new();
    assert!(rt; server.admit(1, 128).is_ok());
    publish(rt, &mut server, &strategy, &Siv, report(1, 7, 395, 256));
    assert!(rt; server.remove(1).is_ok());
    let file = publish(rt, &mut server, &strategy, &KeyWrap, report(2, 0, 17, 224));
    assert!(rt; file.starts_with(&[0x4B, 1, 1, 0, 0, 0, 2, 7, 127, 63, 31, 15, 7, 3, 1, 0, 0]));
    assert_eq!(rt; server.remove(1), Err(RemoveFault::NotSeated));
    assert!(rt; server.admit(2, 128).is_ok());
    publish(rt, &mut server, &strategy, &KeyWrap, report(3, 7, 339, 256));
    assert_eq!(rt; stay(&server, 2), Some((255, 3)));
}

#[test]
fn all_cradles_filled_and_emptied(rt: HostRuntime) {
    let rt = &rt;
    let mut server = Server::new();
    for c in 1..129 {
        assert!(rt; server.admit(c, c).is_ok());
    }
    let material = [7u8; 8_160];
    let mut pairs = [NO_PAIR; 896];
    let mut file = [BLANK; 48_521];
    let mut work = [5u8; 512];
    let done = server.publish(
        &Star::default(),
        &Siv,
        &material,
        &mut pairs,
        &mut file,
        &mut work,
    );
    assert_eq!(rt; done, Ok(report(1, 896, 48_521, 8_160)));
    assert!(rt; check(&Siv, &file).is_ok());
    assert!(rt; stay(&server, 1) == Some((128, 1)) && stay(&server, 128) == Some((255, 1)));
    for c in 1..129 {
        assert!(rt; server.remove(c).is_ok());
    }
    let done = server.publish(
        &Star::default(),
        &Siv,
        &material,
        &mut pairs,
        &mut file,
        &mut work,
    );
    assert_eq!(rt; done, Ok(report(2, 0, 137, 4_064)));
    assert!(rt; file.starts_with(&[0x4B, 1, 2, 0, 0, 0, 2, 127, 127, 126]));
    assert!(rt; stay(&server, 1).is_none() && stay(&server, 128).is_none());
}
