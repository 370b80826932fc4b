//! Notes: which are refused, that dropped ones are gone, and scanners that depart and arrive in one change.
use crate::bytes::{CARD_1, CARD_3, RETURNED};
use crate::site::{card, publish, report, stay, view_of};
use kw::KeyWrap;
use server::{AdmitFault, PublishFault, RemoveFault, Server};
use siv::Siv;
use std::process::Abort;
use strategies::{KeyOriented, Star};

// An arrival is refused, and nothing else is to be seen.
fn no_arrival(
    rt: &impl Abort,
    server: &mut Server,
    serial: u32,
    cradle: u32,
    fault: AdmitFault,
    number: u8,
) {
    let before = view_of(server);
    let noted = server.admit(serial, cradle);
    assert_eq!(rt; noted, Err(fault), "serial {serial}, cradle {cradle}");
    assert!(rt; fault.number() == number && view_of(server) == before);
}

#[test]
fn arrivals_are_refused(rt: HostRuntime) {
    let rt = &rt;
    let mut server = Server::new();
    for serial in [0, 10_000, 65_537] {
        no_arrival(rt, &mut server, serial, 0, AdmitFault::NoSerial, 1);
    }
    for cradle in [0, 129, 257] {
        no_arrival(rt, &mut server, 1, cradle, AdmitFault::NoCradle, 2);
    }
    assert!(rt; server.admit(1, 128).is_ok() && server.admit(9_999, 1).is_ok());
    let held = [
        (1, 2, AdmitFault::SerialHeld { cradle: 128 }, 3),
        (1, 1, AdmitFault::SerialHeld { cradle: 128 }, 3),
        (2, 1, AdmitFault::CradleHeld { serial: 9_999 }, 4),
    ];
    // First they are noted to arrive, then they are seated.
    for (serial, cradle, fault, number) in held {
        no_arrival(rt, &mut server, serial, cradle, fault, number);
    }
    publish(
        rt,
        &mut server,
        &Star::default(),
        &KeyWrap,
        report(1, 14, 667, 480),
    );
    for (serial, cradle, fault, number) in held {
        no_arrival(rt, &mut server, serial, cradle, fault, number);
    }
    // With their departures noted, others take the cradles, or they themselves do.
    assert!(rt; server.remove(1).is_ok() && server.remove(9_999).is_ok());
    assert!(rt; server.admit(2, 1).is_ok() && server.admit(1, 128).is_ok());
    let held = [
        (2, 5, AdmitFault::SerialHeld { cradle: 1 }, 3),
        (1, 5, AdmitFault::SerialHeld { cradle: 128 }, 3),
        (9_999, 1, AdmitFault::CradleHeld { serial: 2 }, 4),
        (3, 128, AdmitFault::CradleHeld { serial: 1 }, 4),
    ];
    for (serial, cradle, fault, number) in held {
        no_arrival(rt, &mut server, serial, cradle, fault, number);
    }
    publish(
        rt,
        &mut server,
        &Star::default(),
        &KeyWrap,
        report(2, 14, 667, 480),
    );
    assert!(rt; stay(&server, 1) == Some((255, 2)) && stay(&server, 2) == Some((128, 2)));
    assert!(rt; stay(&server, 3).is_none() && stay(&server, 9_999).is_none());
}

// A departure is refused, and nothing else is to be seen.
fn no_departure(rt: &impl Abort, server: &mut Server, serial: u32, fault: RemoveFault, number: u8) {
    let before = view_of(server);
    assert_eq!(rt; server.remove(serial), Err(fault), "serial {serial}");
    assert!(rt; fault.number() == number && view_of(server) == before);
}

#[test]
fn departures_are_refused(rt: HostRuntime) {
    let rt = &rt;
    let mut server = Server::new();
    assert!(rt; server.admit(1, 1).is_ok());
    publish(
        rt,
        &mut server,
        &Star::default(),
        &KeyWrap,
        report(1, 7, 339, 256),
    );
    for serial in [0, 10_000, 65_537] {
        no_departure(rt, &mut server, serial, RemoveFault::NoSerial, 1);
    }
    // One who is only noted to arrive is not seated.
    assert!(rt; server.admit(2, 2).is_ok());
    for serial in [2, 3] {
        no_departure(rt, &mut server, serial, RemoveFault::NotSeated, 5);
    }
    assert!(rt; server.remove(1).is_ok());
    no_departure(rt, &mut server, 1, RemoveFault::Departing, 6);
    assert!(rt; server.admit(1, 1).is_ok());
    no_departure(rt, &mut server, 1, RemoveFault::Departing, 6);
    publish(
        rt,
        &mut server,
        &Star::default(),
        &KeyWrap,
        report(2, 14, 661, 288),
    );
    assert!(rt; stay(&server, 1) == Some((128, 2)) && stay(&server, 2) == Some((129, 2)));
}

#[test]
fn dropped_notes_are_gone(rt: HostRuntime) {
    let rt = &rt;
    let mut server = Server::new();
    assert!(rt; server.admit(1, 1).is_ok());
    publish(
        rt,
        &mut server,
        &Star::default(),
        &KeyWrap,
        report(1, 7, 339, 256),
    );
    let before = view_of(&server);
    assert!(rt;
        server.remove(1).is_ok() && server.admit(2, 1).is_ok() && server.admit(1, 2).is_ok()
    );
    assert!(rt; server.admit(3, 3).is_ok());
    server.drop_notes();
    assert!(rt; view_of(&server) == before);
    let done = server.publish(&Star::default(), &KeyWrap, &[], &mut [], &mut [], &mut []);
    assert_eq!(rt; done, Err(PublishFault::NothingNoted));
    no_arrival(
        rt,
        &mut server,
        1,
        2,
        AdmitFault::SerialHeld { cradle: 1 },
        3,
    );
    no_arrival(
        rt,
        &mut server,
        2,
        1,
        AdmitFault::CradleHeld { serial: 1 },
        4,
    );
    no_departure(rt, &mut server, 2, RemoveFault::NotSeated, 5);
    assert!(rt; server.admit(2, 3).is_ok() && server.remove(1).is_ok());
    publish(
        rt,
        &mut server,
        &Star::default(),
        &KeyWrap,
        report(2, 7, 340, 288),
    );
    assert!(rt; stay(&server, 1).is_none() && stay(&server, 2) == Some((130, 2)));
}

#[test]
fn departed_and_back_in_one_change(rt: HostRuntime) {
    let rt = &rt;
    let strategy = KeyOriented::default();
    let mut server = Server::new();
    for n in [1, 2, 3] {
        assert!(rt; server.admit(n, n).is_ok());
    }
    publish(rt, &mut server, &strategy, &Siv, report(1, 10, 558, 352));
    assert!(rt; server.remove(1).is_ok() && server.remove(3).is_ok());
    assert!(rt; server.admit(3, 3).is_ok() && server.admit(1, 4).is_ok());
    let file = publish(rt, &mut server, &strategy, &Siv, report(2, 10, 558, 320));
    assert!(rt; file.starts_with(&RETURNED));
    assert!(rt; card(&server, 1) == Some(CARD_1) && card(&server, 3) == Some(CARD_3));
    assert_eq!(rt; stay(&server, 2), Some((129, 1)));
}
