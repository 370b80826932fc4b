//! Cards: what is refused, and what a card leaves of a buffer.
use crate::site::{BLANK, card, publish, report, view_of};
use kw::KeyWrap;
use server::{CardFault, Server};
use strategies::KeyOriented;

#[test]
fn cards_of_those_who_are_seated(rt: HostRuntime) {
    let rt = &rt;
    let mut server = Server::new();
    assert!(rt; server.admit(1, 1).is_ok());
    publish(
        rt,
        &mut server,
        &KeyOriented::default(),
        &KeyWrap,
        report(1, 7, 339, 256),
    );
    assert!(rt; server.admit(2, 2).is_ok());
    let before = view_of(&server);
    let refused = [
        (0, CardFault::NoSerial, 1),
        (10_000, CardFault::NoSerial, 1),
        (65_537, CardFault::NoSerial, 1),
        (2, CardFault::NotSeated, 5),
        (9_999, CardFault::NotSeated, 5),
        (1, CardFault::ShortCard { needed: 39 }, 12),
    ];
    for (serial, fault, number) in refused {
        let mut short = [BLANK; 38];
        assert_eq!(rt;
            server.card(serial, &mut short),
            Err(fault),
            "serial {serial}"
        );
        assert!(rt; fault.number() == number && short == [BLANK; 38]);
    }
    assert!(rt; view_of(&server) == before);
    let mut long = [BLANK; 50];
    assert!(rt; server.card(1, &mut long).is_ok());
    assert!(rt; long.starts_with(&[0, 1, 128, 0, 0, 0, 1]) && long[39..] == [BLANK; 11]);
    assert!(rt; server.remove(1).is_ok());
    assert!(rt; card(&server, 1).is_some_and(|card| long.starts_with(&card)));
}
