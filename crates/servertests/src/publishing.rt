//! Publishings that are refused, and what they leave.
use crate::site::{BLANK, NO_PAIR, material, publish, report, view_of};
use kw::KeyWrap;
use server::{PublishFault, Server};
use server_rules::PublishReport;
use std::process::Abort;
use strategies::KeyOriented;
use tree::{Opener, Pair};
use wrap::WORKING_BYTES;

// Cradle 1 is filled, in epoch 1.
fn one_seated(rt: &impl Abort) -> Server {
    let mut server = Server::new();
    assert!(rt; server.admit(1, 1).is_ok());
    publish(
        rt,
        &mut server,
        &KeyOriented::default(),
        &KeyWrap,
        report(1, 7, 339, 256),
    );
    server
}

// How many bytes and pairs a publishing is lent.
struct Lengths {
    material: usize,
    pairs: usize,
    file: usize,
    work: usize,
}

// Publishes with so much of everything. Where it is refused, nothing is written but zeros to enough working bytes.
fn publish_with(
    rt: &impl Abort,
    server: &mut Server,
    lengths: Lengths,
) -> Result<PublishReport, PublishFault> {
    let Lengths {
        material: drawn,
        pairs: planned,
        file: bytes,
        work: lent,
    } = lengths;
    assert!(rt; drawn <= 1024 && planned <= 32 && bytes <= 700 && lent <= 600);
    let before = view_of(server);
    let material = material(2);
    let mut pairs = [NO_PAIR; 32];
    let mut file = [BLANK; 700];
    let mut work = [5u8; 600];
    let done = server.publish(
        &KeyOriented::default(),
        &KeyWrap,
        &material[..drawn],
        &mut pairs[..planned],
        &mut file[..bytes],
        &mut work[..lent],
    );
    let left = if lent < WORKING_BYTES { 5 } else { 0 };
    assert!(rt; work.iter().take(lent).all(|byte| *byte == left));
    if done.is_err() {
        assert!(rt; pairs == [NO_PAIR; 32] && file == [BLANK; 700]);
        assert!(rt; view_of(server) == before);
    }
    done
}

#[test]
fn one_check_after_the_other(rt: HostRuntime) {
    let rt = &rt;
    let mut server = one_seated(rt);
    for work in [511, 512] {
        let lengths = Lengths {
            material: 255,
            pairs: 13,
            file: 660,
            work,
        };
        let fault = publish_with(rt, &mut server, lengths);
        assert_eq!(rt; fault, Err(PublishFault::NothingNoted));
        assert_eq!(rt; PublishFault::NothingNoted.number(), 7);
    }
    assert!(rt; server.admit(2, 2).is_ok());
    let refused = [
        (255, 511, PublishFault::ShortWorking, 9),
        (0, 600, PublishFault::ShortMaterial { needed: 256 }, 10),
        (255, 512, PublishFault::ShortMaterial { needed: 256 }, 10),
        (256, 512, PublishFault::ShortPairs { needed: 14 }, 11),
    ];
    for (material, work, fault, number) in refused {
        let lengths = Lengths {
            material,
            pairs: 13,
            file: 660,
            work,
        };
        assert_eq!(rt; publish_with(rt, &mut server, lengths), Err(fault));
        assert_eq!(rt; fault.number(), number);
    }
    let lengths = Lengths {
        material: 256,
        pairs: 14,
        file: 661,
        work: 512,
    };
    let done = publish_with(rt, &mut server, lengths);
    assert_eq!(rt; done, Ok(report(2, 14, 661, 256)));
}

#[test]
fn a_file_without_room_leaves_the_plan(rt: HostRuntime) {
    let rt = &rt;
    let mut server = one_seated(rt);
    assert!(rt; server.admit(2, 2).is_ok());
    let before = view_of(&server);
    let mut plan = [NO_PAIR; 20];
    // By index: the two pairs of a node stand side by side.
    for i in 0..7 {
        let n = 64 >> i;
        plan[2 * i] = Pair {
            opener: Opener::Former(n),
            content: n,
        };
        plan[2 * i + 1] = Pair {
            opener: Opener::Present(129),
            content: n,
        };
    }
    let strategy = KeyOriented::default();
    let mut pairs = [NO_PAIR; 20];
    let mut file = [BLANK; 660];
    let mut work = [5u8; 512];
    let done = server.publish(
        &strategy,
        &KeyWrap,
        &material(2),
        &mut pairs,
        &mut file,
        &mut work,
    );
    let fault = PublishFault::ShortFile { needed: 661 };
    assert_eq!(rt; done, Err(fault));
    assert_eq!(rt; fault.number(), 12);
    assert!(rt; pairs == plan && file == [BLANK; 660] && work == [0; 512]);
    assert!(rt; view_of(&server) == before);
    publish(
        rt,
        &mut server,
        &strategy,
        &KeyWrap,
        report(2, 14, 661, 256),
    );
}
