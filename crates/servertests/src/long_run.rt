//! A long run of calls, rolled by dice that the model has too: the sum over all answers, files and cards is the model's.
use crate::site::{BLANK, NO_PAIR, card};
use keys::NodeKey;
use kw::KeyWrap;
use rolls::{Dice, Sum};
use server::{AdmitFault, PublishFault, Server};
use server_rules::PublishReport;
use siv::Siv;
use strategies::{KeyOriented, Star, UserOriented};
use tree::Strategy;
use wrap::{WORKING_BYTES, Wrap};

// The dice, and the sum over all that was answered.
#[derive(Drop)]
struct Run {
    dice: Dice,
    sum: Sum,
}

fn admit(run: &mut Run, server: &mut Server) {
    let serial = run.dice.roll() % 14;
    let cradle = run.dice.roll() % 11 * 13;
    let Err(fault) = server.admit(serial, cradle) else {
        run.sum.add(0);
        return;
    };
    run.sum.add(usize::from(fault.number()));
    match fault {
        AdmitFault::SerialHeld { cradle } => run.sum.add(usize::from(cradle)),
        AdmitFault::CradleHeld { serial } => run.sum.add(usize::from(serial)),
        AdmitFault::NoSerial | AdmitFault::NoCradle => {}
    }
}

fn remove(run: &mut Run, server: &mut Server) {
    let serial = run.dice.roll() % 14;
    let number = server
        .remove(serial)
        .err()
        .map_or(0, |fault| fault.number());
    run.sum.add(usize::from(number));
}

fn add_answer(sum: &mut Sum, answer: Result<PublishReport, PublishFault>) {
    match answer {
        Ok(report) => {
            sum.add(report.epoch as usize);
            sum.add(report.wraps);
            sum.add(report.bytes);
            sum.add(report.drawn);
        }
        Err(fault) => {
            sum.add(usize::from(fault.number()));
            match fault {
                PublishFault::ShortMaterial { needed }
                | PublishFault::ShortPairs { needed }
                | PublishFault::ShortFile { needed } => sum.add(needed),
                PublishFault::NothingNoted | PublishFault::LastEpoch | PublishFault::ShortWorking =>
                    {}
            }
        }
    }
}

// Publishes with random material into buffers that are often too short.
fn publish<S: Strategy, W: Wrap>(run: &mut Run, server: &mut Server, strategy: &S, wrap: &W) {
    let mut material = [0u8; 3000];
    for byte in material.iter_mut() {
        *byte = (run.dice.roll() % 256) as u8;
    }
    let drawn = 200 + run.dice.roll() as usize % 2800;
    let mut pairs = [NO_PAIR; 100];
    let planned = run.dice.roll() as usize % 100;
    let mut file = [BLANK; 6000];
    let bytes = 300 + run.dice.roll() as usize % 5700;
    let mut work = [5u8; WORKING_BYTES];
    let answer = server.publish(
        strategy,
        wrap,
        &material[..drawn],
        &mut pairs[..planned],
        &mut file[..bytes],
        &mut work,
    );
    add_answer(&mut run.sum, answer);
    run.sum.add_all(&file);
    run.sum
        .add_all(&server.group_key().unwrap_or(NodeKey::UNMADE.key));
}

fn publish_by_any(run: &mut Run, server: &mut Server) {
    match run.dice.roll() % 6 {
        0 => publish(run, server, &Star::default(), &KeyWrap),
        1 => publish(run, server, &Star::default(), &Siv),
        2 => publish(run, server, &UserOriented::default(), &KeyWrap),
        3 => publish(run, server, &UserOriented::default(), &Siv),
        4 => publish(run, server, &KeyOriented::default(), &KeyWrap),
        _ => publish(run, server, &KeyOriented::default(), &Siv),
    }
}

#[test]
fn a_long_run_is_as_in_the_model(rt: HostRuntime) {
    let rt = &rt;
    let mut server = Server::new();
    let mut run = Run {
        dice: Dice { state: 1 },
        sum: Sum { value: 0 },
    };
    for _ in 0..2000 {
        match run.dice.roll() % 32 {
            0..=15 => admit(&mut run, &mut server),
            16..=27 => remove(&mut run, &mut server),
            28 => server.drop_notes(),
            _ => publish_by_any(&mut run, &mut server),
        }
        for serial in 0..14 {
            if let Some(card) = card(&server, serial) {
                run.sum.add_all(&card);
            }
        }
    }
    assert_eq!(rt; server.epoch(), 78);
    assert_eq!(rt; run.sum.value, 18_110_287_507_279_944_955);
}
