//! A long run, rolled by dice that the model has too: the server publishes, and all players read its
//! files, whole or spoilt. The sum over all answers, rings and group keys is the model's.
ghost use Rattle.std.specs.Prelude.{◌<◌, ◌≤◌};
ghost use Rattle.player_rules.specs.declared.limits.TheConstants.{RING_BYTES};
ghost use Rattle.wrap.specs.declared.working.TheConstants.{WORKING_BYTES};

use crate::players::{Calls, ENOUGH, Lengths};
use crate::sums::add_read;
use kw::KeyWrap;
use player::{AnyPlayer, EnrolFault, enrol};
use rolls::{Dice, Sum};
use server::Server;
use siv::Siv;
use std::array;
use std::process::Abort;
use strategies::{KeyOriented, Star, UserOriented};
use tree::{Opener, Pair, Strategy};
use wrap::Wrap;

// A scanner: its serial, its player, if it has one, and its ring.
#[derive(Drop)]
struct Scanner {
    serial: u32,
    player: Option<AnyPlayer>,
    ring: [u8; 288],
}

// The dice, the sum over all that was answered, the server, and the file before.
#[derive(Drop)]
struct Run {
    dice: Dice,
    sum: Sum,
    server: Server,
    former: [u8; 6000],
    former_bytes: usize,
}

fn admit(run: &mut Run) {
    let serial = run.dice.roll() % 14;
    let cradle = run.dice.roll() % 11 * 13;
    let fault = run.server.admit(serial, cradle).err();
    let number = fault.map_or(0, |fault| fault.number());
    run.sum.add(usize::from(number));
}

fn remove(run: &mut Run) {
    let serial = run.dice.roll() % 14;
    let fault = run.server.remove(serial).err();
    let number = fault.map_or(0, |fault| fault.number());
    run.sum.add(usize::from(number));
}

fn enrol_with(run: &mut Run, scanner: &mut Scanner, card: &[u8; 39]) {
    match enrol(card, &mut scanner.ring) {
        Ok(player) => {
            scanner.player = Some(AnyPlayer::from(player));
            run.sum.add(0);
        }
        Err(fault) => {
            run.sum.add(usize::from(fault.number()));
            if let EnrolFault::Card { place } = fault {
                run.sum.add(place);
            }
        }
    }
    run.sum.add_all(&scanner.ring);
}

// A scanner whose stay begins gets its card, and sometimes a spoilt one before.
fn enrol_newcomer(run: &mut Run, scanner: &mut Scanner) {
    let mut card = [0u8; 39];
    if run.server.card(scanner.serial, &mut card).is_err() {
        return;
    }
    let [_, _, _, a, b, c, d, ..] = card;
    if u32::from_be_bytes([a, b, c, d]) != run.server.epoch() {
        return;
    }
    if run.dice.roll() % 4 == 0 {
        let at = run.dice.roll() as usize % 39;
        let mask = (1 + run.dice.roll() % 255) as u8;
        let mut spoilt = card;
        spoilt[at] ^= mask;
        enrol_with(run, scanner, &spoilt);
    }
    enrol_with(run, scanner, &card);
}

fn read<W: Wrap>(run: &mut Run, scanner: &mut Scanner, wrap: &W, file: &[u8], lengths: Lengths)
    requires ring { lengths.ring ≤ RING_BYTES }
    requires work { lengths.work ≤ WORKING_BYTES }
{
    let Some(player) = scanner.player.take() else {
        return;
    };
    let mut work = [5u8; 512];
    let (player, fault) = player.read(
        wrap,
        file,
        &mut scanner.ring[..lengths.ring],
        &mut work[..lengths.work],
    );
    scanner.player = Some(player);
    add_read(&mut run.sum, fault);
    for byte in work.iter().take(lengths.work).skip(510) {
        run.sum.add(usize::from(*byte));
    }
}

fn read_spoilt<W: Wrap>(
    run: &mut Run,
    scanner: &mut Scanner,
    wrap: &W,
    file: &[u8; 6000],
    bytes: usize,
)
    requires { (0 < bytes) × (bytes ≤ 6000) }
{
    let at = run.dice.roll() as usize % bytes;
    let mask = (1 + run.dice.roll() % 255) as u8;
    let mut spoilt = *file;
    spoilt[at] ^= mask;
    read(run, scanner, wrap, &spoilt[..bytes], ENOUGH);
}

fn read_former<W: Wrap>(rt: &impl Abort, run: &mut Run, scanner: &mut Scanner, wrap: &W) {
    let former = run.former;
    let bytes = run.former_bytes;
    assert!(rt; bytes <= 6000);
    read(run, scanner, wrap, &former[..bytes], ENOUGH);
}

fn wipe(rt: &impl Abort, run: &mut Run, scanner: &mut Scanner) {
    let Some(player) = scanner.player.take() else {
        return;
    };
    let wiped = player.wiped(&mut scanner.ring);
    assert!(rt; wiped.is_some());
    run.sum.add(usize::from(wiped.unwrap_or(0)));
}

// A reading that is refused, as a rule, or a wiping, or nothing.
fn fail_at_first<V: Wrap, W: Wrap>(
    rt: &impl Abort,
    run: &mut Run,
    scanner: &mut Scanner,
    wrap: &V,
    other: &W,
    file: &[u8; 6000],
    bytes: usize,
)
    requires { (0 < bytes) × (bytes ≤ 6000) }
{
    match run.dice.roll() % 16 {
        0 => read_spoilt(run, scanner, wrap, file, bytes),
        1 => {
            let lengths = Lengths {
                ring: 288,
                work: 511,
            };
            read(run, scanner, wrap, &file[..bytes], lengths)
        }
        2 => {
            let lengths = Lengths {
                ring: 287,
                work: 512,
            };
            read(run, scanner, wrap, &file[..bytes], lengths)
        }
        3 => read(run, scanner, other, &file[..bytes], ENOUGH),
        4 => read_former(rt, run, scanner, wrap),
        5 => {
            if run.dice.roll() % 4 == 0 {
                wipe(rt, run, scanner);
            }
        }
        _ => {}
    }
}

fn look_at(run: &mut Run, scanner: &Scanner) {
    if let Some(player) = &scanner.player {
        if let Some(key) = player.shown(&scanner.ring) {
            run.sum.add_all(&key);
        }
    }
    run.sum.add_all(&scanner.ring);
}

// What a scanner does with a file that was published just now.
fn follow<V: Wrap, W: Wrap>(
    rt: &impl Abort,
    run: &mut Run,
    scanner: &mut Scanner,
    wrap: &V,
    other: &W,
    file: &[u8; 6000],
    bytes: usize,
)
    requires { (0 < bytes) × (bytes ≤ 6000) }
{
    enrol_newcomer(run, scanner);
    fail_at_first(rt, run, scanner, wrap, other, file, bytes);
    read(run, scanner, wrap, &file[..bytes], ENOUGH);
    look_at(run, scanner);
}

// Publishes with random material, and all players read the file.
fn publish<S: Strategy, V: Wrap, W: Wrap>(
    rt: &impl Abort,
    run: &mut Run,
    scanners: &mut [Scanner; 13],
    strategy: &S,
    wrap: &V,
    other: &W,
) {
    let mut material = [0u8; 3000];
    for byte in &mut material {
        *byte = (run.dice.roll() % 256) as u8;
    }
    let nobody = Pair {
        opener: Opener::Present(0),
        content: 0,
    };
    let mut pairs = [nobody; 100];
    let mut file = [0u8; 6000];
    let mut work = [5u8; 512];
    let done = run.server.publish(strategy, wrap, &material, &mut pairs, &mut file, &mut work);
    let report = match done {
        Ok(report) => report,
        Err(fault) => {
            run.sum.add(usize::from(fault.number()));
            return;
        }
    };
    run.sum.add(report.epoch as usize);
    run.sum.add(report.wraps);
    run.sum.add(report.bytes);
    run.sum.add(report.drawn);
    run.sum.add_all(&run.server.group_key().unwrap_or([0; 32]));
    let bytes = report.bytes;
    assert!(rt; 0 < bytes && bytes <= 6000);
    for scanner in scanners {
        follow(rt, run, scanner, wrap, other, &file, bytes);
    }
    run.former = file;
    run.former_bytes = bytes;
}

fn publish_by_any(rt: &impl Abort, run: &mut Run, scanners: &mut [Scanner; 13]) {
    match run.dice.roll() % 6 {
        0 => publish(rt, run, scanners, &Star::default(), &KeyWrap, &Siv),
        1 => publish(rt, run, scanners, &Star::default(), &Siv, &KeyWrap),
        2 => publish(rt, run, scanners, &UserOriented::default(), &KeyWrap, &Siv),
        3 => publish(rt, run, scanners, &UserOriented::default(), &Siv, &KeyWrap),
        4 => publish(rt, run, scanners, &KeyOriented::default(), &KeyWrap, &Siv),
        _ => publish(rt, run, scanners, &KeyOriented::default(), &Siv, &KeyWrap),
    }
}

#[test]
fn a_long_run_is_as_in_the_model(rt: HostRuntime) {
    let rt = &rt;
    let mut run = Run {
        dice: Dice { state: 7 },
        sum: Sum { value: 0 },
        server: Server::new(),
        former: [0; 6000],
        former_bytes: 300,
    };
    let mut scanners: [Scanner; 13] = array::from_fn(|i| Scanner {
        serial: i as u32 + 1,
        player: None,
        ring: [0; 288],
    });
    for _ in 0..3300 {
        match run.dice.roll() % 32 {
            0..=13 => admit(&mut run),
            14..=22 => remove(&mut run),
            23 => run.server.drop_notes(),
            _ => publish_by_any(rt, &mut run, &mut scanners),
        }
    }
    assert_eq!(rt; run.server.epoch(), 318);
    assert_eq!(rt; run.sum.value, 7_617_325_337_743_262_573);
}
