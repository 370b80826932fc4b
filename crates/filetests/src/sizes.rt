//! The files of real plans: how long they are, and that the reader takes them.
use file_writer::Change;
use keys::NodeKey;
use kw::KeyWrap;
use layout::check;
use siv::Siv;
use std::process::Abort;
use strategies::{KeyOriented, Star};
use tree::{Board, Code, Opener, Pair, Strategy};
use wrap::Wrap;

fn table(made: u32, key: [u8; 32]) -> [NodeKey; 256] {
    [NodeKey { made, key }; 256]
}

// How many bytes the file of the strategy's plan has, once it was written and checked.
fn written_size<S: Strategy, W: Wrap>(
    rt: &impl Abort,
    strategy: &S,
    wrap: &W,
    row: &[Code; 128],
) -> usize {
    let board = Board::new(row);
    let mut nodes = [0u8; 127];
    let mut changed = 0;
    for n in (1..128u8).rev().filter(|n| board.is_changed(*n)) {
        assert!(rt; changed < 127);
        nodes[changed] = n;
        changed += 1;
    }
    let nobody = Pair {
        opener: Opener::Present(0),
        content: 0,
    };
    let mut pairs = [nobody; 896];
    let planned = strategy.plan(row, &mut pairs);
    assert!(rt; planned.is_ok());
    let count = planned.unwrap_or(0);
    assert!(rt; count <= 896 && changed <= 127);
    let former = table(4, [4; 32]);
    let present = table(5, [5; 32]);
    let change = Change {
        epoch: 5,
        nodes: &nodes[..changed],
        plan: &pairs[..count],
        former: &former,
        present: &present,
    };
    let mut file = [0u8; 48_521];
    let mut work = [0u8; 512];
    let written = change.write(wrap, &mut file, &mut work);
    assert!(rt; written.is_ok());
    let size = written.unwrap_or(0);
    assert!(rt; size <= 48_521);
    assert!(rt; check(wrap, &file[..size]).is_ok());
    size
}

#[test]
fn files_of_known_plans(rt: HostRuntime) {
    let rt = &rt;
    let key_oriented = KeyOriented::default();
    let mut row = [Code::Empty; 128];
    row[0] = Code::Arrives;
    assert_eq!(rt; written_size(rt, &key_oriented, &KeyWrap, &row), 339);
    row[0] = Code::Stays;
    row[1] = Code::Arrives;
    assert_eq!(rt; written_size(rt, &key_oriented, &KeyWrap, &row), 661);
    row[0] = Code::Departs;
    row[1] = Code::Stays;
    assert_eq!(rt; written_size(rt, &key_oriented, &KeyWrap, &row), 339);
    row[1] = Code::Empty;
    assert_eq!(rt; written_size(rt, &key_oriented, &KeyWrap, &row), 17);
    let all = [Code::Arrives; 128];
    assert_eq!(rt; written_size(rt, &Star::default(), &Siv, &all), 48_521);
}
