//! Answers lines of a strategy and a row of codes with the strategy's plan.
#![tactic(auto)]

ghost use Rattle.std.specs.Prelude.{◌≡◌, ◌≤◌, ◌++◌, length, drop};

mod bad;
mod lines;

use lines::{Choice, Request, read_line};
use std::io::{self, BufRead, BufReader};
use strategies::{KeyOriented, Star, UserOriented};
use tree::{Board, Code, MOST_PAIRS, Opener, Pair, Strategy};

// A lawful plan has at most `MOST_PAIRS` pairs, so there is room for it.
fn plan_in_full<S: Strategy>(
    strategy: &S,
    row: &[Code; 128],
    pairs: &mut [Pair; MOST_PAIRS],
) -> usize
    ensures count { result ≡ length (S.Strategy.meaning row.now) }
    ensures room { result ≤ MOST_PAIRS }
    ensures written { pairs.new ≡ S.Strategy.meaning row.now ++ drop result pairs.old }
{
    match strategy.plan(row, pairs) {
        Ok(count) => count,
        Err(_) => unreachable!(),
    }
}

fn show_pair(rt: &HostRuntime, pair: Pair) -> io::Result<()> {
    let content = pair.content;
    match pair.opener {
        Opener::Present(node) => println!(rt; "present {node} content {content}"),
        Opener::Former(node) => println!(rt; "former {node} content {content}"),
    }
}

fn show_plan<S: Strategy>(rt: &HostRuntime, strategy: &S, row: &[Code; 128]) -> io::Result<()> {
    let mut pairs = [Pair {
        opener: Opener::Present(1),
        content: 1,
    }; MOST_PAIRS];
    // The pairs and their number: a strategy writes into lent room.
    let count = plan_in_full(strategy, row, &mut pairs);
    let changed = Board::new(row).changed_count();
    println!(rt; "changed {changed} pairs {count}")?;
    for pair in &pairs[..count] {
        show_pair(rt, *pair)?;
    }
    Ok(())
}

fn answer(rt: &HostRuntime, request: &Request) -> io::Result<()> {
    // There are these three strategies to ask for, so a match is plainest.
    match request.choice {
        Choice::Star => show_plan(rt, &Star::default(), &request.row),
        Choice::UserOriented => show_plan(rt, &UserOriented::default(), &request.row),
        Choice::KeyOriented => show_plan(rt, &KeyOriented::default(), &request.row),
    }
}

fn run(rt: &HostRuntime) -> anyhow::Result<()> {
    let heap = rt.alloc();
    let lines = BufReader::new(heap, rt.stdin())?.split(heap, b'\n');
    for (i, line) in lines.enumerate() {
        match read_line(line?.as_slice()) {
            Ok(None) => {}
            Ok(Some(request)) => answer(rt, &request)?,
            Err(bad) => println!(rt; "bad line {}: {bad}", i + 1)?,
        }
    }
    Ok(())
}

fn main(rt: HostRuntime) -> anyhow::Result<()> {
    run(&rt)
}
