//! Publishes 128 arrivals at once, and reads the file as the player of one of them, with each kind of
//! wrap. With a number of rounds as its argument it also reports the best time of each.
#![tactic(auto)]

mod rounds;

use anyhow::bail;
use kinds::{Kind, WrapJob};
use rounds::{Buffers, Round, play_round};
use std::env;
use std::time::Duration;
use wrap::Wrap;

// The best times of the rounds so far.
#[derive(Clone, Copy)]
struct Best {
    publishing: Duration,
    reading: Duration,
}

impl Best {
    fn of(round: &Round) -> Best {
        Best {
            publishing: round.publishing,
            reading: round.reading,
        }
    }

    fn better(self, round: &Round) -> Best {
        Best {
            publishing: self.publishing.min(round.publishing),
            reading: self.reading.min(round.reading),
        }
    }
}

fn show_kind<W: Wrap>(
    rt: &HostRuntime,
    wrap: &W,
    rounds: Option<u32>,
    buffers: &mut Buffers,
) -> anyhow::Result<()> {
    let first = play_round(rt, wrap, buffers)?;
    let kind = wrap.kind();
    let wraps = first.wraps;
    let bytes = first.bytes;
    println!(rt; "kind {kind} wraps {wraps} bytes {bytes}")?;
    println!(rt; "kind {kind}: the player holds the server's group key")?;
    let Some(rounds) = rounds else {
        return Ok(());
    };
    let mut best = Best::of(&first);
    for _ in 1..rounds {
        let next = play_round(rt, wrap, buffers)?;
        best = best.better(&next);
    }
    let publishing = best.publishing.as_micros();
    let reading = best.reading.as_micros();
    println!(rt;
        "kind {kind}: publishing {publishing} us, reading {reading} us, best of {rounds}"
    )?;
    Ok(())
}

// The rounds with the wrap of whichever kind is asked for.
#[derive(Drop)]
struct ShowKind<'a> {
    rt: &'a HostRuntime,
    rounds: Option<u32>,
    buffers: &'a mut Buffers,
}

impl WrapJob for ShowKind<'_> {
    type Output = anyhow::Result<()>;

    fn run<W: Wrap>(&mut self, wrap: &W) -> anyhow::Result<()> {
        show_kind(self.rt, wrap, self.rounds, self.buffers)
    }
}

// The number of rounds, if there is an argument.
fn rounds_of(arguments: &[String]) -> anyhow::Result<Option<u32>> {
    match arguments {
        [] => Ok(None),
        [word] => match word.parse::<u32>() {
            Ok(rounds) if rounds > 0 => Ok(Some(rounds)),
            _ => bail!("stopwatch: {word:?} is no number of rounds, which is 1 or more"),
        },
        _ => bail!("stopwatch: at most one argument wanted, the number of rounds"),
    }
}

fn run(rt: &HostRuntime) -> anyhow::Result<()> {
    let heap = rt.alloc();
    let arguments: Vec<String> = env::args(rt)?.skip(1).collect(heap)?;
    let rounds = rounds_of(arguments.as_slice())?;
    let mut buffers = Buffers::new(heap)?;
    let mut job = ShowKind {
        rt,
        rounds,
        buffers: &mut buffers,
    };
    Kind::Rfc3394.run(&mut job)?;
    Kind::Rfc5297.run(&mut job)
}

fn main(rt: HostRuntime) -> anyhow::Result<()> {
    run(&rt)
}
