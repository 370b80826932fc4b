//! Runs sites from the making of their servers to the last file, one under each strategy and wrap, and
//! prints what came of each call. The key material is read from standard input.
#![tactic(auto)]

mod board;
mod reports;
mod site;

use kinds::{Kind, WrapJob};
use site::Site;
use std::io::{self, Read};
use strategies::{KeyOriented, Star, UserOriented};
use tree::Strategy;
use wrap::Wrap;

// Scanners arrive, one is removed, one comes back from repair as a newcomer, and at last all are gone.
fn story<S: Strategy, W: Wrap>(
    rt: &HostRuntime,
    name: &str,
    strategy: &S,
    wrap: &W,
    material: &mut &[u8],
) -> io::Result<()> {
    let kind = wrap.kind();
    println!(rt; "site {name} {kind}")?;
    let mut site = Site::new(rt);
    site.admit(rt, 1001, 1)?;
    site.publish(rt, strategy, wrap, material)?;
    site.admit(rt, 1002, 2)?;
    site.admit(rt, 1003, 3)?;
    site.admit(rt, 1004, 128)?;
    site.publish(rt, strategy, wrap, material)?;
    site.remove(rt, 1002)?;
    site.publish(rt, strategy, wrap, material)?;
    site.remove(rt, 1001)?;
    site.admit(rt, 1001, 64)?;
    site.admit(rt, 1005, 2)?;
    site.publish(rt, strategy, wrap, material)?;
    site.try_spoilt(rt, wrap)?;
    site.admit(rt, 1006, 129)?;
    site.admit(rt, 1005, 4)?;
    site.admit(rt, 1006, 2)?;
    site.remove(rt, 1002)?;
    site.admit(rt, 1006, 5)?;
    site.drop_notes(rt)?;
    site.remove(rt, 1003)?;
    site.remove(rt, 1003)?;
    site.publish(rt, strategy, wrap, material)?;
    site.wipe(rt, 1003)?;
    site.remove(rt, 1001)?;
    site.remove(rt, 1004)?;
    site.remove(rt, 1005)?;
    site.publish(rt, strategy, wrap, material)?;
    site.publish(rt, strategy, wrap, material)
}

// The story under one strategy, with the wrap of whichever kind is asked for.
#[derive(Clone, Copy)]
struct PlayStory<'a, 'm, S> {
    rt: &'a HostRuntime,
    name: &'a str,
    strategy: &'a S,
    // What is left of the key material.
    material: &'m [u8],
}

impl<S: Strategy> WrapJob for PlayStory<'_, '_, S> {
    type Output = io::Result<()>;

    fn run<W: Wrap>(&mut self, wrap: &W) -> io::Result<()> {
        story(self.rt, self.name, self.strategy, wrap, &mut self.material)
    }
}

// The story under one strategy, with each wrap.
fn stories<S: Strategy>(
    rt: &HostRuntime,
    name: &str,
    strategy: &S,
    material: &mut &[u8],
) -> io::Result<()> {
    let mut job = PlayStory {
        rt,
        name,
        strategy,
        material: *material,
    };
    Kind::Rfc3394.run(&mut job)?;
    Kind::Rfc5297.run(&mut job)?;
    *material = job.material;
    Ok(())
}

fn run(rt: &HostRuntime) -> anyhow::Result<()> {
    let mut input = Vec::new(rt.alloc());
    rt.stdin().read_to_end(&mut input)?;
    let mut material = input.as_slice();
    stories(rt, "star", &Star::default(), &mut material)?;
    stories(rt, "user-oriented", &UserOriented::default(), &mut material)?;
    stories(rt, "key-oriented", &KeyOriented::default(), &mut material)?;
    Ok(())
}

fn main(rt: HostRuntime) -> anyhow::Result<()> {
    run(&rt)
}
