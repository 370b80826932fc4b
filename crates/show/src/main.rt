//! Shows what stands in a rekey file, or where its first fault is.
#![tactic(auto)]

use file_reader::{FileWrap, RekeyFile};
use kinds::{Kind, WrapJob};
use layout::check;
use std::io::Read;
use std::{env, io};
use wrap::Wrap;

fn show_nodes(rt: &HostRuntime, nodes: &[u8]) -> io::Result<()> {
    print!(rt; "nodes")?;
    for node in nodes {
        print!(rt; " {node}")?;
    }
    println!(rt; "")
}

fn show_wrap(rt: &HostRuntime, wrap: FileWrap<'_>) -> io::Result<()> {
    let index = wrap.index;
    let place = wrap.place;
    let opener = wrap.opener.node;
    let epoch = wrap.opener.epoch;
    let content = wrap.content.node;
    println!(rt; "wrap {index} at {place} opener {opener} epoch {epoch} content {content}")
}

fn show_file<W: Wrap>(rt: &HostRuntime, wrap: &W, bytes: &[u8]) -> io::Result<()> {
    if let Err(fault) = check(wrap, bytes) {
        let number = fault.number();
        let place = fault.place;
        return println!(rt; "no {number} {place}");
    }
    let file = RekeyFile::over(wrap, bytes);
    let kind = file.kind();
    let epoch = file.epoch();
    let nodes = file.nodes().len();
    let wraps = file.wrap_count();
    let size = bytes.len();
    println!(rt; "kind {kind} epoch {epoch} nodes {nodes} wraps {wraps} bytes {size}")?;
    show_nodes(rt, file.nodes())?;
    for wrap in file.wraps() {
        show_wrap(rt, wrap)?;
    }
    Ok(())
}

// A file to be shown with the wrap of whichever kind is asked for.
#[derive(Clone, Copy)]
struct ShowFile<'a> {
    rt: &'a HostRuntime,
    bytes: &'a [u8],
}

impl WrapJob for ShowFile<'_> {
    type Output = io::Result<()>;

    fn run<W: Wrap>(&mut self, wrap: &W) -> io::Result<()> {
        show_file(self.rt, wrap, self.bytes)
    }
}

// The kind that the one argument names.
fn kind_of(arguments: &[String]) -> Option<Kind> {
    match arguments {
        [word] => word.parse().ok(),
        _ => None,
    }
}

fn run(rt: &HostRuntime) -> anyhow::Result<()> {
    let heap = rt.alloc();
    let arguments: Vec<String> = env::args(rt)?.skip(1).collect(heap)?;
    let Some(kind) = kind_of(arguments.as_slice()) else {
        println!(rt; "show: one argument wanted, the kind of the wraps: 1 or 2")?;
        return Ok(());
    };
    let mut bytes = Vec::new(heap);
    rt.stdin().read_to_end(&mut bytes)?;
    let mut job = ShowFile {
        rt,
        bytes: bytes.as_slice(),
    };
    kind.run(&mut job)?;
    Ok(())
}

fn main(rt: HostRuntime) -> anyhow::Result<()> {
    run(&rt)
}
