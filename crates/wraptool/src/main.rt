//! Answers lines of standard input: AES, AES-CMAC, AES-SIV, and sealing and opening a key.
#![tactic(auto)]

mod commands;
mod fault;
mod hex;

use commands::carry_out;
use fault::Fault;
use hex::HexDigits;
use std::alloc::Global;
use std::io::{BufRead, BufReader};

// The bytes that answer a line; `None` if it has no word.
fn answer_line(heap: Global, line: &[u8]) -> Result<Option<Vec<u8>>, Fault> {
    let Ok(text) = std::str::from_utf8(line) else {
        return Err(Fault::NotText);
    };
    let words: Vec<&str> = text.split_ascii_whitespace().collect(heap)?;
    match words.as_slice() {
        [] => Ok(None),
        [command, parts @ ..] => Ok(Some(carry_out(heap, command, parts)?)),
    }
}

fn run(rt: &HostRuntime) -> anyhow::Result<()> {
    let heap = rt.alloc();
    let lines = BufReader::new(heap, rt.stdin())?.split(heap, b'\n');
    for (i, line) in lines.enumerate() {
        match answer_line(heap, line?.as_slice()) {
            Ok(None) => {}
            Ok(Some(bytes)) => {
                let digits = HexDigits(bytes.as_slice());
                println!(rt; "{digits}")?;
            }
            Err(refused @ Fault::Refused(_)) => println!(rt; "{refused}")?,
            Err(bad) => println!(rt; "bad line {}: {bad}", i + 1)?,
        }
    }
    Ok(())
}

fn main(rt: HostRuntime) -> anyhow::Result<()> {
    run(&rt)
}
