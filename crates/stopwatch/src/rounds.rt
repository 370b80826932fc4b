//! One round: a new server, 128 arrivals, a publishing, and a player's read.

use anyhow::anyhow;
use player::{RING_BYTES, enrol};
use server::{CARD_BYTES, Server};
use std::alloc::{AllocError, Global};
use std::time::{Duration, Instant};
use strategies::Star;
use tree::{CRADLES, MOST_PAIRS, Opener, Pair};
use wrap::{WORKING_BYTES, Wrap};

// A key of 32 bytes for each leaf, and for each node above the leaves.
const MATERIAL_BYTES: usize = 32 * (2 * CRADLES - 1);

// As many bytes as a file of these wraps has at most.
const FILE_BYTES: usize = 48_521;

// The scanner whose player reads.
const READER: u32 = 77;

/// What is lent to each publishing.
#[derive(Drop)]
pub(crate) struct Buffers {
    material: Vec<u8>,
    pairs: Vec<Pair>,
    file: Vec<u8>,
}

impl Buffers {
    /// The material counts upwards: this is a measurement, and its keys guard nothing.
    pub(crate) fn new(heap: Global) -> Result<Buffers, AllocError> {
        let mut material = vec![in heap; 0; MATERIAL_BYTES]?;
        let mut next: u8 = 0;
        for byte in material.iter_mut() {
            *byte = next;
            next = next.wrapping_add(1);
        }
        let unused = Pair {
            opener: Opener::Present(1),
            content: 1,
        };
        Ok(Buffers {
            material,
            pairs: vec![in heap; unused; MOST_PAIRS]?,
            file: vec![in heap; 0; FILE_BYTES]?,
        })
    }
}

/// What a round came to.
#[derive(Clone, Copy)]
pub(crate) struct Round {
    pub(crate) wraps: usize,
    pub(crate) bytes: usize,
    pub(crate) publishing: Duration,
    pub(crate) reading: Duration,
}

// A scanner for each cradle, and of the same number.
fn full_server() -> anyhow::Result<Server> {
    let mut server = Server::new();
    for cradle in 1..=CRADLES as u32 {
        if let Err(fault) = server.admit(cradle, cradle) {
            return Err(anyhow!("admit {cradle}: no {}", fault.number()));
        }
    }
    Ok(server)
}

// How long the player of the reader took to read the file, and the group key that it then holds.
fn read_file<W: Wrap>(
    rt: &HostRuntime,
    server: &Server,
    wrap: &W,
    file: &[u8],
) -> anyhow::Result<(Duration, [u8; 32])> {
    let mut card = [0; CARD_BYTES];
    if let Err(fault) = server.card(READER, &mut card) {
        return Err(anyhow!("card: no {}", fault.number()));
    }
    let mut ring = [0; RING_BYTES];
    let mut work = [0; WORKING_BYTES];
    let player = match enrol(&card, &mut ring) {
        Ok(player) => player,
        Err(fault) => return Err(anyhow!("enrol: no {}", fault.number())),
    };
    let start = Instant::now(rt)?;
    let answer = player.read(wrap, file, &mut ring, &mut work);
    let reading = start.elapsed(rt)?;
    match answer {
        Ok(seated) => match seated.show(&ring) {
            Ok(key) => Ok((reading, key)),
            Err(fault) => Err(anyhow!("show: no {}", fault.number())),
        },
        Err(refused) => Err(anyhow!("read: no {}", refused.fault.number())),
    }
}

/// Publishes and reads once. It fails too where the player does not hold the server's group key afterwards.
pub(crate) fn play_round<W: Wrap>(
    rt: &HostRuntime,
    wrap: &W,
    buffers: &mut Buffers,
) -> anyhow::Result<Round> {
    let mut server = full_server()?;
    let mut work = [0; WORKING_BYTES];
    let start = Instant::now(rt)?;
    let answer = server.publish(
        &Star::default(),
        wrap,
        buffers.material.as_slice(),
        buffers.pairs.as_mut_slice(),
        buffers.file.as_mut_slice(),
        &mut work,
    );
    let publishing = start.elapsed(rt)?;
    match answer {
        Ok(report) => {
            let bytes = report.bytes;
            let file = &buffers.file.as_slice()[..bytes];
            let (reading, key) = read_file(rt, &server, wrap, file)?;
            if Some(key) != server.group_key() {
                return Err(anyhow!("the player does not hold the server's group key"));
            }
            Ok(Round {
                wraps: report.wraps,
                bytes,
                publishing,
                reading,
            })
        }
        Err(fault) => Err(anyhow!("publish: no {}", fault.number())),
    }
}
