//! A server under test: what can be seen of it, and a publishing into buffers with room.
use file_reader::RekeyFile;
use layout::check;
use server::{CARD_BYTES, Server};
use server_rules::PublishReport;
use std::array;
use std::process::Abort;
use tree::{Opener, Pair, Strategy};
use wrap::Wrap;

/// How many bytes the file buffers of these tests have.
pub(crate) const ROOM: usize = 1000;

/// A byte of a file buffer that was not written.
pub(crate) const BLANK: u8 = 0xEE;

/// A pair that no plan has.
pub(crate) const NO_PAIR: Pair = Pair {
    opener: Opener::Present(0),
    content: 0,
};

/// The material of the publishing that begins an epoch.
pub(crate) fn material(epoch: u8) -> [u8; 1024] {
    array::from_fn(|i| ((7 * i + 3 * usize::from(epoch)) % 251) as u8)
}

/// What a publishing reports.
pub(crate) fn report(epoch: u32, wraps: usize, bytes: usize, drawn: usize) -> PublishReport {
    PublishReport {
        epoch,
        wraps,
        bytes,
        drawn,
    }
}

/// The card of a scanner; nothing where there is none.
pub(crate) fn card(server: &Server, serial: u32) -> Option<[u8; CARD_BYTES]> {
    let mut card = [0u8; CARD_BYTES];
    server.card(serial, &mut card).ok()?;
    Some(card)
}

/// What can be seen of a server: epoch, group key, and the cards of the serials 1 to 4 and 9,999.
#[derive(Clone, Copy, PartialEq, Eq)]
pub(crate) struct View {
    epoch: u32,
    group_key: Option<[u8; 32]>,
    cards: [Option<[u8; CARD_BYTES]>; 5],
}

pub(crate) fn view_of(server: &Server) -> View {
    View {
        epoch: server.epoch(),
        group_key: server.group_key(),
        cards: [1, 2, 3, 4, 9_999].map(|serial| card(server, serial)),
    }
}

/// The leaf and the first epoch of a scanner's stay, as its card has them.
pub(crate) fn stay(server: &Server, serial: u32) -> Option<(u8, u32)> {
    let card = card(server, serial)?;
    let [_, _, leaf, a, b, c, d, ..] = card;
    Some((leaf, u32::from_be_bytes([a, b, c, d])))
}

/// Publishes, looks at all that a publishing leaves, and answers the file's buffer: the file, and then blank bytes.
pub(crate) fn publish<S: Strategy, W: Wrap>(
    rt: &impl Abort,
    server: &mut Server,
    strategy: &S,
    wrap: &W,
    want: PublishReport,
) -> [u8; ROOM] {
    assert!(rt; want.epoch <= 9 && want.wraps <= 32 && want.bytes <= ROOM);
    assert!(rt; 32 <= want.drawn && want.drawn <= 1024);
    let material = material(want.epoch as u8);
    let mut pairs = [NO_PAIR; 32];
    let mut file = [BLANK; ROOM];
    let mut work = [5u8; 600];
    let done = server.publish(strategy, wrap, &material, &mut pairs, &mut file, &mut work);
    assert_eq!(rt; done, Ok(want));
    assert!(rt; work == [0; 600]);
    assert!(rt; pairs.iter().take(want.wraps).all(|pair| *pair != NO_PAIR));
    assert!(rt; pairs.iter().skip(want.wraps).all(|pair| *pair == NO_PAIR));
    assert!(rt; file.iter().skip(want.bytes).all(|byte| *byte == BLANK));
    assert_eq!(rt; server.epoch(), want.epoch);
    let drawn_last = &material[want.drawn - 32..want.drawn];
    assert!(rt;
        server
            .group_key()
            .is_some_and(|key| drawn_last.starts_with(&key))
    );
    let Ok(()) = check(wrap, &file[..want.bytes]) else {
        assert!(rt; false, "the file is refused");
        return file;
    };
    let read = RekeyFile::over(wrap, &file[..want.bytes]);
    assert_eq!(rt; read.epoch(), want.epoch);
    assert_eq!(rt; read.wrap_count(), want.wraps);
    file
}
