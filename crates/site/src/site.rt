//! A site: its server, the boards that ever were enrolled there, and its files.
ghost use Rattle.std.specs.Prelude.{◌≡◌, ◌≤◌, length, take, IfOk, MatchResult};
ghost use Rattle.site.specs.Sites.{IsAtWork, KeepsFiles, AddsFile};

use crate::board::ScannerBoard;
use crate::reports;
use server::{CARD_BYTES, PublishFault, Server};
use server_rules::PublishReport;
use std::{io, mem};
use tree::{MOST_PAIRS, Opener, Pair, Strategy};
use wrap::{WORKING_BYTES, Wrap};

// The most bytes of a file here: 137 of head, nodes and count, and 896 wraps of 54.
const FILE_BYTES: usize = 48_521;

// The scanners of this program.
const SERIALS: [u16; 6] = [1001, 1002, 1003, 1004, 1005, 1006];

// Publishes with buffers of its own for the plan and the work.
fn publish_into<S: Strategy, W: Wrap>(
    server: &mut Server,
    strategy: &S,
    wrap: &W,
    material: &[u8],
    file: &mut Vec<u8>,
) -> Result<PublishReport, PublishFault>
    ensures drawn { IfOk result (λ published. published.drawn ≤ length material.now) }
    ensures files { MatchResult result
        (λ published. AddsFile server.old server.new (take published.bytes file.new.items))
        (λ fault. KeepsFiles server.old server.new) }
{
    let unused = Pair {
        opener: Opener::Present(1),
        content: 1,
    };
    let mut pairs = [unused; MOST_PAIRS];
    let mut work = [0; WORKING_BYTES];
    server.publish(strategy, wrap, material, &mut pairs, file, &mut work)
}

// Keeps the front of a buffer as the newest file, and what was the newest as the former.
fn keep(file: &mut Vec<u8>, former: &mut Vec<u8>, mut newest: Vec<u8>, bytes: usize)
    ensures file { file.new.items ≡ take bytes newest.items }
    ensures former { former.new.items ≡ file.old.items }
{
    newest.truncate(bytes);
    *former = mem::replace(file, newest);
}

/// A site at work.
#[derive(Drop)]
pub(crate) struct Site {
    server: Server,
    boards: Vec<ScannerBoard>,
    // The newest file, and the one before it.
    file: Vec<u8>,
    former: Vec<u8>,
    // The server comes from calls, and these are the newest files of those calls.
    ghost at_work: { ∥ IsAtWork server file.items former.items ∥₁ },
}

impl Site {
    pub(crate) fn new(rt: &HostRuntime) -> Site {
        Site {
            server: Server::new(),
            boards: Vec::new(rt.alloc()),
            file: Vec::new(rt.alloc()),
            former: Vec::new(rt.alloc()),
        }
    }

    pub(crate) fn admit(&mut self, rt: &HostRuntime, serial: u32, cradle: u32) -> io::Result<()> {
        print!(rt; "admit {serial} at {cradle}: ")?;
        match self.server.admit(serial, cradle) {
            Ok(()) => println!(rt; "noted"),
            Err(fault) => reports::admit_fault(rt, fault),
        }
    }

    pub(crate) fn remove(&mut self, rt: &HostRuntime, serial: u32) -> io::Result<()> {
        print!(rt; "remove {serial}: ")?;
        match self.server.remove(serial) {
            Ok(()) => println!(rt; "noted"),
            Err(fault) => println!(rt; "no {}", fault.number()),
        }
    }

    pub(crate) fn drop_notes(&mut self, rt: &HostRuntime) -> io::Result<()> {
        self.server.drop_notes();
        println!(rt; "drop: notes cleared")
    }

    /// Publishes, and hands the file to all boards.
    pub(crate) fn publish<S: Strategy, W: Wrap>(
        &mut self,
        rt: &HostRuntime,
        strategy: &S,
        wrap: &W,
        material: &mut &[u8],
    ) -> io::Result<()> {
        let newest = vec![in rt.alloc(); 0; FILE_BYTES]?;
        if self.change(rt, strategy, wrap, material, newest)? {
            self.enrol(rt, wrap)?;
            self.hand_out(rt, wrap)?;
        }
        Ok(())
    }

    /// Wipes the boards of a scanner.
    pub(crate) fn wipe(&mut self, rt: &HostRuntime, serial: u16) -> io::Result<()> {
        for board in self.boards.iter_mut() {
            if board.serial() == serial {
                board.wipe();
                if board.is_wiped() {
                    println!(rt; "wipe {serial}: zeros")?;
                }
            }
        }
        Ok(())
    }

    /// Tries the newest newcomer's card with a wrong leaf and with a wrong key, and the newest file without its last byte.
    pub(crate) fn try_spoilt<W: Wrap>(&self, rt: &HostRuntime, wrap: &W) -> io::Result<()> {
        let Some(newest) = self.boards.last() else {
            return Ok(());
        };
        let mut card = newest.card;
        card[2] = 0;
        if let Err(fault) = ScannerBoard::enrol(card) {
            print!(rt; "a card with leaf 0: ")?;
            reports::enrol_fault(rt, fault)?;
        }
        let mut card = newest.card;
        card[CARD_BYTES - 1] ^= 1;
        match ScannerBoard::enrol(card) {
            Ok(board) => self.try_board(rt, wrap, board),
            Err(fault) => reports::enrol_fault(rt, fault),
        }
    }

    fn try_board<W: Wrap>(
        &self,
        rt: &HostRuntime,
        wrap: &W,
        mut board: ScannerBoard,
    ) -> io::Result<()> {
        if let Some((_, cut)) = self.file.as_slice().split_last() {
            if let Some(fault) = board.read(wrap, cut) {
                print!(rt; "a file without its last byte: ")?;
                reports::read_fault(rt, fault)?;
            }
        }
        if let Some(fault) = board.read(wrap, self.file.as_slice()) {
            print!(rt; "a card with a wrong key: ")?;
            reports::read_fault(rt, fault)?;
        }
        Ok(())
    }

    // Publishes; whether that was not refused. The room for the file is there before: what is published
    // is kept, whatever fails.
    fn change<S: Strategy, W: Wrap>(
        &mut self,
        rt: &HostRuntime,
        strategy: &S,
        wrap: &W,
        material: &mut &[u8],
        mut newest: Vec<u8>,
    ) -> io::Result<bool> {
        print!(rt; "publish: ")?;
        match publish_into(&mut self.server, strategy, wrap, *material, &mut newest) {
            Ok(published) => {
                *material = &material[published.drawn..];
                keep(&mut self.file, &mut self.former, newest, published.bytes);
                reports::published(rt, published)?;
                Ok(true)
            }
            Err(fault) => {
                reports::publish_fault(rt, fault)?;
                Ok(false)
            }
        }
    }

    // Enrols a board with each card that no board is enrolled with. A newcomer tries the file before its own.
    fn enrol<W: Wrap>(&mut self, rt: &HostRuntime, wrap: &W) -> io::Result<()> {
        let mut card = [0; CARD_BYTES];
        for serial in SERIALS {
            if self.server.card(u32::from(serial), &mut card).is_ok()
                && !self.boards.iter().any(|b| b.card == card)
            {
                match ScannerBoard::enrol(card) {
                    Ok(mut board) => {
                        reports::card(rt, &card)?;
                        self.try_former(rt, wrap, &mut board)?;
                        self.boards.push(board)?;
                    }
                    Err(fault) => reports::enrol_fault(rt, fault)?,
                }
            }
        }
        Ok(())
    }

    fn try_former<W: Wrap>(
        &self,
        rt: &HostRuntime,
        wrap: &W,
        board: &mut ScannerBoard,
    ) -> io::Result<()> {
        if self.former.is_empty() {
            return Ok(());
        }
        match board.read(wrap, self.former.as_slice()) {
            Some(fault) => {
                print!(rt; "{} reads the file before: ", board.serial())?;
                reports::read_fault(rt, fault)
            }
            None => Ok(()),
        }
    }

    // All boards read the newest file.
    fn hand_out<W: Wrap>(&mut self, rt: &HostRuntime, wrap: &W) -> io::Result<()> {
        let epoch = self.server.epoch();
        for board in self.boards.iter_mut() {
            if let Some(fault) = board.read(wrap, self.file.as_slice()) {
                print!(rt;
                    "{} of epoch {} reads the file of epoch {epoch}: ",
                    board.serial(),
                    board.first_epoch()
                )?;
                reports::read_fault(rt, fault)?;
            }
        }
        let (holders, members) = count(&self.server, self.boards.as_slice());
        println!(rt; "{holders} of {members} members hold the group key of epoch {epoch}")
    }
}

// Whether the board's card is that of a scanner that is in a cradle now.
fn is_member(server: &Server, board: &ScannerBoard) -> bool {
    let mut card = [0; CARD_BYTES];
    server.card(u32::from(board.serial()), &mut card).is_ok() && card == board.card
}

// How many members hold the server's group key, and how many members there are.
fn count(server: &Server, boards: &[ScannerBoard]) -> (usize, usize) {
    let key = server.group_key();
    let members = boards.iter().filter(|board| is_member(server, board));
    let holders = boards.iter().filter(|board| is_member(server, board)
        && board.group_key() == key);
    (holders.count(), members.count())
}
