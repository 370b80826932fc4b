//! The board in a scanner: its card, its player and its ring.
ghost use Rattle.std.specs.Prelude.{◌≡◌, IfOk};
ghost use Rattle.player_rules.specs.Players.{read, wipe, player_after, ring_after};
ghost use Rattle.player.specs.Stored.{player_of};
ghost use Rattle.site.specs.Boards.{IsOnCourse, HasPlayerOnCourse, StaysOnCourse};

use player::{AnyPlayer, CARD_BYTES, EnrolFault, RING_BYTES, ReadFault, Refused, enrol};
use wrap::{WORKING_BYTES, Wrap};

// Enrols a player with the card.
fn enrol_any(card: &[u8], ring: &mut [u8]) -> Result<AnyPlayer, EnrolFault>
    ensures { IfOk result (λ p. ∥ IsOnCourse card.now (player_of p) ring.new ∥₁) }
{
    let player = enrol(card, ring)?;
    Ok(AnyPlayer::from(player))
}

// Reads a file by a player in any state. A wiped one reads none, and meets no fault.
fn read<W: Wrap>(
    player: AnyPlayer,
    wrap: &W,
    file: &[u8],
    ring: &mut [u8],
    work: &mut [u8],
) -> (AnyPlayer, Option<ReadFault>)
    ensures player { player_of result.0
        ≡ player_after (read W.meaning file.now work.old)
        (player_of player) ring.old }
    ensures ring { ring.new
        ≡ ring_after (read W.meaning file.now work.old)
        (player_of player) ring.old }
{
    match player {
        AnyPlayer::Waiting(player) => match player.read(wrap, file, ring, work) {
            Ok(seated) => (AnyPlayer::from(seated), None),
            Err(Refused { player, fault }) => (AnyPlayer::from(player), Some(fault)),
        },
        AnyPlayer::Seated(player) => match player.read(wrap, file, ring, work) {
            Ok(seated) => (AnyPlayer::from(seated), None),
            Err(Refused { player, fault }) => (AnyPlayer::from(player), Some(fault)),
        },
        AnyPlayer::Wiped(player) => (AnyPlayer::from(player), None),
    }
}

// A read with working bytes of its own.
fn read_once<W: Wrap>(
    player: AnyPlayer,
    wrap: &W,
    file: &[u8],
    ring: &mut [u8],
) -> (AnyPlayer, Option<ReadFault>)
    ensures { StaysOnCourse (player_of player) ring.old (player_of result.0) ring.new }
{
    let mut work = [0; WORKING_BYTES];
    read(player, wrap, file, ring, &mut work)
}

// Wipes by a player in any state. The ring of a board has 288 bytes, so no wiping is refused.
fn wipe(player: AnyPlayer, ring: &mut [u8]) -> AnyPlayer
    ensures player { player_of result ≡ player_after wipe (player_of player) ring.old }
    ensures ring { ring.new ≡ ring_after wipe (player_of player) ring.old }
{
    match player {
        AnyPlayer::Waiting(player) => match player.wipe(ring) {
            Ok(wiped) => AnyPlayer::from(wiped),
            Err(refused) => AnyPlayer::from(refused.player),
        },
        AnyPlayer::Seated(player) => match player.wipe(ring) {
            Ok(wiped) => AnyPlayer::from(wiped),
            Err(refused) => AnyPlayer::from(refused.player),
        },
        AnyPlayer::Wiped(player) => AnyPlayer::from(player),
    }
}

/// The board in a scanner, enrolled with one card.
#[derive(Drop)]
pub(crate) struct ScannerBoard {
    pub(crate) card: [u8; CARD_BYTES],
    ring: [u8; RING_BYTES],
    // `None` only while a call moves it.
    player: Option<AnyPlayer>,
    // It was enrolled with the card, and its own calls alone wrote the ring.
    ghost on_course: { ∥ HasPlayerOnCourse card player ring ∥₁ },
}

impl ScannerBoard {
    /// A board whose player is enrolled with the card.
    pub(crate) fn enrol(card: [u8; CARD_BYTES]) -> Result<ScannerBoard, EnrolFault> {
        let mut ring = [0; RING_BYTES];
        let player = enrol_any(&card, &mut ring)?;
        Ok(ScannerBoard {
            card,
            ring,
            player: Some(player),
        })
    }

    /// The serial on its card.
    pub(crate) fn serial(&self) -> u16 {
        u16::from_be_bytes([self.card[0], self.card[1]])
    }

    /// The epoch on its card, which is that of its first file.
    pub(crate) fn first_epoch(&self) -> u32 {
        u32::from_be_bytes([self.card[3], self.card[4], self.card[5], self.card[6]])
    }

    /// Reads a file, if it is not wiped.
    pub(crate) fn read<W: Wrap>(&mut self, wrap: &W, file: &[u8]) -> Option<ReadFault> {
        let Some(player) = self.player.take() else {
            unreachable!()
        };
        let (player, fault) = read_once(player, wrap, file, &mut self.ring);
        self.player = Some(player);
        fault
    }

    /// The group key in its ring; `None` where its player is not seated.
    pub(crate) fn group_key(&self) -> Option<[u8; 32]> {
        match &self.player {
            Some(AnyPlayer::Seated(player)) => player.show(&self.ring).ok(),
            _ => None,
        }
    }

    /// Wipes its ring.
    pub(crate) fn wipe(&mut self) {
        let Some(player) = self.player.take() else {
            unreachable!()
        };
        self.player = Some(wipe(player, &mut self.ring));
    }

    /// Whether its ring is zeros.
    pub(crate) fn is_wiped(&self) -> bool {
        self.ring.iter().all(|b| *b == 0)
    }
}
