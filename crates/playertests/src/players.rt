//! A player under test.
use file_reader::FileFault;
use layout::LayoutFault;
use player::{AnyPlayer, ReadFault, Seated, enrol};
use std::process::Abort;
use wrap::{Wrap, WrapFault};

/// The calls of a player in any state, as the tests make them.
pub(crate) trait Calls: Sized {
    fn read<W: Wrap>(
        self,
        wrap: &W,
        file: &[u8],
        ring: &mut [u8],
        work: &mut [u8],
    ) -> (Self, Option<ReadFault>);

    /// Wipes the ring, and answers the serial that is left.
    fn wiped(self, ring: &mut [u8]) -> Option<u16>;

    /// The group key; nothing where the player is not seated.
    fn shown(&self, ring: &[u8]) -> Option<[u8; 32]>;
}

impl Calls for AnyPlayer {
    fn read<W: Wrap>(
        self,
        wrap: &W,
        file: &[u8],
        ring: &mut [u8],
        work: &mut [u8],
    ) -> (AnyPlayer, Option<ReadFault>) {
        match self {
            AnyPlayer::Waiting(player) => match player.read(wrap, file, ring, work) {
                Ok(seated) => (AnyPlayer::from(seated), None),
                Err(refused) => (AnyPlayer::from(refused.player), Some(refused.fault)),
            },
            AnyPlayer::Seated(player) => match player.read(wrap, file, ring, work) {
                Ok(seated) => (AnyPlayer::from(seated), None),
                Err(refused) => (AnyPlayer::from(refused.player), Some(refused.fault)),
            },
            AnyPlayer::Wiped(player) => (AnyPlayer::from(player), None),
        }
    }

    fn wiped(self, ring: &mut [u8]) -> Option<u16> {
        match self {
            AnyPlayer::Waiting(player) => player.wipe(ring).ok().map(|wiped| wiped.serial()),
            AnyPlayer::Seated(player) => player.wipe(ring).ok().map(|wiped| wiped.serial()),
            AnyPlayer::Wiped(_) => None,
        }
    }

    fn shown(&self, ring: &[u8]) -> Option<[u8; 32]> {
        match self {
            AnyPlayer::Seated(player) => player.show(ring).ok(),
            _ => None,
        }
    }
}

/// The fault of bytes that are not a rekey file: the place of the first fault.
pub(crate) fn no_file(place: usize) -> ReadFault {
    ReadFault::Layout(LayoutFault { place })
}

/// The fault where the wrap of that index does not open.
pub(crate) fn does_not_open(index: usize, epoch: u32) -> ReadFault {
    ReadFault::File {
        epoch,
        fault: FileFault::Wrap {
            index,
            fault: WrapFault::DoesNotOpen,
        },
    }
}

/// How many bytes a reading is lent.
#[derive(Clone, Copy)]
pub(crate) struct Lengths {
    pub(crate) ring: usize,
    pub(crate) work: usize,
}

pub(crate) const ENOUGH: Lengths = Lengths {
    ring: 288,
    work: 512,
};

/// Enrols a player with a card that is taken.
pub(crate) fn enrolled(rt: &impl Abort, card: &[u8], ring: &mut [u8]) -> AnyPlayer {
    AnyPlayer::from(enrol(card, ring).expect(rt, "the card is refused"))
}

/// The seated player that this one is.
pub(crate) fn seated(rt: &impl Abort, player: AnyPlayer) -> Seated {
    let seated = match player {
        AnyPlayer::Seated(player) => Some(player),
        _ => None,
    };
    seated.expect(rt, "the player is not seated")
}

/// Reads a file that is taken, and looks at all that a reading leaves but the ring.
pub(crate) fn reads<W: Wrap>(
    rt: &impl Abort,
    player: AnyPlayer,
    wrap: &W,
    file: &[u8],
    ring: &mut [u8],
    group_key: [u8; 32],
) -> AnyPlayer {
    let mut work = [5u8; 600];
    let (player, fault) = player.read(wrap, file, ring, &mut work);
    assert_eq!(rt; fault, None);
    assert!(rt; work == [0; 600]);
    assert!(rt; player.shown(ring) == Some(group_key));
    player
}

/// Is refused a file, and looks at all that a refusal leaves but for the player.
pub(crate) fn is_refused<W: Wrap>(
    rt: &impl Abort,
    player: AnyPlayer,
    wrap: &W,
    file: &[u8],
    ring: &mut [u8; 288],
    fault: ReadFault,
    number: u8,
) -> AnyPlayer {
    let before = *ring;
    let mut work = [5u8; 512];
    let (player, answer) = player.read(wrap, file, ring, &mut work);
    assert_eq!(rt; answer, Some(fault));
    assert_eq!(rt; fault.number(), number);
    assert!(rt; *ring == before && work == [0; 512]);
    player
}
