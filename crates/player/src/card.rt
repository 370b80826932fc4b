//! Enrolling a player with its card.
ghost use Rattle.std.specs.Prelude.{◌≡◌, Ok};
ghost use Rattle.refusal.specs.Refusals.{verdict_of};
ghost use Rattle.player_rules.specs.Players.{enrol_verdict, ring_after_enrol, fault_or, card_fault, card_numbers};
ghost use Rattle.player.specs.Refusals.{enrol_refusal};

use crate::fault::EnrolFault;
use crate::players::Waiting;
use byte_strings::part_of;
use keys::{CARD_BYTES, LAST_EPOCH, is_serial};
use player_rules::RING_BYTES;

// The player that a card is for.
fn read_card(card: &[u8]) -> Result<Waiting, EnrolFault>
    ensures { verdict_of enrol_refusal result
        ≡ fault_or 13 (card_fault card.now) (Ok (card_numbers card.now)) }
{
    if card.len() != CARD_BYTES {
        return Err(EnrolFault::Card {
            place: card.len().min(CARD_BYTES),
        });
    }
    let serial = u16::from_be_bytes(part_of(card, 0));
    let leaf = card[2];
    let epoch = u32::from_be_bytes(part_of(card, 3));
    if !is_serial(serial) {
        return Err(EnrolFault::Card { place: 0 });
    }
    if leaf < 128 {
        return Err(EnrolFault::Card { place: 2 });
    }
    if !(1..=LAST_EPOCH).contains(&epoch) {
        return Err(EnrolFault::Card { place: 3 });
    }
    Ok(Waiting {
        serial,
        leaf,
        epoch,
    })
}

/// Enrols the player that a card is for: the card's epoch and key become the ring's first entry,
/// and the rest of the ring zeros. The checks are in this order: a ring that is not `RING_BYTES`
/// long (14), bytes that are not a card, which has `CARD_BYTES` (13, with the place of the first
/// fault).
pub fn enrol(card: &[u8], ring: &mut [u8]) -> Result<Waiting, EnrolFault>
    ensures answer { verdict_of enrol_refusal result ≡ enrol_verdict card.now ring.old }
    ensures ring { ring.new ≡ ring_after_enrol card.now ring.old }
{
    if ring.len() != RING_BYTES {
        return Err(EnrolFault::NotARing);
    }
    let player = read_card(card)?;
    let (entry, rest) = ring.split_at_mut(36);
    entry.copy_from_slice(&card[3..]);
    rest.fill(0);
    Ok(player)
}
