//! The card of a scanner.
ghost use Rattle.std.specs.Prelude.{◌≡◌, length};
ghost use Rattle.refusal.specs.Refusals.{verdict_of};
ghost use Rattle.server_rules.specs.Cards.{card_verdict, buffer_after_card, card_with};
ghost use Rattle.server.specs.Refusals.{card_refusal};

use crate::fault::CardFault;
use crate::notes::{seat_index, serial_of};
use keys::{CARD_BYTES, NodeKey};
use server_rules::State;

// Fills the place of a card: serial 2 bytes, leaf 1, the epoch of the leaf's key 4, its bytes 32.
fn put_card(serial: u16, leaf: u8, node: NodeKey, place: &mut [u8])
    requires { length place.old ≡ CARD_BYTES }
    ensures { place.new ≡ card_with serial leaf node }
{
    let [high, low] = serial.to_be_bytes();
    let [a, b, c, d] = node.made.to_be_bytes();
    let (names, key) = place.split_at_mut(7);
    names.copy_from_slice(&[high, low, leaf, a, b, c, d]);
    key.copy_from_slice(&node.key);
}

/// Writes the card of a scanner that is in a cradle to the front of `buffer`.
pub(crate) fn card(state: &State, number: u32, buffer: &mut [u8]) -> Result<(), CardFault>
    ensures answer { verdict_of card_refusal result ≡ card_verdict state.now number buffer.old }
    ensures written { buffer.new ≡ buffer_after_card state.now number buffer.old }
{
    let serial = serial_of(number).ok_or(CardFault::NoSerial)?;
    let index = seat_index(serial, state).ok_or(CardFault::NotSeated)?;
    if buffer.len() < CARD_BYTES {
        return Err(CardFault::ShortCard { needed: CARD_BYTES });
    }
    let node = state.nodes[128 + index];
    put_card(serial, 128 + index as u8, node, &mut buffer[..CARD_BYTES]);
    Ok(())
}
