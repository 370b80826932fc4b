//! The ring that is lent to a call.
ghost use Rattle.std.specs.Prelude.{◌≡◌};
ghost use Rattle.refusal.specs.Refusals.{verdict_of};
ghost use Rattle.player_rules.specs.Players.{show_verdict, wipe_verdict, ring_after_wipe};
ghost use Rattle.player.specs.Refusals.{ring_refusal};

use crate::fault::RingFault;
use byte_strings::part_of;
use player_rules::RING_BYTES;

/// The group key: the key of the root's entry, from byte 256 on.
pub(crate) fn group_key(ring: &[u8]) -> Result<[u8; 32], RingFault>
    ensures { verdict_of ring_refusal result ≡ show_verdict ring.now }
{
    if ring.len() != RING_BYTES {
        return Err(RingFault::NotARing);
    }
    Ok(part_of(ring, 256))
}

/// Makes zeros of the ring.
pub(crate) fn wipe_ring(ring: &mut [u8]) -> Result<(), RingFault>
    ensures answer { verdict_of ring_refusal result ≡ wipe_verdict ring.old }
    ensures ring { ring.new ≡ ring_after_wipe ring.old }
{
    if ring.len() != RING_BYTES {
        return Err(RingFault::NotARing);
    }
    ring.fill(0);
    Ok(())
}
