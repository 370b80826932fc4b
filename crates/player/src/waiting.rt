//! A player that has read no file yet.
ghost use Rattle.std.specs.Prelude.{◌≡◌};
ghost use Rattle.wrap.specs.Calls.{work_after};
ghost use Rattle.player_rules.specs.Players.{read_verdict, wipe_verdict, read, wipe, player_after, ring_after};
ghost use Rattle.player_rules.specs.Players as states;
ghost use Rattle.climb.specs.Refusals.{read_refusal, bare_verdict};
ghost use Rattle.player.specs.Refusals.{ring_refusal};
ghost use Rattle.player.specs.Views.{move_verdict, moved_player};

use crate::fault::RingFault;
use crate::players::{Refused, Seated, Waiting, Wiped};
use crate::read::read_wanted;
use crate::rings::wipe_ring;
use climb::ReadFault;
use wrap::Wrap;

impl Waiting {
    /// Reads the file of its epoch into the ring, and clears `work`. The checks are in this order:
    /// fewer than `WORKING_BYTES` of `work` (9, `work` is left as it is), a ring that is not
    /// `RING_BYTES` long (14), bytes that are not a rekey file of this wrap (15, with the place of
    /// the first fault), an epoch that is too low (16) or too high (17, both with the epoch
    /// wanted). On the way up come a wrap that does not open (18, with its index and the file's
    /// epoch) and a listed node that the ring has no opener for (19, with the node).
    pub fn read<W: Wrap>(
        self,
        wrap: &W,
        file: &[u8],
        ring: &mut [u8],
        work: &mut [u8],
    ) -> Result<Seated, Refused<Waiting, ReadFault>>
        ensures answer { move_verdict read_refusal result
            ≡ bare_verdict (read_verdict self.leaf self.epoch
            W.meaning file.now work.old ring.old) }
        ensures player { moved_player states.seated states.waiting result
            ≡ player_after (read W.meaning file.now work.old)
            (states.waiting self) ring.old }
        ensures ring { ring.new
            ≡ ring_after (read W.meaning file.now work.old)
            (states.waiting self) ring.old }
        ensures cleared { work.new ≡ work_after work.old }
    {
        match read_wanted(wrap, file, self.leaf, self.epoch, ring, work) {
            Ok(()) => Ok(Seated {
                serial: self.serial,
                leaf: self.leaf,
                epoch: self.epoch,
            }),
            Err(fault) => Err(Refused {
                player: self,
                fault,
            }),
        }
    }

    /// Makes zeros of the ring. A ring that is not `RING_BYTES` long is refused (14).
    pub fn wipe(self, ring: &mut [u8]) -> Result<Wiped, Refused<Waiting, RingFault>>
        ensures answer { move_verdict ring_refusal result ≡ wipe_verdict ring.old }
        ensures player { moved_player states.wiped states.waiting result
            ≡ player_after wipe (states.waiting self) ring.old }
        ensures ring { ring.new ≡ ring_after wipe (states.waiting self) ring.old }
    {
        match wipe_ring(ring) {
            Ok(()) => Ok(Wiped {
                serial: self.serial,
            }),
            Err(fault) => Err(Refused {
                player: self,
                fault,
            }),
        }
    }
}
