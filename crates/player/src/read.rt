//! Reading a file.
ghost use Rattle.std.specs.Prelude.{◌≡◌, ◌≤◌, OnOk};
ghost use Rattle.refusal.specs.Refusals.{verdict_of};
ghost use Rattle.wrap.specs.Calls.{work_after};
ghost use Rattle.player_rules.specs.Players.{read_verdict, ring_or};
ghost use Rattle.climb.specs.Refusals.{read_refusal, bare_verdict};
ghost use Rattle.keys.specs.declared.limits.TheConstants.{LAST_EPOCH};

use climb::{ReadFault, WayUp};
use file_reader::RekeyFile;
use layout::check;
use player_rules::RING_BYTES;
use wrap::{WORKING_BYTES, Working, Wrap};

/// Reads the file of the wanted epoch into the ring of the player at that leaf, and clears `work`.
/// The ring is as it was where the file is refused.
#[tactic(auto, using(crate::proofs::Epochs::epoch_range))]
pub(crate) fn read_wanted<W: Wrap>(
    wrap: &W,
    file: &[u8],
    leaf: u8,
    wanted: u32,
    ring: &mut [u8],
    work: &mut [u8],
) -> Result<(), ReadFault>
    ensures answer { verdict_of read_refusal result
        ≡ bare_verdict (read_verdict leaf wanted W.meaning file.now work.old ring.old) }
    ensures ring { ring.new
        ≡ ring_or (read_verdict leaf wanted W.meaning file.now work.old ring.old) ring.old }
    ensures cleared { work.new ≡ work_after work.old }
    ensures epoch { OnOk result (wanted ≤ LAST_EPOCH) }
{
    let guard = Working { bytes: work };
    if guard.bytes.len() < WORKING_BYTES {
        return Err(ReadFault::ShortWorking);
    }
    if ring.len() != RING_BYTES {
        return Err(ReadFault::NotARing);
    }
    check(wrap, file)?;
    let file = RekeyFile::over(wrap, file);
    if file.epoch() < wanted {
        return Err(ReadFault::TooLow { wanted });
    }
    if file.epoch() > wanted {
        return Err(ReadFault::TooHigh { wanted });
    }
    WayUp { wrap, file, leaf }.follow(ring, guard.bytes)
}
