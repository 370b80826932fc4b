//! The calls of players, for any numbers that a caller keeps.
ghost use Rattle.std.specs.Prelude.{◌≡◌, Some};
ghost use Rattle.wrap.specs.Calls.{work_after};
ghost use Rattle.player.specs.Stored.{store, restore};
ghost use Rattle.nannyseason.specs.Answers.{answer, verdict_answer};
ghost use Rattle.nannyseason.specs.Jobs.{ChangesTo};
ghost use Rattle.nannyseason.specs.Players.{read_call, stored_call_verdict, stored_after_call, ring_after_call};

use crate::answer::{Answer, DONE};
use crate::wraps::misuse_answer;
use kinds::WrapJob;
use player::{AnyPlayer, Stored};
use wrap::Wrap;

/// The player that the caller keeps, if these are numbers of one. They stay with the caller, so that
/// a refused call leaves them.
pub(crate) fn restore_from(stored: &Stored) -> Option<AnyPlayer>
    ensures { result ≡ restore stored.now }
{
    AnyPlayer::restore(Stored {
        state: stored.state,
        leaf: stored.leaf,
        serial: stored.serial,
        epoch: stored.epoch,
    })
}

/// Writes the player of a call that was done to where the caller keeps it.
pub(crate) fn keep(player: AnyPlayer, stored: &mut Stored) -> Answer
    ensures answer { result ≡ answer 0 0 0 }
    ensures player { stored.new ≡ store player }
{
    *stored = player.store();
    DONE
}

/// Reads `file` into the ring of the player, and clears `work`.
#[derive(Drop)]
pub(crate) struct ReadJob<'a> {
    pub(crate) file: &'a [u8],
    pub(crate) stored: &'a mut Stored,
    pub(crate) ring: &'a mut [u8],
    pub(crate) work: &'a mut [u8],
}

impl WrapJob for ReadJob<'_> {
    type Output = Answer;

    ghost gives = { λ w job answer after.
        (answer ≡ verdict_answer (stored_call_verdict
        (read_call (Some w) job.file.now job.work.now) job.stored.now job.ring.now))
        × (ChangesTo job.stored after.stored (stored_after_call
        (read_call (Some w) job.file.now job.work.now) job.stored.now job.ring.now)
        × (ChangesTo job.ring after.ring (ring_after_call
        (read_call (Some w) job.file.now job.work.now) job.stored.now job.ring.now)
        × ChangesTo job.work after.work (work_after job.work.now))) };

    fn run<W: Wrap>(&mut self, wrap: &W) -> Answer {
        let seated = match restore_from(self.stored) {
            Some(AnyPlayer::Waiting(player)) => player
                .read(wrap, self.file, self.ring, self.work)
                .map_err(|r| r.fault),
            Some(AnyPlayer::Seated(player)) => player
                .read(wrap, self.file, self.ring, self.work)
                .map_err(|r| r.fault),
            Some(AnyPlayer::Wiped(_)) | None => return misuse_answer(self.work),
        };
        match seated {
            Ok(player) => keep(AnyPlayer::from(player), self.stored),
            Err(fault) => Answer::from(fault),
        }
    }
}
