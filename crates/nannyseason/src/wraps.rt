//! Sealing and opening, with what has to be 32 or 10 bytes handed in as slices.
ghost use Rattle.std.specs.Prelude.{◌≡◌, Some};
ghost use Rattle.wrap.specs.Calls.{work_after};
ghost use Rattle.nannyseason.specs.Answers.{verdict_answer, misuse};
ghost use Rattle.nannyseason.specs.Jobs.{ChangesTo};
ghost use Rattle.nannyseason.specs.Wraps.{seal_call_verdict, buffer_after_seal_call, open_call_verdict, place_after_open_call};

use crate::answer::{Answer, DONE, MISUSE};
use kinds::WrapJob;
use wrap::{Working, Wrap};

/// The library's own refusal, of a call that is lent working bytes: they are cleared.
pub(crate) fn misuse_answer(work: &mut [u8]) -> Answer
    ensures answer { result ≡ verdict_answer {A = Unit {0}} misuse }
    ensures cleared { work.new ≡ work_after work.old }
{
    drop(Working { bytes: work });
    MISUSE
}

/// Seals `content` at the front of `sealed`, and clears `work`.
#[derive(Drop)]
pub(crate) struct SealJob<'a> {
    pub(crate) key: &'a [u8],
    pub(crate) name: &'a [u8],
    pub(crate) content: &'a [u8],
    pub(crate) sealed: &'a mut [u8],
    pub(crate) work: &'a mut [u8],
}

impl WrapJob for SealJob<'_> {
    type Output = Answer;

    ghost gives = { λ w job answer after.
        (answer ≡ verdict_answer (seal_call_verdict (Some w) job.key.now job.name.now
        job.content.now job.sealed.now job.work.now))
        × (ChangesTo job.sealed after.sealed (buffer_after_seal_call (Some w) job.key.now
        job.name.now job.content.now job.sealed.now job.work.now)
        × ChangesTo job.work after.work (work_after job.work.now)) };

    fn run<W: Wrap>(&mut self, wrap: &W) -> Answer {
        let (Some(key), Some(name), Some(content)) = (
            self.key.as_array(),
            self.name.as_array(),
            self.content.as_array(),
        ) else {
            return misuse_answer(self.work);
        };
        match wrap.seal(*key, *name, *content, self.sealed, self.work) {
            Ok(()) => DONE,
            Err(fault) => Answer::from(fault),
        }
    }
}

/// Opens `sealed`, writes what was sealed to `content`, and clears `work`.
#[derive(Drop)]
pub(crate) struct OpenJob<'a> {
    pub(crate) key: &'a [u8],
    pub(crate) name: &'a [u8],
    pub(crate) sealed: &'a [u8],
    pub(crate) content: &'a mut [u8],
    pub(crate) work: &'a mut [u8],
}

impl WrapJob for OpenJob<'_> {
    type Output = Answer;

    ghost gives = { λ w job answer after.
        (answer ≡ verdict_answer (open_call_verdict (Some w) job.key.now job.name.now
        job.sealed.now job.content.now job.work.now))
        × (ChangesTo job.content after.content (place_after_open_call (Some w) job.key.now
        job.name.now job.sealed.now job.content.now job.work.now)
        × ChangesTo job.work after.work (work_after job.work.now)) };

    fn run<W: Wrap>(&mut self, wrap: &W) -> Answer {
        open_with(
            wrap,
            self.key,
            self.name,
            self.sealed,
            self.content,
            self.work,
        )
    }
}

// The place is borrowed from a parameter here, which a field does not prove.
fn open_with<W: Wrap>(
    wrap: &W,
    key: &[u8],
    name: &[u8],
    sealed: &[u8],
    content: &mut [u8],
    work: &mut [u8],
) -> Answer
    ensures answer { result
        ≡ verdict_answer (open_call_verdict (Some W.meaning)
        key.now name.now sealed.now content.old work.old) }
    ensures written { content.new
        ≡ place_after_open_call (Some W.meaning)
        key.now name.now sealed.now content.old work.old }
    ensures cleared { work.new ≡ work_after work.old }
{
    let (Some(key), Some(name)) = (key.as_array(), name.as_array()) else {
        return misuse_answer(work);
    };
    let Some(place) = content.as_mut_array() else {
        return misuse_answer(work);
    };
    match wrap.open(*key, *name, sealed, place, work) {
        Ok(()) => DONE,
        Err(fault) => Answer::from(fault),
    }
}
