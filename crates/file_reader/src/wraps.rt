//! A wrap that stands in a file.
ghost use Rattle.std.specs.Prelude.{◌≡◌};
ghost use Rattle.refusal.specs.Refusals.{verdict_of};
ghost use Rattle.file_reader.specs.Refusals.{file_refusal, refusal_with_more};
ghost use Rattle.file_reader.specs.Views.{content_under};
ghost use Rattle.wrap.specs.Calls.{work_after, open_verdict, place_after_open};

use crate::fault::{FileFault, IndexedFault};
use keys::{KeyName, wrap_name};
use wrap::Wrap;

/// A wrap as a part of its file.
#[derive(Clone, Copy)]
pub struct FileWrap<'a> {
    /// Which wrap of the file it is, counted from 0.
    pub index: usize,
    /// Where its first byte, the opener's node, stands in the file.
    pub place: usize,
    /// The key that opens it.
    pub opener: KeyName,
    /// The key that is sealed, which was made in the file's epoch.
    pub content: KeyName,
    pub sealed: &'a [u8],
}

impl FileWrap<'_> {
    /// Opens the wrap under a key, writes the content's key to `place`, and clears `work`. The
    /// checks are in this order: fewer than `WORKING_BYTES` of `work` (9, `work` is left as it is),
    /// sealed bytes that do not open (18, with the wrap's index).
    pub fn open<W: Wrap>(
        self,
        wrap: &W,
        key: [u8; 32],
        place: &mut [u8; 32],
        work: &mut [u8],
    ) -> Result<(), FileFault>
        ensures answer { verdict_of file_refusal result ≡
            verdict_of (refusal_with_more self.entry.index)
            (open_verdict W.meaning.length self.entry.sealed.now
            (content_under W.meaning key self.entry) work.old) }
        ensures written { place.new ≡
            place_after_open W.meaning.length self.entry.sealed.now
            (content_under W.meaning key self.entry) place.old work.old }
        ensures cleared { work.new ≡ work_after work.old }
    {
        let name = wrap_name(self.opener, self.content);
        wrap.open(key, name, self.sealed, place, work)
            .map_err(|fault| FileFault::from(IndexedFault {
                index: self.index,
                fault,
            }))
    }
}
