//! The interface of a key wrap: sealing and opening a 32-byte key, the faults of both, and the
//! guard over working bytes.
#![tactic(auto)]

ghost use Rattle.std.specs.Prelude.{◌≡◌, ◌≤◌, length};
ghost use Rattle.refusal.specs.Refusals.{verdict_of};
ghost use Rattle.wrap.specs.Meaning.{WrapMeaning, IsLawfulWrap};
ghost use Rattle.wrap.specs.Refusals.{wrap_refusal};
ghost use Rattle.wrap.specs.Calls.{work_after, seal_verdict, buffer_after_seal};
ghost use Rattle.wrap.specs.Calls.{open_verdict, place_after_open};

mod fault;
mod working;

pub use fault::WrapFault;
pub use working::{WORKING_BYTES, Working};

/// A way to seal 32 bytes under a 32-byte key and a 10-byte name.
pub trait Wrap {
    // What the wrap means: its kind, how many bytes a sealing writes, what it seals and opens.
    ghost meaning: { WrapMeaning };

    /// The number that stands for this wrap in a file. A number, since there may be wraps of other
    /// kinds.
    fn kind(&self) -> u8
        ensures { result ≡ meaning.kind };

    /// How many bytes a sealing writes, 33 to 64.
    fn sealed_len(&self) -> usize
        ensures { result ≡ meaning.length };

    // Key, name and working bytes go apart, keys and names by value: that is how other languages will call it.
    /// Seals `content` over the whole of `out`, and clears `work`.
    fn seal_to(
        &self,
        key: [u8; 32],
        name: [u8; 10],
        content: [u8; 32],
        out: &mut [u8],
        work: &mut [u8],
    )
        requires room { length out.old ≡ meaning.length }
        requires working { WORKING_BYTES ≤ length work.old }
        ensures written { out.new ≡ meaning.seals key name content }
        ensures cleared { work.new ≡ work_after work.old };

    /// The content of sealed bytes, if they open; clears `work`.
    fn open_from(
        &self,
        key: [u8; 32],
        name: [u8; 10],
        bytes: &[u8],
        work: &mut [u8],
    ) -> Option<[u8; 32]>
        requires whole { length bytes.now ≡ meaning.length }
        requires working { WORKING_BYTES ≤ length work.old }
        ensures answer { result ≡ meaning.opens key name bytes.now }
        ensures cleared { work.new ≡ work_after work.old };

    /// Seals `content` at the front of `out`, and clears `work`. The checks are in this order:
    /// fewer than `WORKING_BYTES` of `work` (9, `work` is left as it is), too short a buffer (12,
    /// with the bytes needed).
    final fn seal(
        &self,
        key: [u8; 32],
        name: [u8; 10],
        content: [u8; 32],
        out: &mut [u8],
        work: &mut [u8],
    ) -> Result<(), WrapFault>
        ensures answer { verdict_of wrap_refusal result
            ≡ seal_verdict meaning.length out.old work.old }
        ensures written { out.new
            ≡ buffer_after_seal meaning.length (meaning.seals key name content) out.old work.old }
        ensures cleared { work.new ≡ work_after work.old }
    {
        let needed = self.sealed_len();
        let guard = Working { bytes: work };
        if guard.bytes.len() < WORKING_BYTES {
            return Err(WrapFault::ShortWorking);
        }
        if out.len() < needed {
            return Err(WrapFault::ShortBuffer { needed });
        }
        self.seal_to(key, name, content, &mut out[0..needed], guard.bytes);
        Ok(())
    }

    /// Opens `bytes`, writes their content to `place`, and clears `work`. The checks are in this
    /// order: fewer than `WORKING_BYTES` of `work` (9, `work` is left as it is), bytes of another
    /// length or that no sealing wrote (18).
    final fn open(
        &self,
        key: [u8; 32],
        name: [u8; 10],
        bytes: &[u8],
        place: &mut [u8; 32],
        work: &mut [u8],
    ) -> Result<(), WrapFault>
        ensures answer { verdict_of wrap_refusal result
            ≡ open_verdict meaning.length bytes.now (meaning.opens key name bytes.now) work.old }
        ensures written { place.new
            ≡ place_after_open meaning.length bytes.now (meaning.opens key name bytes.now)
            place.old work.old }
        ensures cleared { work.new ≡ work_after work.old }
    {
        let guard = Working { bytes: work };
        if guard.bytes.len() < WORKING_BYTES {
            return Err(WrapFault::ShortWorking);
        }
        if bytes.len() != self.sealed_len() {
            return Err(WrapFault::DoesNotOpen);
        }
        let content = self.open_from(key, name, bytes, guard.bytes);
        *place = content.ok_or(WrapFault::DoesNotOpen)?;
        Ok(())
    }

    ghost lawful: { IsLawfulWrap meaning };
}
