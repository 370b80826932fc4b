//! The check of a rekey file: whether bytes are one, and the place of the first fault if not.
#![tactic(auto)]

ghost use Rattle.std.specs.Prelude.{◌≡◌, OnOk, IsTrue};
ghost use Rattle.refusal.specs.Refusals.{verdict_of};
ghost use Rattle.file_rules.specs.Layout.{is_rekey_file};
ghost use Rattle.layout.specs.Refusals.{layout_refusal, check_verdict};

use wrap::Wrap;

mod cursor;
mod fault;
mod fields;
mod head;
mod sections;

pub use fault::LayoutFault;
pub use head::lists;

/// Checks that `bytes` are a rekey file with wraps of this kind. Bytes that are not one are refused
/// (15, with the place of the first fault).
pub fn check<W: Wrap>(wrap: &W, bytes: &[u8]) -> Result<(), LayoutFault>
    ensures answer { verdict_of layout_refusal result ≡
        check_verdict W.meaning.kind W.meaning.length bytes.now }
    ensures accepts { OnOk result (IsTrue (is_rekey_file W.meaning.length bytes.now)) }
{
    sections::check_file(bytes, wrap.kind(), wrap.sealed_len())
}
