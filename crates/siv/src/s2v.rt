//! S2V of RFC 5297, 2.4: the synthetic IV of an associated string and a text.
ghost use Rattle.std.specs.Prelude.{◌≡◌, ◌<◌, ◌≤◌, [], ◌∷◌, length};
ghost use Rattle.aes.specs.Keyed.{cipher_of};
ghost use Rattle.byte_strings.specs.Strings.{xors};
ghost use Rattle.cmac.specs.Blocks.{dbl};
ghost use Rattle.cmac.specs.Cmac.{padding};
ghost use Rattle.cmac.specs.Cmac.{cmac as cmac_of};
ghost use Rattle.wrap_rules.specs.S2v.{xorend, gathered_block};
ghost use Rattle.wrap_rules.specs.S2v.{s2v as s2v_of};

use aes::Schedule;
use byte_strings::{xor_into, xor_of};
use cmac::{double, mac, pad};

/// D past one more string.
fn gather(w: Schedule<'_>, d: [u8; 16], string: &[u8]) -> [u8; 16]
    ensures { result ≡ gathered_block (cipher_of w.entry) d (string.now ∷ []) }
{
    xor_of(double(d), mac(w, string))
}

/// xorend, in place; a second time takes it back.
#[tactic(auto, using(crate::proofs::Ends::end_added, crate::proofs::Ends::end_restored))]
fn add_to_end(text: &mut [u8], d: [u8; 16])
    requires { 16 ≤ length text.old }
    ensures added { text.new ≡ xorend text.old d }
    ensures back { xorend text.new d ≡ text.old }
{
    let end = text.len() - 16;
    xor_into(&mut text[end..], &d);
}

/// The CMAC of the text with D added to its end; the text is as it was afterwards.
fn mac_with_end(w: Schedule<'_>, text: &mut [u8], d: [u8; 16]) -> [u8; 16]
    requires { 16 ≤ length text.old }
    ensures tag { result ≡ cmac_of (cipher_of w.entry) (xorend text.old d) }
    ensures kept { text.new ≡ text.old }
{
    add_to_end(text, d);
    let v = mac(w, text);
    add_to_end(text, d); // takes it back
    v
}

/// The CMAC of a text shorter than a block, padded, with D doubled.
fn mac_padded(w: Schedule<'_>, text: &[u8], d: [u8; 16]) -> [u8; 16]
    requires { length text.now < 16 }
    ensures { result ≡ cmac_of (cipher_of w.entry) (xors (dbl d) (padding text.now)) }
{
    mac(w, &xor_of(double(d), pad(text)))
}

/// S2V of one associated string and a text, which is as it was afterwards.
#[tactic(auto, unfolding(wrap_rules::specs::S2v::s2v, wrap_rules::specs::S2v::last_string))]
pub fn synthetic_iv(w: Schedule<'_>, string: &[u8], text: &mut [u8]) -> [u8; 16]
    ensures iv { result ≡ s2v_of (cipher_of w.entry) (string.now ∷ []) text.old }
    ensures kept { text.new ≡ text.old }
{
    let d = gather(w, mac(w, &[0; 16]), string);
    if text.len() < 16 {
        mac_padded(w, text, d)
    } else {
        mac_with_end(w, text, d)
    }
}
