//! The counter mode of RFC 5297, 2.5.
ghost use Rattle.std.specs.Prelude.{◌≡◌, ◌+◌, ◌%◌, ◌^◌};
ghost use Rattle.aes.specs.Keyed.{cipher_of};
ghost use Rattle.wrap_rules.specs.Counter.{counter_start, increment};
ghost use Rattle.wrap_rules.specs.Counter.{ctr as ctr_of};

use aes::Schedule;
use byte_strings::xor_into;
use cmac::{block_of, number_of};

/// Q, the first counter: the IV without bits 31 and 63, which saves 32-bit adders a carry.
fn counter_start(v: [u8; 16]) -> [u8; 16]
    ensures { result ≡ counter_start v }
{
    let mut q = v;
    q[8] &= 0x7f;
    q[12] &= 0x7f;
    q
}

// The counter plus one, without what overflows its 128 bits.
fn plus_one(n: u128) -> u128
    ensures { result ≡ (n + 1) % 2 ^ 128 }
{
    n.wrapping_add(1)
}

/// The counter block after `q`.
#[tactic(auto, unfolding(wrap_rules::specs::Counter::increment))]
fn increment(q: [u8; 16]) -> [u8; 16]
    ensures { result ≡ increment q }
{
    block_of(plus_one(number_of(q)))
}

/// Adds the key stream that starts at the IV `v` to the text, in place; a second time takes it
/// back.
#[tactic(auto, using(wrap_rules::proofs::Streams::stream_none, wrap_rules::proofs::Streams::stream_more, wrap_rules::proofs::Streams::stream_all, wrap_rules::proofs::Streams::ctr_ctr))]
pub fn ctr(w: Schedule<'_>, v: [u8; 16], text: &mut [u8])
    ensures added { text.new ≡ ctr_of (cipher_of w.entry) v text.old }
    ensures back { ctr_of (cipher_of w.entry) v text.new ≡ text.old }
{
    let mut q = counter_start(v);
    // By index: what a slice holds after a loop over its `chunks_mut` is not known to the prover.
    for i in 0..text.len().div_ceil(16) {
        xor_into(&mut text[16 * i..], &w.encipher(q));
        // Through a local: the prover does not cover a call whose result is laid into an array that is held.
        let next = increment(q);
        q = next;
    }
}
