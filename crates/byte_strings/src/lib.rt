//! Strings of bytes: a part by value, writing over a part, exclusive or, and comparison.
#![tactic(auto)]

ghost use Rattle.std.specs.Prelude.{◌≡◌, ◌+◌, ◌≤◌, min, length, bit_or, bit_xor};
ghost use Rattle.std.specs.List.{fold, zip};
ghost use Rattle.byte_strings.specs.Strings.{xors, overlay, part, is_same};

/// The N bytes of `s` from place `at` on, by value.
pub fn part_of<const N: usize>(s: &[u8], at: usize) -> [u8; N]
    requires { at + N ≤ length s.now }
    ensures { result ≡ part N at s.now }
{
    match <[u8; N]>::try_from(&s[at..at + N]) {
        Ok(bytes) => bytes,
        Err(_) => unreachable!(),
    }
}

/// Writes `x` over `s`, from place `at` on.
pub fn put(s: &mut [u8], at: usize, x: &[u8])
    requires { at + length x.now ≤ length s.old }
    ensures { s.new ≡ overlay s.old at x.now }
{
    let n = x.len();
    s[at..at + n].copy_from_slice(x);
}

// The length of the shorter of the two.
fn common_length(a: &[u8], b: &[u8]) -> usize
    ensures { result ≡ min (length a.now) (length b.now) }
{
    a.len().min(b.len())
}

/// Adds `x` to `s` by exclusive or, as far as the shorter of the two reaches.
#[tactic(auto, using(crate::proofs::Xors::front_none, crate::proofs::Xors::front_more, crate::proofs::Xors::front_all))]
pub fn xor_into(s: &mut [u8], x: &[u8])
    ensures { s.new ≡ xors s.old x.now }
{
    // By index: what a slice holds after a zip of its `iter_mut` is not known to the prover.
    for i in 0..common_length(s, x) {
        s[i] ^= x[i];
    }
}

/// The exclusive or of two strings of N bytes.
pub fn xor_of<const N: usize>(a: [u8; N], b: [u8; N]) -> [u8; N]
    ensures { result ≡ xors a.entry b.entry }
{
    let mut out = a;
    xor_into(&mut out, &b);
    out
}

// The bits in which a byte of one string differs from that at its place in the other.
fn differences(a: &[u8], b: &[u8]) -> u8
    ensures { result ≡ fold (λ bits p. bit_or bits (bit_xor p.0 p.1)) 0 (zip a.now b.now) }
{
    a.iter().zip(b).fold(0, |so_far, (x, y)| so_far | (x ^ y))
}

/// Are the two strings the same? Where they are of one length, every byte is read, wherever they
/// differ.
#[tactic(auto, using(crate::proofs::Sames::same_gathered, crate::proofs::Sames::same_uneven))]
pub fn equal(a: &[u8], b: &[u8]) -> bool
    ensures { result ≡ is_same a.now b.now }
{
    a.len() == b.len() && differences(a, b) == 0
}
