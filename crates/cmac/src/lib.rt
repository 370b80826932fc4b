//! AES-CMAC of RFC 4493, under a lent key schedule.
#![tactic(auto)]

ghost use Rattle.std.specs.Prelude.{◌≡◌, ◌<◌, ◌≤◌, length, slice_set};
ghost use Rattle.std.specs.List.{fold};
ghost use Rattle.aes.specs.Keyed.{cipher_of};
ghost use Rattle.byte_strings.specs.Strings.{xors};
ghost use Rattle.cmac.specs.Blocks.{number_of, bytes_of, times_x, dbl};
ghost use Rattle.cmac.specs.Cmac.{zeros, padding, is_whole, m_last, blocks_before_last};
ghost use Rattle.cmac.specs.Cmac.{cmac as cmac_of};

use aes::Schedule;
use byte_strings::{part_of, put, xor_of};

/// A block as a number, its first byte highest.
pub fn number_of(b: [u8; 16]) -> u128
    ensures { result ≡ number_of 16 b }
{
    u128::from_be_bytes(b)
}

/// A number as a block.
pub fn block_of(n: u128) -> [u8; 16]
    ensures { result ≡ bytes_of 16 n }
{
    n.to_be_bytes()
}

// No branch on the bit that falls out: it may come from a key.
fn times_x(n: u128) -> u128
    ensures { result ≡ times_x n }
{
    (n << 1) ^ ((n >> 127) * 0x87)
}

/// RFC 5297, 2.3, dbl: the block times x in the field of 2^128 elements.
#[tactic(auto, unfolding(crate::specs::Blocks::dbl))]
pub fn double(b: [u8; 16]) -> [u8; 16]
    ensures { result ≡ dbl b }
{
    block_of(times_x(number_of(b)))
}

// A block of zeros but for the first bit of the byte at `at`.
fn one_bit(at: usize) -> [u8; 16]
    requires { at < 16 }
    ensures { result ≡ slice_set zeros at 0x80 }
{
    let mut out = [0u8; 16];
    out[at] = 0x80;
    out
}

/// RFC 4493, 2.4, padding: the bytes of a block that is not whole, filled up to 16.
#[tactic(auto, using(crate::proofs::Padded::padded))]
pub fn pad(m: &[u8]) -> [u8; 16]
    requires { length m.now < 16 }
    ensures { result ≡ padding m.now }
{
    let mut out = one_bit(m.len());
    put(&mut out, 0, m);
    out
}

// Is the last block whole?
fn is_whole(m: &[u8]) -> bool
    ensures { result ≡ is_whole m.now }
{
    m.len() == 16
}

// RFC 4493, 2.4, M_last: the last block with its subkey, K1 if it is whole and K2 if it is padded.
#[tactic(auto, unfolding(crate::specs::Cmac::m_last))]
fn m_last(w: Schedule<'_>, m: &[u8]) -> [u8; 16]
    requires { length m.now ≤ 16 }
    ensures { result ≡ m_last (cipher_of w.entry) m.now }
{
    let k1 = double(w.encipher([0; 16]));
    if is_whole(m) {
        xor_of(part_of::<16>(m, 0), k1)
    } else {
        xor_of(pad(m), double(k1))
    }
}

// How many blocks of a message of `len` bytes come before its last.
fn blocks_before_last(len: usize) -> usize
    ensures { result ≡ blocks_before_last len }
{
    len.saturating_sub(1) / 16
}

// RFC 4493, 2.4, step 6: X after these blocks.
fn absorb(w: Schedule<'_>, blocks: &[[u8; 16]]) -> [u8; 16]
    ensures { result ≡ fold (λ x m. cipher_of w.entry (xors x m)) zeros blocks.now }
{
    blocks.iter().copied().fold(
        [0; 16],
        |x, m| -> [u8; 16]
            ensures { result ≡ cipher_of w.entry (xors x m) }
        { w.encipher(xor_of(x, m)) },
    )
}

/// RFC 4493, 2.4, AES-CMAC: the tag, of 16 bytes, of the message `m` of any length.
#[tactic(auto, using(crate::proofs::Chained::cmac_folds))]
pub fn mac(w: Schedule<'_>, m: &[u8]) -> [u8; 16]
    ensures { result ≡ cmac_of (cipher_of w.entry) m.now }
{
    let (before, last) = m.split_at(16 * blocks_before_last(m.len()));
    let x = absorb(w, before.as_chunks::<16>().0);
    w.encipher(xor_of(m_last(w, last), x))
}
