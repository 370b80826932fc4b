//! The shift register of RFC 3394: A | R[1] | R[2] | R[3] | R[4], five blocks of 64 bits.
ghost use Rattle.std.specs.Prelude.{◌≡◌, ◌++◌};
ghost use Rattle.aes.specs.Keyed.{cipher_of, inv_cipher_of};
ghost use Rattle.byte_strings.specs.Strings.{xors};
ghost use Rattle.wrap_rules.specs.KeyWrap.{initial_value, msb64, lsb64, word64, wrap_step, unwrap_step, wrap_steps, unwrap_steps, recovered_content};

use aes::Schedule;
use byte_strings::{equal, part_of, put, xor_of};

/// Six steps for each of the four blocks.
const STEPS: u8 = 24;

/// The default initial value.
fn initial_value() -> [u8; 8]
    ensures { result ≡ initial_value }
{
    [0xa6; 8]
}

/// MSB(64, block). It and LSB are the RFC's words; one function of a place would be `part_of` again.
fn msb(block: [u8; 16]) -> [u8; 8]
    ensures { result ≡ msb64 block }
{
    part_of(&block, 0)
}

/// LSB(64, block)
fn lsb(block: [u8; 16]) -> [u8; 8]
    ensures { result ≡ lsb64 block }
{
    part_of(&block, 8)
}

/// a ^ t, with t as a 64-bit number
fn xor_count(a: [u8; 8], t: u8) -> [u8; 8]
    ensures { result ≡ xors a (word64 t) }
{
    xor_of(a, [0, 0, 0, 0, 0, 0, 0, t])
}

/// a | r
fn concat(a: [u8; 8], r: [u8; 8]) -> [u8; 16]
    ensures { result ≡ a ++ r }
{
    let mut block = [0; 16];
    put(&mut block, 0, &a);
    put(&mut block, 8, &r);
    block
}

/// Step t: enciphers A | R[1], and shifts R by one block.
fn wrap_step(w: Schedule<'_>, t: u8, s: &mut [u8; 40])
    ensures { s.new ≡ wrap_step (cipher_of w.entry) t s.old }
{
    let b = w.encipher(part_of(s, 0));
    let r: [u8; 24] = part_of(s, 16);
    put(s, 0, &xor_count(msb(b), t));
    put(s, 8, &r);
    put(s, 32, &lsb(b));
}

/// Step t back: deciphers (A ^ t) | R[4], and shifts R by one block.
fn unwrap_step(w: Schedule<'_>, t: u8, s: &mut [u8; 40])
    ensures { s.new ≡ unwrap_step (inv_cipher_of w.entry) t s.old }
{
    let a = xor_count(part_of(s, 0), t);
    let b = w.decipher(concat(a, part_of(s, 32)));
    let r: [u8; 24] = part_of(s, 8);
    put(s, 0, &b);
    put(s, 16, &r);
}

/// The register before the first step.
pub fn start(content: [u8; 32], s: &mut [u8; 40])
    ensures { s.new ≡ initial_value ++ content }
{
    put(s, 0, &initial_value());
    put(s, 8, &content);
}

/// All steps, under the key schedule `w`.
pub fn wrap_register(w: Schedule<'_>, s: &mut [u8; 40])
    ensures { s.new ≡ wrap_steps (cipher_of w.entry) 24 s.old }
{
    for t in 1..=STEPS {
        wrap_step(w, t, s);
    }
}

/// All steps back, under the key schedule `w`.
pub fn unwrap_register(w: Schedule<'_>, s: &mut [u8; 40])
    ensures { s.new ≡ unwrap_steps (inv_cipher_of w.entry) 24 s.old }
{
    for t in (1..=STEPS).rev() {
        unwrap_step(w, t, s);
    }
}

/// What the register started with, if A is the initial value.
pub fn recover(s: &[u8; 40]) -> Option<[u8; 32]>
    ensures { result ≡ recovered_content s.now }
{
    equal(&s[0..8], &initial_value()).then_some(part_of(s, 8))
}
