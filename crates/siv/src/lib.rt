//! AES-SIV, RFC 5297: sealing and opening in place, for strings and texts of any length.
#![tactic(auto)]

ghost use Rattle.std.specs.Prelude.{◌≡◌, [], ◌∷◌, ◌++◌, length, take, drop, is_some, unwrap_or};
ghost use Rattle.aes.specs.Cipher.{encrypt};
ghost use Rattle.aes.specs.Keyed.{cipher_of};
ghost use Rattle.wrap_rules.specs.Siv.{siv_encrypt, is_synthetic_iv, decrypted_text, siv};
ghost use Rattle.wrap_rules.specs.Meanings.{rfc_5297};
ghost use Rattle.wrap_rules.proofs.Lawful.{rfc_5297_lawful};

use aes::Schedule;
use byte_strings::{equal, part_of, put};
use wrap::{Working, Wrap};

mod counter;
mod s2v;

pub use counter::ctr;
pub use s2v::synthetic_iv;

/// The size of the schedule of a 16-byte key, in bytes.
const SCHEDULE: usize = 176;

/// The size of a sealing: 32 bytes with their IV.
const SEALED: usize = 48;

/// The number that stands for this wrap in a file.
const KIND: u8 = 2;

/// The schedules of the key's halves: of K1, for S2V, and of K2, for the counter mode.
#[derive(Clone, Copy)]
pub struct Halves<'a> {
    pub k1: Schedule<'a>,
    pub k2: Schedule<'a>,
}

impl<'a> Halves<'a> {
    /// The schedules of a key's halves, written over `w1` and `w2`, which a caller may have in two
    /// places.
    pub fn expand(key: [u8; 32], w1: &'a mut [u8], w2: &'a mut [u8]) -> Halves<'a>
        requires room1 { length w1.old ≡ 176 }
        requires room2 { length w2.old ≡ 176 }
        ensures first { cipher_of result.k1 ≡ encrypt (take 16 key) }
        ensures second { cipher_of result.k2 ≡ encrypt (drop 16 key) }
    {
        Halves {
            k1: Schedule::expand(part_of::<16>(&key, 0), w1),
            k2: Schedule::expand(part_of::<16>(&key, 16), w2),
        }
    }

    /// Seals the text in place: returns V, and the text becomes C.
    pub fn seal_in_place(self, string: &[u8], text: &mut [u8]) -> [u8; 16]
        ensures { result ++ text.new
            ≡ siv_encrypt (cipher_of self.entry.k1) (cipher_of self.entry.k2)
            (string.now ∷ []) text.old }
    {
        let v = synthetic_iv(self.k1, string, text);
        ctr(self.k2, v, text);
        v
    }

    /// Opens the text in place: C becomes P where V is that of P, and else is the C that it was.
    /// Returns whether it opened.
    pub fn open_in_place(self, string: &[u8], v: [u8; 16], text: &mut [u8]) -> bool
        ensures answer { result
            ≡ is_some (decrypted_text (cipher_of self.entry.k1) (cipher_of self.entry.k2)
            (string.now ∷ []) v text.old) }
        ensures left { text.new
            ≡ unwrap_or (decrypted_text (cipher_of self.entry.k1) (cipher_of self.entry.k2)
            (string.now ∷ []) v text.old) text.old }
    {
        ctr(self.k2, v, text);
        if accepts(self.k1, string, v, text) {
            return true;
        }
        ctr(self.k2, v, text); // back to C
        false
    }

    // Opens a ciphertext of 32 bytes, by value.
    fn open(self, string: &[u8], v: [u8; 16], ciphertext: [u8; 32]) -> Option<[u8; 32]>
        ensures { result
            ≡ decrypted_text (cipher_of self.entry.k1) (cipher_of self.entry.k2)
            (string.now ∷ []) v ciphertext }
    {
        let mut text = ciphertext;
        self.open_in_place(string, v, &mut text).then_some(text)
    }
}

/// Is `v` the synthetic IV of the string and the text?
fn accepts(w: Schedule<'_>, string: &[u8], v: [u8; 16], text: &mut [u8]) -> bool
    ensures answer { result ≡ is_synthetic_iv (cipher_of w.entry) (string.now ∷ []) v text.old }
    ensures kept { text.new ≡ text.old }
{
    let t = synthetic_iv(w, string, text);
    equal(&t, &v)
}

// Seals the text in place under the key: returns V, and the text becomes C.
fn seal_under(
    key: [u8; 32],
    string: &[u8],
    text: &mut [u8],
    w1: &mut [u8],
    w2: &mut [u8],
) -> [u8; 16]
    requires room1 { length w1.old ≡ 176 }
    requires room2 { length w2.old ≡ 176 }
    ensures { result ++ text.new ≡ siv key (string.now ∷ []) text.old }
{
    let keys = Halves::expand(key, w1, w2);
    keys.seal_in_place(string, text)
}

/// AES-SIV under two 128-bit keys, with the name as its one associated string.
#[derive(Clone, Copy)]
pub struct Siv;

impl Wrap for Siv {
    ghost meaning = { rfc_5297 };

    ghost lawful = { rfc_5297_lawful };

    fn kind(&self) -> u8 {
        KIND
    }

    fn sealed_len(&self) -> usize {
        SEALED
    }

    fn seal_to(
        &self,
        key: [u8; 32],
        name: [u8; 10],
        content: [u8; 32],
        out: &mut [u8],
        work: &mut [u8],
    ) {
        let guard = Working { bytes: work };
        let (w1, rest) = guard.bytes.split_at_mut(SCHEDULE);
        let (w2, _) = rest.split_at_mut(SCHEDULE);
        let mut text = content;
        let v = seal_under(key, &name, &mut text, w1, w2);
        put(out, 0, &v);
        put(out, 16, &text);
    }

    fn open_from(
        &self,
        key: [u8; 32],
        name: [u8; 10],
        bytes: &[u8],
        work: &mut [u8],
    ) -> Option<[u8; 32]> {
        let guard = Working { bytes: work };
        let (w1, rest) = guard.bytes.split_at_mut(SCHEDULE);
        let (w2, _) = rest.split_at_mut(SCHEDULE);
        let v = part_of::<16>(bytes, 0);
        let ciphertext = part_of::<32>(bytes, 16);
        Halves::expand(key, w1, w2).open(&name, v, ciphertext)
    }
}
