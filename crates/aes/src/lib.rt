//! AES of FIPS 197 with keys of 16 and 32 bytes. The key schedule is lent bytes.
#![tactic(auto)]

ghost use Rattle.std.specs.Prelude.{◌≡◌, ◌+◌, ◌*◌, ◌/◌, ◌<◌, ◌≤◌, length, take, reverse, IsTrue};
ghost use Rattle.std.specs.List.{fold};
ghost use Rattle.aes.specs.KeySchedule.{is_key_length, sub_word, rot_word, rcon, round_constant};
ghost use Rattle.aes.specs.KeySchedule.{temp, next_word, expanded_key, key_expansion};
ghost use Rattle.aes.specs.Rounds.{round_of, inv_round};
ghost use Rattle.aes.specs.Cipher.{round_key, encrypt, decrypt};
ghost use Rattle.aes.specs.Keyed.{cipher_of, inv_cipher_of, middle_keys};
ghost use Rattle.aes.specs.Laws.{EachKeyHasOneSchedule, AesPermutesBlocks};

mod round;
mod schedule;

use byte_strings::{part_of, put, xor_of};
use field::{Direction, Forward};
use round::{inv_last_round, inv_round, last_round, round_of};
pub use schedule::Schedule;

// SUBWORD.
fn sub_word(a: [u8; 4]) -> [u8; 4]
    ensures { result ≡ sub_word a }
{
    a.map(Forward::sub_byte)
}

// ROTWORD.
fn rot_word(a: [u8; 4]) -> [u8; 4]
    ensures { result ≡ rot_word a }
{
    [a[1], a[2], a[3], a[0]]
}

// The power j - 1 of x in the field, by a table: only j from 1 to 10 occurs in a schedule.
fn round_constant(j: usize) -> u8
    requires { j < 11 }
    ensures { result ≡ round_constant j }
{
    match j {
        0 => 0,
        1 => 0x01,
        2 => 0x02,
        3 => 0x04,
        4 => 0x08,
        5 => 0x10,
        6 => 0x20,
        7 => 0x40,
        8 => 0x80,
        9 => 0x1b,
        10 => 0x36,
        _ => unreachable!(),
    }
}

// Rcon[j].
fn rcon(j: usize) -> [u8; 4]
    requires { j < 11 }
    ensures { result ≡ rcon j }
{
    [round_constant(j), 0, 0, 0]
}

// What is added to the word nk places before word i, where `a` is the word before it.
fn temp(nk: usize, i: usize, a: [u8; 4]) -> [u8; 4]
    requires some { 0 < nk }
    requires few { i / nk < 11 }
    ensures { result ≡ temp nk i a }
{
    if i % nk == 0 {
        xor_of(sub_word(rot_word(a)), rcon(i / nk))
    } else if 6 < nk && i % nk == 4 {
        sub_word(a)
    } else {
        a
    }
}

// The word i of a schedule whose words before it are in `w`.
#[tactic(auto, unfolding(crate::specs::KeySchedule::next_word))]
fn next_word(w: &[u8], nk: usize, i: usize) -> [u8; 4]
    requires some { 0 < nk }
    requires past { nk ≤ i }
    requires room { 4 * i ≤ length w.now }
    requires few { i / nk < 11 }
    ensures { result ≡ next_word nk w.now i }
{
    xor_of(
        part_of(w, 4 * (i - nk)),
        temp(nk, i, part_of(w, 4 * (i - 1))),
    )
}

// Writes the words behind the nk of the key, with which `w` begins.
fn expand_words(w: &mut [u8], nk: usize)
    requires least { 4 ≤ nk }
    requires most { nk ≤ 8 }
    requires room { length w.old ≡ 16 * nk + 112 }
    ensures { w.new ≡ expanded_key nk (take (4 * nk) w.old) (3 * nk + 28) }
{
    // By index: what the word is made of goes by its number.
    for i in nk..4 * nk + 28 {
        let next = next_word(w, nk, i);
        put(w, 4 * i, &next);
    }
}

/// KEYEXPANSION: writes the key's schedule over `w`, 176 bytes for a key of 16 and 240 for one of
/// 32.
#[tactic(auto, using(crate::proofs::Words::key_expanded))]
pub fn key_expansion<const N: usize>(key: [u8; N], w: &mut [u8])
    requires length { IsTrue (is_key_length N) }
    requires room { length w.old ≡ 4 * N + 112 }
    ensures { w.new ≡ key_expansion key.entry }
{
    put(w, 0, &key);
    expand_words(w, N / 4);
}

// The rounds of CIPHER under these keys.
fn middle_rounds(s: [u8; 16], keys: &[[u8; 16]]) -> [u8; 16]
    ensures { result ≡ fold round_of s keys.now }
{
    keys.iter().copied().fold(s, round_of)
}

// The rounds of INVCIPHER under these keys, the last key first.
fn inv_middle_rounds(s: [u8; 16], keys: &[[u8; 16]]) -> [u8; 16]
    ensures { result ≡ fold inv_round s (reverse keys.now) }
{
    keys.iter().copied().rev().fold(s, inv_round)
}

impl<'a> Schedule<'a> {
    /// The schedule of so many rounds with which `bytes` begin.
    pub fn over(bytes: &'a [u8], rounds: usize) -> Schedule<'a>
        requires some { 1 ≤ rounds }
        requires whole { 16 * rounds + 16 ≤ length bytes.now }
        ensures bytes { result.bytes.now ≡ bytes.now }
        ensures rounds { result.rounds ≡ rounds }
    {
        Schedule { bytes, rounds }
    }

    /// The key's schedule, written over `w`.
    pub fn expand<const N: usize>(key: [u8; N], w: &'a mut [u8]) -> Schedule<'a>
        requires length { IsTrue (is_key_length N) }
        requires room { length w.old ≡ 4 * N + 112 }
        ensures bytes { result.bytes.now ≡ key_expansion key.entry }
        ensures rounds { result.rounds ≡ N / 4 + 6 }
        ensures cipher { cipher_of result ≡ encrypt key.entry }
        ensures inverse { inv_cipher_of result ≡ decrypt key.entry }
    {
        key_expansion(key, w);
        Schedule::over(w, N / 4 + 6)
    }

    // The key of round r.
    fn round_key(self, r: usize) -> [u8; 16]
        requires { r ≤ self.rounds }
        ensures { result ≡ round_key self.entry.bytes.now r }
    {
        part_of(self.bytes, 16 * r)
    }

    // The round keys between the first and the last.
    fn middle_keys(self) -> &'a [[u8; 16]]
        ensures { result.now ≡ middle_keys self.entry }
    {
        self.bytes[16..16 * self.rounds].as_chunks::<16>().0
    }

    /// CIPHER: the block through all rounds.
    #[tactic(auto, using(crate::proofs::Turns::cipher_by))]
    pub fn encipher(self, block: [u8; 16]) -> [u8; 16]
        ensures { result ≡ cipher_of self.entry block }
    {
        let s = middle_rounds(xor_of(block, self.round_key(0)), self.middle_keys());
        last_round(s, self.round_key(self.rounds))
    }

    /// INVCIPHER: the block back through all rounds.
    #[tactic(auto, using(crate::proofs::Turns::inv_cipher_by))]
    pub fn decipher(self, block: [u8; 16]) -> [u8; 16]
        ensures { result ≡ inv_cipher_of self.entry block }
    {
        let s = inv_middle_rounds(
            xor_of(block, self.round_key(self.rounds)),
            self.middle_keys(),
        );
        inv_last_round(s, self.round_key(0))
    }
}

/// The key expansion is the one schedule that the standard describes word by word.
pub fn each_key_has_one_schedule()
    ensures { EachKeyHasOneSchedule }
{}

/// Decrypting undoes encrypting, and encrypting undoes decrypting, for every key and block.
pub fn aes_permutes_blocks()
    ensures { AesPermutesBlocks }
{}
