//! The commands of a line.
ghost use Rattle.std.specs.Prelude.{◌≡◌, [], ◌∷◌, ◌++◌, Some};
ghost use Rattle.aes.specs.Cipher.{encrypt, decrypt};
ghost use Rattle.aes.specs.Keyed.{cipher_of, inv_cipher_of};
ghost use Rattle.cmac.specs.Cmac.{cmac as cmac_of};
ghost use Rattle.wrap_rules.specs.Siv.{siv as siv_of};
ghost use Rattle.wraptool.specs.Answers.{key_bytes, Shows, content_if_sized};

use crate::fault::{Fault, Part};
use crate::hex::decode;
use aes::Schedule;
use byte_strings::part_of;
use cmac::mac;
use kinds::{Kind, WrapJob};
use siv::Halves;
use std::alloc::Global;
use wrap::{WORKING_BYTES, Wrap};

// The bytes of a word: digits, or a dash for none.
fn bytes_of(heap: Global, word: &str) -> Result<Vec<u8>, Fault> {
    if word == "-" {
        return Ok(Vec::new(heap));
    }
    Ok(decode(heap, word.as_bytes())?)
}

// A word of exactly N bytes.
fn array_of<const N: usize>(heap: Global, word: &str, part: Part) -> Result<[u8; N], Fault> {
    let bytes = bytes_of(heap, word)?;
    if bytes.len() != N {
        return Err(Fault::Length {
            part,
            bytes: bytes.len(),
            wanted: N,
        });
    }
    Ok(part_of::<N>(bytes.as_slice(), 0))
}

#[derive(Clone, Copy)]
enum AesKey {
    Short([u8; 16]),
    Long([u8; 32]),
}

impl AesKey {
    fn of(heap: Global, word: &str) -> Result<AesKey, Fault> {
        let bytes = bytes_of(heap, word)?;
        match bytes.len() {
            16 => Ok(AesKey::Short(part_of(bytes.as_slice(), 0))),
            32 => Ok(AesKey::Long(part_of(bytes.as_slice(), 0))),
            n => Err(Fault::AesKeyLength { bytes: n }),
        }
    }

    fn expand(self, w: &mut [u8; 240]) -> Schedule<'_>
        ensures cipher { cipher_of result ≡ encrypt (key_bytes self) }
        ensures inverse { inv_cipher_of result ≡ decrypt (key_bytes self) }
    {
        match self {
            AesKey::Short(key) => Schedule::expand(key, &mut w[..176]),
            AesKey::Long(key) => Schedule::expand(key, w),
        }
    }

    // Encrypting and decrypting are two lines each, and no shorter as one function.
    fn encrypt(self, block: [u8; 16]) -> [u8; 16]
        ensures { result ≡ encrypt (key_bytes self) block }
    {
        let mut w = [0; 240];
        self.expand(&mut w).encipher(block)
    }

    fn decrypt(self, block: [u8; 16]) -> [u8; 16]
        ensures { result ≡ decrypt (key_bytes self) block }
    {
        let mut w = [0; 240];
        self.expand(&mut w).decipher(block)
    }
}

fn tag(key: [u8; 16], message: &[u8]) -> [u8; 16]
    ensures { result ≡ cmac_of (encrypt key) message.now }
{
    let mut w = [0; 176];
    mac(Schedule::expand(key, &mut w), message)
}

// Seals the text in place, and returns its synthetic IV.
fn siv_of_text(key: [u8; 32], string: &[u8], text: &mut [u8]) -> [u8; 16]
    ensures { result ++ text.new ≡ siv_of key (string.now ∷ []) text.old }
{
    let mut w1 = [0u8; 176];
    let mut w2 = [0u8; 176];
    Halves::expand(key, &mut w1, &mut w2).seal_in_place(string, text)
}

// A sealing that is asked for, by whichever wrap.
#[derive(Clone, Copy)]
struct SealJob {
    heap: Global,
    key: [u8; 32],
    name: [u8; 10],
    content: [u8; 32],
}

impl WrapJob for SealJob {
    type Output = Result<Vec<u8>, Fault>;

    ghost gives = { λ w s result _. Shows result (Some (w.seals s.key s.name s.content)) };

    fn run<W: Wrap>(&mut self, wrap: &W) -> Result<Vec<u8>, Fault> {
        let mut out = [0; 64];
        let mut work = [0; WORKING_BYTES];
        // The faults are named: a derived conversion promises nothing of what it makes.
        wrap.seal(self.key, self.name, self.content, &mut out, &mut work)
            .map_err(Fault::Refused)?;
        let n = wrap.sealed_len();
        out[0..n].to_vec(self.heap).map_err(Fault::NoMemory)
    }
}

// An opening that is asked for, by whichever wrap.
#[derive(Clone, Copy)]
struct OpenJob<'a> {
    heap: Global,
    key: [u8; 32],
    name: [u8; 10],
    bytes: &'a [u8],
}

impl WrapJob for OpenJob<'_> {
    type Output = Result<Vec<u8>, Fault>;

    ghost gives = { λ w s result _. Shows result
        (content_if_sized w.length s.bytes.now (w.opens s.key s.name s.bytes.now)) };

    fn run<W: Wrap>(&mut self, wrap: &W) -> Result<Vec<u8>, Fault> {
        let mut place = [0; 32];
        let mut work = [0; WORKING_BYTES];
        wrap.open(self.key, self.name, self.bytes, &mut place, &mut work)
            .map_err(Fault::Refused)?;
        place.to_vec(self.heap).map_err(Fault::NoMemory)
    }
}

// A line of AES in either direction.
fn aes_line<F: FnOnce(AesKey, [u8; 16]) -> [u8; 16]>(
    heap: Global,
    direction: F,
    key: &str,
    block: &str,
) -> Result<Vec<u8>, Fault>
    requires { F.IsAlwaysCallable direction }
{
    let key = AesKey::of(heap, key)?;
    let block = array_of(heap, block, Part::Block)?;
    Ok(direction(key, block).to_vec(heap)?)
}

fn tag_line(heap: Global, key: &str, message: &str) -> Result<Vec<u8>, Fault> {
    let key = array_of(heap, key, Part::Key)?;
    let message = bytes_of(heap, message)?;
    Ok(tag(key, message.as_slice()).to_vec(heap)?)
}

fn siv_line(heap: Global, key: &str, string: &str, text: &str) -> Result<Vec<u8>, Fault> {
    let key = array_of(heap, key, Part::Key)?;
    let string = bytes_of(heap, string)?;
    let mut text = bytes_of(heap, text)?;
    let v = siv_of_text(key, string.as_slice(), text.as_mut_slice());
    let mut out = v.to_vec(heap)?;
    out.extend_from_slice(text.as_slice())?;
    Ok(out)
}

fn seal_line(
    heap: Global,
    kind: &str,
    key: &str,
    name: &str,
    content: &str,
) -> Result<Vec<u8>, Fault> {
    let kind: Kind = kind.parse()?;
    let key = array_of(heap, key, Part::Key)?;
    let name = array_of(heap, name, Part::Name)?;
    let content = array_of(heap, content, Part::Content)?;
    kind.run(&mut SealJob {
        heap,
        key,
        name,
        content,
    })
}

fn open_line(
    heap: Global,
    kind: &str,
    key: &str,
    name: &str,
    bytes: &str,
) -> Result<Vec<u8>, Fault> {
    let kind: Kind = kind.parse()?;
    let key = array_of(heap, key, Part::Key)?;
    let name = array_of(heap, name, Part::Name)?;
    let bytes = bytes_of(heap, bytes)?;
    kind.run(&mut OpenJob {
        heap,
        key,
        name,
        bytes: bytes.as_slice(),
    })
}

/// Carries out a command on the words that follow it.
pub(crate) fn carry_out(heap: Global, command: &str, parts: &[&str]) -> Result<Vec<u8>, Fault> {
    match (command, parts) {
        ("encrypt", [key, block]) => aes_line(heap, AesKey::encrypt, key, block),
        ("decrypt", [key, block]) => aes_line(heap, AesKey::decrypt, key, block),
        ("mac", [key, message]) => tag_line(heap, key, message),
        ("siv", [key, string, text]) => siv_line(heap, key, string, text),
        ("seal", [kind, key, name, content]) => seal_line(heap, kind, key, name, content),
        ("open", [kind, key, name, bytes]) => open_line(heap, kind, key, name, bytes),
        ("encrypt" | "decrypt" | "mac", _) => Err(Fault::WordCount { wanted: 3 }),
        ("siv", _) => Err(Fault::WordCount { wanted: 4 }),
        ("seal" | "open", _) => Err(Fault::WordCount { wanted: 5 }),
        _ => Err(Fault::UnknownCommand),
    }
}
