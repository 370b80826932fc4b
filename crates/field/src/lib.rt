//! The field of 256 elements of FIPS 197, section 4, the two S-boxes, and the mixing of a column.
#![tactic(auto)]

ghost use Rattle.std.specs.Prelude.{◌≡◌, ℕ};
ghost use Rattle.std.specs.Int.{to_le_bytes, w32};
ghost use Rattle.field.specs.Field.{s_box, inv_s_box, mix_share, inv_mix_share};
ghost use Rattle.field.specs.Field.{shares_of, sum_of_shares, column_of};
ghost use Rattle.field.specs.Laws.{BoxesUndo, InverseInverts, ProductDistributes, ColumnsUndo, BoxExamplesHold};

mod inv_s_box;
mod inv_shares;
mod s_box;
mod shares;

use inv_s_box::inv_s_box_entry;
use inv_shares::inv_shares_entry;
use s_box::s_box_entry;
use shares::shares_entry;

/// A direction of AES: its S-box, and its mixing of a column.
pub trait Direction {
    // A byte through the S-box.
    ghost box_of: { ℕ → ℕ };

    // What a byte gives to the byte i places below it, round its column.
    ghost share: { ℕ → ℕ → ℕ };

    /// A byte through the S-box.
    fn sub_byte(b: u8) -> u8
        ensures { result ≡ box_of b };

    /// The four shares that a byte gives: that to its own place in the lowest byte, then those to
    /// the places below it.
    fn shares(b: u8) -> u32
        ensures { to_le_bytes w32 result ≡ shares_of share b };
}

/// Of CIPHER: the S-box of SUBBYTES, and the shares of MIXCOLUMNS after SUBBYTES.
pub struct Forward;

impl Direction for Forward {
    ghost box_of = { s_box };

    ghost share = { λ i b. mix_share i (s_box b) };

    fn sub_byte(b: u8) -> u8 {
        s_box_entry(b)
    }

    fn shares(b: u8) -> u32 {
        shares_entry(b)
    }
}

/// Of INVCIPHER: the S-box of INVSUBBYTES, and the shares of INVMIXCOLUMNS.
pub struct Inverse;

impl Direction for Inverse {
    ghost box_of = { inv_s_box };

    ghost share = { inv_mix_share };

    fn sub_byte(b: u8) -> u8 {
        inv_s_box_entry(b)
    }

    fn shares(b: u8) -> u32 {
        inv_shares_entry(b)
    }
}

/// A mixed column: the sum of its bytes' shares, each word turned to its byte's place.
#[tactic(auto, using(crate::proofs::Words::mixed_word))]
pub fn mix_column<D: Direction>(a: u8, b: u8, c: u8, d: u8) -> [u8; 4]
    ensures { result ≡ column_of (sum_of_shares D.share) a b c d }
{
    let sum = D::shares(a)
        ^ (D::shares(b).rotate_left(8)
            ^ (D::shares(c).rotate_left(16) ^ D::shares(d).rotate_left(24)));
    sum.to_le_bytes()
}

/// What the cipher needs of the field.
pub fn field_laws()
    ensures boxes { BoxesUndo }
    ensures inverses { InverseInverts }
    ensures linear { ProductDistributes }
    ensures columns { ColumnsUndo }
    ensures examples { BoxExamplesHold }
{}
