//! The rounds of AES on a state of 16 bytes, by value: FIPS 197, 5.1 and 5.3.

ghost use Rattle.std.specs.Prelude.{◌≡◌, ◌<◌, ◌≤◌, map};
ghost use Rattle.std.specs.Int.{to_le_bytes, w64};
ghost use Rattle.byte_strings.specs.Strings.{part};
ghost use Rattle.field.specs.Field.{sum_of_shares};
ghost use Rattle.aes.specs.Rounds.{round_of, last_round, inv_round, inv_last_round};
ghost use Rattle.aes.specs.State.{shift_rows, inv_shift_rows, mapped_columns, add_round_key};

use byte_strings::part_of;
use field::{Direction, Forward, Inverse, mix_column};
use std::array;

// SUBBYTES and INVSUBBYTES.
fn sub_bytes<D: Direction>(s: [u8; 16]) -> [u8; 16]
    ensures { result ≡ map D.box_of s }
{
    s.map(|b| D::sub_byte(b))
}

// Row r turned left by r places, so many times: once is SHIFTROWS, three times is INVSHIFTROWS.
fn turn_rows(s: [u8; 16], times: usize) -> [u8; 16]
    requires { times < 4 }
    ensures once { times ≡ 1 → result ≡ shift_rows s }
    ensures thrice { times ≡ 3 → result ≡ inv_shift_rows s }
{
    array::from_fn(|i| s[(i + 4 * times * (i % 4)) % 16])
}

// MIXCOLUMNS after SUBBYTES, and INVMIXCOLUMNS: the columns go one by one, as words.
fn mix_columns<D: Direction>(s: [u8; 16]) -> [u8; 16]
    ensures { result ≡ mapped_columns (sum_of_shares D.share) s }
{
    let a = mix_column::<D>(s[0], s[1], s[2], s[3]);
    let b = mix_column::<D>(s[4], s[5], s[6], s[7]);
    let c = mix_column::<D>(s[8], s[9], s[10], s[11]);
    let d = mix_column::<D>(s[12], s[13], s[14], s[15]);
    [
        a[0], a[1], a[2], a[3], b[0], b[1], b[2], b[3], c[0], c[1], c[2], c[3], d[0], d[1], d[2],
        d[3],
    ]
}

// The 8 bytes from place `at` on, as a number.
fn half(s: [u8; 16], at: usize) -> u64
    requires { at ≤ 8 }
    ensures { to_le_bytes w64 result ≡ part 8 at s }
{
    u64::from_le_bytes(part_of(&s, at))
}

// ADDROUNDKEY, by halves: so the compiler keeps a state in two registers from round to round.
#[tactic(auto, using(crate::proofs::StateWords::by_halves))]
fn add_round_key(s: [u8; 16], k: [u8; 16]) -> [u8; 16]
    ensures { result ≡ add_round_key s k }
{
    let a = (half(s, 0) ^ half(k, 0)).to_le_bytes();
    let b = (half(s, 8) ^ half(k, 8)).to_le_bytes();
    [
        a[0], a[1], a[2], a[3], a[4], a[5], a[6], a[7], b[0], b[1], b[2], b[3], b[4], b[5], b[6],
        b[7],
    ]
}

/// A round of CIPHER: SUBBYTES, SHIFTROWS, MIXCOLUMNS, ADDROUNDKEY. SUBBYTES goes byte by byte, so it
/// may come after SHIFTROWS.
#[tactic(auto, using(crate::proofs::StateWords::shares_after_box))]
pub(crate) fn round_of(s: [u8; 16], k: [u8; 16]) -> [u8; 16]
    ensures { result ≡ round_of s k }
{
    add_round_key(mix_columns::<Forward>(turn_rows(s, 1)), k)
}

/// The last round of CIPHER, without MIXCOLUMNS.
pub(crate) fn last_round(s: [u8; 16], k: [u8; 16]) -> [u8; 16]
    ensures { result ≡ last_round s k }
{
    add_round_key(turn_rows(sub_bytes::<Forward>(s), 1), k)
}

/// A round of INVCIPHER: INVSHIFTROWS, INVSUBBYTES, ADDROUNDKEY, INVMIXCOLUMNS.
#[tactic(auto, unfolding(crate::specs::State::inv_mix_columns))]
pub(crate) fn inv_round(s: [u8; 16], k: [u8; 16]) -> [u8; 16]
    ensures { result ≡ inv_round s k }
{
    mix_columns::<Inverse>(add_round_key(sub_bytes::<Inverse>(turn_rows(s, 3)), k))
}

/// The last round of INVCIPHER, without INVMIXCOLUMNS.
pub(crate) fn inv_last_round(s: [u8; 16], k: [u8; 16]) -> [u8; 16]
    ensures { result ≡ inv_last_round s k }
{
    add_round_key(sub_bytes::<Inverse>(turn_rows(s, 3)), k)
}
