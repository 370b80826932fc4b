//! The player and the two key wraps for C, as include/nannyseason.h declares them. Each function is
//! the call that it is named after. Beyond the refusals of that call it refuses as misuse what the
//! Rust types of the call turn down.
#![tactic(auto)]

ghost use Rattle.std.specs.Prelude.{◌≡◌, Some};
ghost use Rattle.std.specs.Result.{result_unwrap_or};
ghost use Rattle.wrap.specs.Calls.{work_after};
ghost use Rattle.kinds.specs.Kinds.{wrap_of_number};
ghost use Rattle.player_rules.specs.Players.{enrol_verdict, ring_after_enrol, wipe};
ghost use Rattle.nannyseason.specs.Answers.{verdict_answer};
ghost use Rattle.nannyseason.specs.Wraps.{seal_call_verdict, buffer_after_seal_call, open_call_verdict, place_after_open_call};
ghost use Rattle.nannyseason.specs.Players.{read_call, stored_call_verdict, stored_after_call, ring_after_call, show_call_verdict, stored_after_enrol};

mod answer;
mod players;
mod wraps;

pub use answer::Answer;
use answer::{DONE, MISUSE};
use kinds::Kind;
use player::AnyPlayer;
pub use player::Stored;
use players::{ReadJob, keep, restore_from};
use wraps::{OpenJob, SealJob, misuse_answer};

/// Seals `content` by the wrap of that kind, and clears `work`. The checks are in this order: a
/// kind that is neither 1 nor 2, or a key, name or content that is not 32, 10 and 32 bytes long
/// (64), fewer than `WORKING_BYTES` of `work` (9, `work` is left as it is), too short a `sealed`
/// (12, with the bytes needed).
#[unsafe(no_mangle)]
pub extern "C" fn nannyseason_seal(
    kind: u8,
    key: &[u8],
    name: &[u8],
    content: &[u8],
    sealed: &mut [u8],
    work: &mut [u8],
) -> Answer
    ensures answer { result
        ≡ verdict_answer (seal_call_verdict (wrap_of_number kind)
        key.now name.now content.now sealed.old work.old) }
    ensures written { sealed.new
        ≡ buffer_after_seal_call (wrap_of_number kind)
        key.now name.now content.now sealed.old work.old }
    ensures cleared { work.new ≡ work_after work.old }
{
    let Ok(kind) = Kind::try_from(kind) else {
        return misuse_answer(work);
    };
    let mut job = SealJob {
        key,
        name,
        content,
        sealed,
        work,
    };
    kind.run(&mut job)
}

/// Opens `sealed` by the wrap of that kind, writes what was sealed to `content`, and clears `work`.
/// The checks are in this order: a kind that is neither 1 nor 2, or a key, name or content that is
/// not 32, 10 and 32 bytes long (64), fewer than `WORKING_BYTES` of `work` (9, `work` is left as it
/// is), bytes of another length or that no sealing wrote (18).
#[unsafe(no_mangle)]
pub extern "C" fn nannyseason_open(
    kind: u8,
    key: &[u8],
    name: &[u8],
    sealed: &[u8],
    content: &mut [u8],
    work: &mut [u8],
) -> Answer
    ensures answer { result
        ≡ verdict_answer (open_call_verdict (wrap_of_number kind)
        key.now name.now sealed.now content.old work.old) }
    ensures written { content.new
        ≡ place_after_open_call (wrap_of_number kind)
        key.now name.now sealed.now content.old work.old }
    ensures cleared { work.new ≡ work_after work.old }
{
    let Ok(kind) = Kind::try_from(kind) else {
        return misuse_answer(work);
    };
    let mut job = OpenJob {
        key,
        name,
        sealed,
        content,
        work,
    };
    kind.run(&mut job)
}

/// Enrols the player that a card is for. The checks are in this order: a ring that is not
/// `RING_BYTES` long (14), bytes that are not a card, which has `CARD_BYTES` (13, with the place of
/// the first fault).
#[unsafe(no_mangle)]
pub extern "C" fn nannyseason_enrol(card: &[u8], stored: &mut Stored, ring: &mut [u8]) -> Answer
    ensures answer { result ≡ verdict_answer (enrol_verdict card.now ring.old) }
    ensures player { stored.new
        ≡ stored_after_enrol (enrol_verdict card.now ring.old) stored.old }
    ensures ring { ring.new ≡ ring_after_enrol card.now ring.old }
{
    match player::enrol(card, ring) {
        Ok(player) => keep(AnyPlayer::from(player), stored),
        Err(fault) => Answer::from(fault),
    }
}

/// Reads a file, whose wraps are of that kind, into the ring of the player, and clears `work`. The
/// checks are in this order: a kind that is neither 1 nor 2, numbers that no player has, or a wiped
/// player (64), fewer than `WORKING_BYTES` of `work` (9, `work` is left as it is), a ring that is
/// not `RING_BYTES` long (14), bytes that are not a rekey file of this wrap (15, with the place of
/// the first fault), an epoch that is too low (16) or too high (17, both with the epoch wanted). On
/// the way up come a wrap that does not open (18, with its index and the file's epoch) and a listed
/// node that the ring has no opener for (19, with the node).
#[unsafe(no_mangle)]
pub extern "C" fn nannyseason_read(
    kind: u8,
    file: &[u8],
    stored: &mut Stored,
    ring: &mut [u8],
    work: &mut [u8],
) -> Answer
    ensures answer { result
        ≡ verdict_answer (stored_call_verdict
        (read_call (wrap_of_number kind) file.now work.old) stored.old ring.old) }
    ensures player { stored.new
        ≡ stored_after_call
        (read_call (wrap_of_number kind) file.now work.old) stored.old ring.old }
    ensures ring { ring.new
        ≡ ring_after_call
        (read_call (wrap_of_number kind) file.now work.old) stored.old ring.old }
    ensures cleared { work.new ≡ work_after work.old }
{
    let Ok(kind) = Kind::try_from(kind) else {
        return misuse_answer(work);
    };
    let mut job = ReadJob {
        file,
        stored,
        ring,
        work,
    };
    kind.run(&mut job)
}

/// Writes the group key of a seated player to `key`. The checks are in this order: a `key` that is
/// not 32 bytes long, numbers that no player has, or a player that is not seated (64), a ring that
/// is not `RING_BYTES` long (14).
#[unsafe(no_mangle)]
pub extern "C" fn nannyseason_show(stored: &Stored, ring: &[u8], key: &mut [u8]) -> Answer
    ensures answer { result ≡ verdict_answer (show_call_verdict stored.now ring.now key.old) }
    ensures written { key.new
        ≡ result_unwrap_or (show_call_verdict stored.now ring.now key.old) key.old }
{
    let Some(place) = key.as_mut_array() else {
        return MISUSE;
    };
    let Some(AnyPlayer::Seated(player)) = restore_from(stored) else {
        return MISUSE;
    };
    match player.show(ring) {
        Ok(group_key) => {
            *place = group_key;
            DONE
        }
        Err(fault) => Answer::from(fault),
    }
}

/// Makes zeros of the ring of a player that is not wiped. The checks are in this order: numbers
/// that no player has, or a wiped player (64), a ring that is not `RING_BYTES` long (14).
#[unsafe(no_mangle)]
pub extern "C" fn nannyseason_wipe(stored: &mut Stored, ring: &mut [u8]) -> Answer
    ensures answer { result ≡ verdict_answer (stored_call_verdict (Some wipe) stored.old ring.old) }
    ensures player { stored.new ≡ stored_after_call (Some wipe) stored.old ring.old }
    ensures ring { ring.new ≡ ring_after_call (Some wipe) stored.old ring.old }
{
    let wiped = match restore_from(stored) {
        Some(AnyPlayer::Waiting(player)) => player.wipe(ring).map_err(|r| r.fault),
        Some(AnyPlayer::Seated(player)) => player.wipe(ring).map_err(|r| r.fault),
        Some(AnyPlayer::Wiped(_)) | None => return MISUSE,
    };
    match wiped {
        Ok(player) => keep(AnyPlayer::from(player), stored),
        Err(fault) => Answer::from(fault),
    }
}

#[cfg(test)]
mod tests {
    use super::*;

    // RFC 3394, section 4.6: 256 bits of key data under a 256-bit key.
    const KEY: [u8; 32] = [
        0, 1, 2, 3, 4, 5, 6, 7, 8, 9, 10, 11, 12, 13, 14, 15, 16, 17, 18, 19, 20, 21, 22, 23, 24,
        25, 26, 27, 28, 29, 30, 31,
    ];

    const CONTENT: [u8; 32] = [
        0x00, 0x11, 0x22, 0x33, 0x44, 0x55, 0x66, 0x77, 0x88, 0x99, 0xaa, 0xbb, 0xcc, 0xdd, 0xee,
        0xff, 0, 1, 2, 3, 4, 5, 6, 7, 8, 9, 10, 11, 12, 13, 14, 15,
    ];

    const SEALED: [u8; 40] = [
        0x28, 0xc9, 0xf4, 0x04, 0xc4, 0xb8, 0x10, 0xf4, 0xcb, 0xcc, 0xb3, 0x5c, 0xfb, 0x87, 0xf8,
        0x26, 0x3f, 0x57, 0x86, 0xe2, 0xd8, 0x0e, 0xd3, 0x26, 0xcb, 0xc7, 0xf0, 0xe7, 0x1a, 0x99,
        0xf4, 0x3b, 0xfb, 0x98, 0x8b, 0x9b, 0x7a, 0x02, 0xdd, 0x21,
    ];

    #[test]
    fn seals_and_opens_the_vector(rt: HostRuntime) {
        let mut sealed = [0u8; 40];
        let mut work = [5u8; 512];
        let answer = nannyseason_seal(1, &KEY, &[0; 10], &CONTENT, &mut sealed, &mut work);
        assert!(rt; answer.refusal == 0 && sealed == SEALED && work == [0u8; 512]);
        let mut place = [9u8; 32];
        let answer = nannyseason_open(1, &KEY, &[0; 10], &SEALED, &mut place, &mut work);
        assert!(rt; answer.refusal == 0 && place == CONTENT);
        let answer = nannyseason_open(2, &KEY, &[0; 10], &SEALED, &mut place, &mut work);
        assert!(rt; answer.refusal == 18 && place == CONTENT);
    }

    #[test]
    fn needed_bytes_are_reported(rt: HostRuntime) {
        let mut sealed = [7u8; 47];
        let mut work = [5u8; 512];
        let answer = nannyseason_seal(2, &KEY, &[0; 10], &CONTENT, &mut sealed, &mut work);
        assert!(rt; answer.refusal == 12 && answer.first == 48 && answer.second == 0);
        assert!(rt; sealed == [7u8; 47] && work == [0u8; 512]);
    }

    #[test]
    fn misuse_of_the_wraps(rt: HostRuntime) {
        let mut sealed = [7u8; 48];
        let mut work = [5u8; 512];
        let answer = nannyseason_seal(3, &KEY, &[0; 10], &CONTENT, &mut sealed, &mut work);
        assert!(rt; answer.refusal == 64 && sealed == [7u8; 48] && work == [0u8; 512]);
        let mut few = [5u8; 511];
        let answer = nannyseason_seal(1, &KEY[1..], &[0; 10], &CONTENT, &mut sealed, &mut few);
        assert!(rt; answer.refusal == 64 && sealed == [7u8; 48] && few == [5u8; 511]);
        let mut place = [9u8; 33];
        let answer = nannyseason_open(1, &KEY, &[0; 10], &SEALED, &mut place, &mut work);
        assert!(rt; answer.refusal == 64 && place == [9u8; 33]);
    }

    fn player(state: u8, serial: u16, leaf: u8, epoch: u32) -> Stored {
        Stored {
            state,
            leaf,
            serial,
            epoch,
        }
    }

    #[test]
    fn enrols_and_wipes(rt: HostRuntime) {
        let mut card = [8u8; 39];
        card[..7].copy_from_slice(&[0x27, 0x0f, 200, 0, 0, 0, 3]);
        let mut stored = player(0, 0, 0, 0);
        let mut ring = [1u8; 288];
        let answer = nannyseason_enrol(&card, &mut stored, &mut ring);
        assert!(rt; answer.refusal == 0 && stored.state == 1 && stored.serial == 9999);
        assert!(rt; stored.leaf == 200 && stored.epoch == 3 && ring[..36] == card[3..]);
        let mut key = [2u8; 32];
        let answer = nannyseason_show(&stored, &ring, &mut key);
        assert!(rt; answer.refusal == 64 && key == [2u8; 32]);
        let answer = nannyseason_wipe(&mut stored, &mut ring);
        assert!(rt; answer.refusal == 0 && stored.state == 3 && stored.serial == 9999);
        assert!(rt; stored.leaf == 0 && stored.epoch == 0 && ring == [0u8; 288]);
        let answer = nannyseason_wipe(&mut stored, &mut ring);
        assert!(rt; answer.refusal == 64 && stored.serial == 9999);
    }

    #[test]
    fn shows_bytes_256_to_287(rt: HostRuntime) {
        let ring: [u8; 288] = std::array::from_fn(|i| (i % 251) as u8);
        let stored = player(2, 1, 128, 1);
        let mut key = [0u8; 32];
        let answer = nannyseason_show(&stored, &ring, &mut key);
        assert!(rt; answer.refusal == 0 && key[0] == 5 && key[31] == 36);
        let answer = nannyseason_show(&stored, &ring[1..], &mut key);
        assert!(rt; answer.refusal == 14);
    }

    #[test]
    fn numbers_that_no_player_has(rt: HostRuntime) {
        let ring = [6u8; 288];
        let none = [
            player(4, 1, 128, 1),
            player(2, 0, 128, 1),
            player(2, 10000, 128, 1),
            player(2, 1, 127, 1),
            player(2, 1, 128, 0),
            player(2, 1, 128, 1_000_001),
        ];
        for stored in none {
            let mut key = [2u8; 32];
            let answer = nannyseason_show(&stored, &ring, &mut key);
            assert!(rt; answer.refusal == 64 && key == [2u8; 32]);
        }
    }
}
