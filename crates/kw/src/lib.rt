//! The AES key wrap of RFC 3394, of 32 bytes under a 32-byte key.
#![tactic(auto)]

ghost use Rattle.std.specs.Prelude.{◌≡◌, length};
ghost use Rattle.wrap_rules.specs.KeyWrap.{key_wrap, key_unwrap};
ghost use Rattle.wrap_rules.specs.Meanings.{rfc_3394};
ghost use Rattle.wrap_rules.proofs.Lawful.{rfc_3394_lawful};

use aes::Schedule;
use wrap::{Working, Wrap};

mod register;

use register::{recover, start, unwrap_register, wrap_register};

/// The size of a key schedule, with which the working bytes begin, in bytes.
const SCHEDULE: usize = 240;

/// The size of a wrapped key, in bytes.
const WRAPPED: usize = 40;

/// The number that stands for this wrap in a file.
const KIND: u8 = 1;

/// Wraps `content` over `register`, and leaves the key's schedule in `w`.
#[tactic(auto, unfolding(wrap_rules::specs::KeyWrap::key_wrap))]
fn wrap_key(key: [u8; 32], content: [u8; 32], register: &mut [u8; 40], w: &mut [u8])
    requires { length w.old ≡ 240 }
    ensures { register.new ≡ key_wrap key content }
{
    start(content, register);
    wrap_register(Schedule::expand(key, w), register);
}

/// Unwraps `register` in its place, and leaves the key's schedule in `w`.
#[tactic(auto, unfolding(wrap_rules::specs::KeyWrap::key_unwrap))]
fn unwrap_key(key: [u8; 32], register: &mut [u8; 40], w: &mut [u8]) -> Option<[u8; 32]>
    requires { length w.old ≡ 240 }
    ensures { result ≡ key_unwrap key register.old }
{
    unwrap_register(Schedule::expand(key, w), register);
    recover(register)
}

/// The AES key wrap under 256-bit keys; the name has no part in it.
#[derive(Clone, Copy)]
pub struct KeyWrap;

impl Wrap for KeyWrap {
    ghost meaning = { rfc_3394 };

    ghost lawful = { rfc_3394_lawful };

    fn kind(&self) -> u8 {
        KIND
    }

    fn sealed_len(&self) -> usize {
        WRAPPED
    }

    fn seal_to(
        &self,
        key: [u8; 32],
        _name: [u8; 10],
        content: [u8; 32],
        out: &mut [u8],
        work: &mut [u8],
    ) {
        let guard = Working { bytes: work };
        let Some(register) = out.as_mut_array() else {
            unreachable!();
        };
        let (schedule, _) = guard.bytes.split_at_mut(SCHEDULE);
        wrap_key(key, content, register, schedule);
    }

    fn open_from(
        &self,
        key: [u8; 32],
        _name: [u8; 10],
        bytes: &[u8],
        work: &mut [u8],
    ) -> Option<[u8; 32]> {
        let guard = Working { bytes: work };
        let (schedule, rest) = guard.bytes.split_at_mut(SCHEDULE);
        let Some(register) = rest.first_chunk_mut() else {
            unreachable!();
        };
        register.copy_from_slice(bytes);
        unwrap_key(key, register, schedule)
    }
}

#[cfg(test)]
mod tests {
    use super::*;
    use wrap::WrapFault;

    #[test]
    fn too_few_working_bytes(rt: HostRuntime) {
        let mut out = [7u8; 39];
        let mut work = [5u8; 511];
        let refused = KeyWrap.seal([1; 32], [2; 10], [3; 32], &mut out, &mut work);
        assert!(rt; matches!(refused, Err(WrapFault::ShortWorking)));
        assert!(rt; out == [7u8; 39] && work == [5u8; 511]);
    }

    #[test]
    fn buffer_too_short(rt: HostRuntime) {
        let mut out = [7u8; 39];
        let mut work = [5u8; 600];
        let refused = KeyWrap.seal([1; 32], [2; 10], [3; 32], &mut out, &mut work);
        assert!(rt; matches!(refused, Err(WrapFault::ShortBuffer { needed: 40 })));
        assert!(rt; out == [7u8; 39] && work == [0u8; 600]);
    }

    #[test]
    fn opens_what_it_sealed(rt: HostRuntime) {
        let mut out = [7u8; 41];
        let mut work = [5u8; 512];
        let sealed = KeyWrap.seal([1; 32], [2; 10], [3; 32], &mut out, &mut work);
        assert!(rt; sealed.is_ok() && out[40] == 7 && work == [0u8; 512]);
        let mut place = [9u8; 32];
        let opened = KeyWrap.open([1; 32], [4; 10], &out[0..40], &mut place, &mut work);
        assert!(rt; opened.is_ok() && place == [3u8; 32]);
        let refused = KeyWrap.open([1; 32], [2; 10], &out, &mut place, &mut work);
        assert!(rt; matches!(refused, Err(WrapFault::DoesNotOpen)));
        assert!(rt; place == [3u8; 32] && work == [0u8; 512]);
    }
}
