//! The key schedule, in lent bytes.
ghost use Rattle.std.specs.Prelude.{◌+◌, ◌*◌, ◌≤◌, length};

/// A key's schedule: a round key of 16 bytes for each of `rounds` rounds, and one before them. What
/// follows in `bytes` is not read.
#[derive(Clone, Copy)]
pub struct Schedule<'a> {
    pub bytes: &'a [u8],
    pub rounds: usize,
    ghost some: { 1 ≤ rounds },
    ghost whole: { 16 * rounds + 16 ≤ length bytes.now },
}
