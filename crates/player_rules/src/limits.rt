//! The size of a ring.

/// The bytes of a ring: eight entries, each an epoch of 4 bytes and a key of 32.
pub const RING_BYTES: usize = 288;
