//! Limits that servers, files and players share.

/// The last epoch of a site; the first is 1.
pub const LAST_EPOCH: u32 = 1_000_000;

/// The last serial of a scanner; the first is 1.
pub const LAST_SERIAL: u16 = 9_999;

/// The bytes of a card: serial 2, leaf 1, the stay's first epoch 4, the leaf's key 32.
pub const CARD_BYTES: usize = 39;
