//! The keys of the tree's nodes, and their names.
#![tactic(auto)]

ghost use Rattle.std.specs.Prelude.{◌≡◌};
ghost use Rattle.keys.specs.Limits.{is_serial};
ghost use Rattle.keys.specs.Names.{name_bytes, wrap_name};

mod limits;

pub use limits::{CARD_BYTES, LAST_EPOCH, LAST_SERIAL};

/// Whether a number is the serial of a scanner: 1 to `LAST_SERIAL`.
pub fn is_serial(number: u16) -> bool
    ensures { result ≡ is_serial number }
{
    (1..=LAST_SERIAL).contains(&number)
}

/// The name of a key: its node, and the epoch in which it was made.
#[derive(Clone, Copy, PartialEq, Eq, Debug)]
pub struct KeyName {
    pub node: u8,
    pub epoch: u32,
}

impl KeyName {
    /// The node in one byte, the epoch in four with the highest first.
    pub fn to_bytes(self) -> [u8; 5]
        ensures { result ≡ name_bytes self }
    {
        let [a, b, c, d] = self.epoch.to_be_bytes();
        [self.node, a, b, c, d]
    }
}

/// The key of a node, and the epoch in which it was made.
#[derive(Clone, Copy)]
pub struct NodeKey {
    pub made: u32,
    pub key: [u8; 32],
}

impl NodeKey {
    /// A key that was never made: epoch 0, which no site has, and zeros.
    pub const UNMADE: NodeKey = NodeKey {
        made: 0,
        key: [0; 32],
    };
}

/// The name under which a content's key is sealed: node and epoch of the opener, then node and
/// epoch of the content.
pub fn wrap_name(opener: KeyName, content: KeyName) -> [u8; 10]
    ensures { result ≡ wrap_name opener content }
{
    let mut name = [0; 10];
    name[..5].copy_from_slice(&opener.to_bytes());
    name[5..].copy_from_slice(&content.to_bytes());
    name
}
