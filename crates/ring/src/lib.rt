//! A copy of a ring, entry by entry.
#![tactic(auto)]

ghost use Rattle.std.specs.Prelude.{◌≡◌, ◌<◌, IfSome, length, replicate};
ghost use Rattle.keys.specs.Names.{unmade_key};
ghost use Rattle.tree.specs.Tree.{ancestor};
ghost use Rattle.player_rules.specs.Rings.{entry_at, entries, ring_bytes};
ghost use Rattle.player_rules.specs.Searches.{is_entry, entry_of};
ghost use Rattle.ring.specs.Rings.{with_entry};

use byte_strings::{part_of, put};
use keys::{KeyName, NodeKey};
use player_rules::RING_BYTES;
use std::array;
use tree::parent;

// The bytes of an entry: an epoch of 4 and a key of 32.
const ENTRY_BYTES: usize = 36;

/// The node that so many halvings of the leaf give: its own at 0, the root at 7.
pub fn node_above(leaf: u8, halvings: usize) -> u8
    ensures { result ≡ ancestor halvings leaf }
{
    let mut node = leaf;
    for _ in 0..halvings {
        node = parent(node);
    }
    node
}

/// The entries of a ring, from the leaf's to the root's. It holds keys: `clear` it before it goes.
#[derive(Drop)]
pub struct Ring {
    pub entries: [NodeKey; 8],
}

// The entry that stands at byte 36k.
fn entry_at(bytes: &[u8], k: usize) -> NodeKey
    requires length { length bytes.now ≡ RING_BYTES }
    requires entry { k < 8 }
    ensures { result ≡ entry_at bytes.now k }
{
    NodeKey {
        made: u32::from_be_bytes(part_of(bytes, ENTRY_BYTES * k)),
        key: part_of(bytes, ENTRY_BYTES * k + 4),
    }
}

// Writes entry k over the bytes of a ring.
fn put_entry(entry: &NodeKey, k: usize, bytes: &mut [u8])
    requires length { length bytes.old ≡ RING_BYTES }
    requires entry { k < 8 }
    ensures written { bytes.new ≡ with_entry bytes.old k entry.now }
    ensures whole_key { length entry.now.key ≡ 32 }
{
    put(bytes, ENTRY_BYTES * k, &entry.made.to_be_bytes());
    put(bytes, ENTRY_BYTES * k + 4, &entry.key);
}

// Writes entries over the bytes of a ring. The loop goes by index: each entry has its own place.
#[tactic(auto, using(crate::proofs::Written::front_none, crate::proofs::Written::front_all))]
fn put_entries(entries: &[NodeKey; 8], bytes: &mut [u8])
    requires { length bytes.old ≡ RING_BYTES }
    ensures { bytes.new ≡ ring_bytes entries.now }
{
    for k in 0..8 {
        put_entry(&entries[k], k, bytes);
    }
}

impl Ring {
    /// A copy of the ring in these bytes.
    pub fn of(bytes: &[u8]) -> Ring
        requires { length bytes.now ≡ RING_BYTES }
        ensures { result.entries ≡ entries bytes.now }
    {
        Ring {
            entries: array::from_fn(|k| entry_at(bytes, k)),
        }
    }

    // Whether entry k is the opener, by node and epoch.
    fn is_entry(&self, leaf: u8, opener: KeyName, k: usize) -> bool
        requires { k < 8 }
        ensures { result ≡ is_entry self.now.entries leaf opener k }
    {
        node_above(leaf, k) == opener.node && self.entries[k].made == opener.epoch
    }

    /// The first entry that is the opener, by node and epoch.
    #[tactic(auto, unfolding(player_rules::specs::Searches::entry_of))]
    pub fn entry_of(&self, leaf: u8, opener: KeyName) -> Option<usize>
        ensures entry { result ≡ entry_of self.now.entries leaf opener }
        ensures range { IfSome result (λ k. k < 8) }
    {
        (0..8).position(|k| self.is_entry(leaf, opener, k))
    }

    /// Writes the entries over the bytes of a ring.
    pub fn write_to(&self, bytes: &mut [u8])
        requires { length bytes.old ≡ RING_BYTES }
        ensures { bytes.new ≡ ring_bytes self.now.entries }
    {
        put_entries(&self.entries, bytes);
    }

    /// Overwrites the keys and epochs with zeros.
    pub fn clear(&mut self)
        ensures { self.new.entries ≡ replicate 8 unmade_key }
    {
        self.entries.fill(NodeKey::UNMADE);
    }
}
