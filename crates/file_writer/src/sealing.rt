//! What the pairs of a plan seal.
ghost use Rattle.std.specs.Prelude.{◌≡◌};
ghost use Rattle.keys.specs.Names.{keys_in, key_name};
ghost use Rattle.file_rules.specs.Sealing.{opener_node};
ghost use Rattle.file_writer.specs.Calls.{opener_key_in, opener_name_in};

use crate::change::Change;
use keys::{KeyName, NodeKey};
use tree::{Opener, Pair};

/// A key that is sealed under another one, and the names of both.
#[derive(Clone, Copy)]
pub(crate) struct PairSealing {
    pub opener: KeyName,
    pub opener_key: [u8; 32],
    pub content: KeyName,
    pub content_key: [u8; 32],
}

// The key of a node, from a table of the keys of all nodes.
fn key_at(table: &[NodeKey; 256], node: u8) -> NodeKey
    ensures { result ≡ keys_in table.now node }
{
    table[usize::from(node)]
}

// The node whose key the opener is.
fn node_of(opener: Opener) -> u8
    ensures { result ≡ opener_node opener }
{
    match opener {
        Opener::Present(node) | Opener::Former(node) => node,
    }
}

impl Change<'_> {
    // A present opener goes by the keys after the change, a former one by those before it.
    fn opener_key(self, opener: Opener) -> NodeKey
        ensures { result ≡ opener_key_in self.entry opener }
    {
        match opener {
            Opener::Present(node) => key_at(self.present, node),
            Opener::Former(node) => key_at(self.former, node),
        }
    }

    /// What a pair of the plan seals.
    pub(crate) fn sealing(self, pair: Pair) -> PairSealing
        ensures opener { result.opener ≡ opener_name_in self.entry pair.opener }
        ensures opener_key { result.opener_key ≡ (opener_key_in self.entry pair.opener).key }
        ensures content { result.content ≡ key_name pair.content self.entry.epoch }
        ensures content_key { result.content_key ≡
            (keys_in self.entry.present.now pair.content).key }
    {
        let opener = self.opener_key(pair.opener);
        let opener_key = opener.key;
        let content_key = key_at(self.present, pair.content).key;
        PairSealing {
            opener: KeyName {
                node: node_of(pair.opener),
                epoch: opener.made,
            },
            opener_key,
            content: KeyName {
                node: pair.content,
                epoch: self.epoch,
            },
            content_key,
        }
    }
}
