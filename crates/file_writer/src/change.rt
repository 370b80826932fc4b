//! A change of keys.
ghost use Rattle.std.specs.Prelude.{◌≤◌, length};
ghost use Rattle.tree.specs.declared.limits.TheConstants.{MOST_PAIRS};

use keys::NodeKey;
use tree::Pair;

/// A change of keys, from which its file is written.
#[derive(Clone, Copy)]
pub struct Change<'a> {
    /// The epoch that it begins.
    pub epoch: u32,
    /// The inner nodes that get a new key, falling.
    pub nodes: &'a [u8],
    /// Which new key is sealed under which key.
    pub plan: &'a [Pair],
    /// The keys before it, by the number of their node.
    pub former: &'a [NodeKey; 256],
    /// The keys after it, likewise.
    pub present: &'a [NodeKey; 256],
    ghost few_nodes: { length nodes.now ≤ 127 },
    ghost few_pairs: { length plan.now ≤ MOST_PAIRS },
}
