//! What the wraps of a file are checked by.
ghost use Rattle.std.specs.Prelude.{◌≡◌};
ghost use Rattle.file_rules.specs.Layout.{lists, is_valid_content};

use keys::KeyName;
use tree::is_within;

/// Whether `node` is one of `nodes`.
pub fn lists(nodes: &[u8], node: u8) -> bool
    ensures { result ≡ lists nodes.now node }
{
    nodes.contains(&node)
}

/// How many sealed bytes a wrap has, the file's epoch and its changed nodes.
#[derive(Clone, Copy)]
pub(crate) struct Head<'a> {
    pub sealed_len: usize,
    pub epoch: u32,
    pub nodes: &'a [u8],
}

impl Head<'_> {
    /// Whether a key of that name may open the new key of `content`.
    pub fn is_valid_content(self, opener: KeyName, content: u8) -> bool
        ensures { result ≡ is_valid_content self.entry.epoch self.entry.nodes.now opener content }
    {
        lists(self.nodes, content)
            && is_within(opener.node, content)
            && (opener.node != content || opener.epoch < self.epoch)
    }
}
