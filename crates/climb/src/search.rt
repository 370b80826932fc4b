//! Which wrap of a file a player opens for a node.
ghost use Rattle.std.specs.Prelude.{◌≡◌, IfSome, option_map};
ghost use Rattle.file_reader.specs.Views.{wrapped_key_of};
ghost use Rattle.player_rules.specs.Searches.{entry_for, openable_wrap};
ghost use Rattle.climb.specs.Finds.{checked_rekey, openable_wrap_of, IsFoundIn};

use file_reader::{FileWrap, RekeyFile};
use ring::Ring;

/// A wrap that a ring opens, as its file hands it out, and the entry of the ring that opens it.
#[derive(Clone, Copy)]
pub(crate) struct Found<'a> {
    pub(crate) wrap: FileWrap<'a>,
    pub(crate) ring_entry: usize,
}

// The entry that opens a wrap, if the wrap's content is the node's key.
fn entry_for(wrap: FileWrap<'_>, ring: &Ring, leaf: u8, node: u8) -> Option<usize>
    ensures { result ≡ entry_for ring.now.entries leaf node (wrapped_key_of wrap.entry) }
{
    if wrap.content.node != node {
        return None;
    }
    ring.entry_of(leaf, wrap.opener)
}

/// The first wrap whose content is the node's key and whose opener is in the ring.
#[tactic(auto, using(crate::proofs::Finds::found_some, crate::proofs::Finds::found_none, crate::proofs::Finds::found_in))]
pub(crate) fn openable_wrap<'a>(
    file: RekeyFile<'a>,
    ring: &Ring,
    leaf: u8,
    node: u8,
) -> Option<Found<'a>>
    ensures found { option_map openable_wrap_of result
        ≡ openable_wrap ring.now.entries leaf node 0 (checked_rekey file.entry).wraps }
    ensures wrap { IfSome result (IsFoundIn (checked_rekey file.entry)) }
{
    for wrap in file.wraps() {
        if let Some(ring_entry) = entry_for(wrap, ring, leaf, node) {
            return Some(Found { wrap, ring_entry });
        }
    }
    None
}
