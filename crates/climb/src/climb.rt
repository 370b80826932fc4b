//! The way up, node by node.
ghost use Rattle.std.specs.Prelude.{◌≡◌, ◌<◌, ◌≤◌, length, replicate};
ghost use Rattle.refusal.specs.Refusals.{verdict_of};
ghost use Rattle.wrap.specs.Calls.{work_after};
ghost use Rattle.keys.specs.Names.{unmade_key, keys_in};
ghost use Rattle.file_reader.specs.RekeyFiles.{sealed_len_of};
ghost use Rattle.file_reader.specs.Views.{wrapped_key_of};
ghost use Rattle.player_rules.specs.Climbs.{wrap_content, ring_with_key, ring_with_found, ring_after_level, ring_after_file};
ghost use Rattle.player_rules.specs.Searches.{openable_wrap};
ghost use Rattle.player_rules.specs.Rings.{entries};
ghost use Rattle.player_rules.specs.Players.{ring_or};
ghost use Rattle.climb.specs.Refusals.{read_refusal, verdict_with, bare_verdict};
ghost use Rattle.climb.specs.Entries.{open_wrap_verdict, place_after_open_wrap, entry_with_key};
ghost use Rattle.climb.specs.Finds.{checked_rekey};
ghost use Rattle.player_rules.specs.declared.limits.TheConstants.{RING_BYTES};
ghost use Rattle.wrap.specs.declared.working.TheConstants.{WORKING_BYTES};

use crate::fault::{DatedFault, ReadFault};
use crate::search::{Found, openable_wrap};
use file_reader::{FileWrap, RekeyFile};
use keys::NodeKey;
use ring::{Ring, node_above};
use wrap::{Working, Wrap};

// Opens a wrap under a key, and writes its content to `place`.
fn open_wrap<W: Wrap>(
    wrap: &W,
    sealed: FileWrap<'_>,
    key: [u8; 32],
    place: &mut [u8; 32],
    work: &mut [u8],
) -> Result<(), ReadFault>
    ensures answer { verdict_of read_refusal result
        ≡ open_wrap_verdict W.meaning key sealed.entry work.old }
    ensures written { place.new
        ≡ place_after_open_wrap W.meaning key sealed.entry place.old work.old }
{
    let epoch = sealed.content.epoch;
    sealed
        .open(wrap, key, place, work)
        .map_err(|fault| ReadFault::from(DatedFault { epoch, fault }))
}

// The content of a wrap becomes the entry: it goes straight into its place.
#[tactic(auto, using(crate::proofs::Taken::entry_opened))]
fn take<W: Wrap>(
    wrap: &W,
    sealed: FileWrap<'_>,
    key: [u8; 32],
    entry: &mut NodeKey,
    work: &mut [u8],
) -> Result<(), ReadFault>
    requires working { WORKING_BYTES ≤ length work.old }
    ensures { verdict_with result entry.new
        ≡ entry_with_key sealed.entry.content.epoch sealed.entry.index
        (wrap_content W.meaning sealed.entry.content.epoch key (wrapped_key_of sealed.entry)) }
{
    open_wrap(wrap, sealed, key, &mut entry.key, work)?;
    entry.made = sealed.content.epoch;
    Ok(())
}

// The content of the wrap that was found becomes entry k.
#[tactic(auto, using(crate::proofs::Taken::entry_set))]
fn take_found<W: Wrap>(
    wrap: &W,
    found: Found<'_>,
    k: usize,
    ring: &mut Ring,
    work: &mut [u8],
) -> Result<(), ReadFault>
    requires working { WORKING_BYTES ≤ length work.old }
    requires opener { found.ring_entry < 8 }
    requires entry { k < 8 }
    ensures { verdict_with result ring.new.entries
        ≡ ring_with_key found.entry.wrap.content.epoch k found.entry.wrap.index ring.old.entries
        (wrap_content W.meaning found.entry.wrap.content.epoch
        (keys_in ring.old.entries found.entry.ring_entry).key (wrapped_key_of found.entry.wrap)) }
{
    let key = ring.entries[found.ring_entry].key;
    take(wrap, found.wrap, key, &mut ring.entries[k], work)
}

/// The way up of the player at that leaf, through a file that was checked with this wrap.
#[derive(Drop)]
pub struct WayUp<'a, W: Wrap> {
    pub wrap: &'a W,
    pub file: RekeyFile<'a>,
    pub leaf: u8,
    pub ghost checked: { sealed_len_of file ≡ W.meaning.length },
}

impl<W: Wrap> WayUp<'_, W> {
    // The new key of a listed node becomes entry k: that of the first wrap of it that the ring opens.
    fn renew(&self, node: u8, k: usize, ring: &mut Ring, work: &mut [u8]) -> Result<(), ReadFault>
        requires working { WORKING_BYTES ≤ length work.old }
        requires entry { k < 8 }
        ensures { verdict_with result ring.new.entries
            ≡ ring_with_found W.meaning (checked_rekey self.now.file) node k ring.old.entries
            (openable_wrap ring.old.entries self.now.leaf node 0
            (checked_rekey self.now.file).wraps) }
    {
        let Some(found) = openable_wrap(self.file, ring, self.leaf, node) else {
            return Err(ReadFault::ShutOut { node });
        };
        take_found(self.wrap, found, k, ring, work)
    }

    // The node k halvings up: its new key is taken if it is listed.
    #[tactic(auto, unfolding(player_rules::specs::Climbs::ring_after_level))]
    fn rise(&self, k: usize, ring: &mut Ring, work: &mut [u8]) -> Result<(), ReadFault>
        requires working { WORKING_BYTES ≤ length work.old }
        requires entry { k < 8 }
        ensures { verdict_with result ring.new.entries
            ≡ ring_after_level W.meaning (checked_rekey self.now.file) self.now.leaf k
            ring.old.entries }
    {
        let node = node_above(self.leaf, k);
        if !self.file.lists(node) {
            return Ok(());
        }
        self.renew(node, k, ring, work)
    }

    // From the leaf's parent to the root, each node with the ring as updated so far.
    #[tactic(auto, using(crate::proofs::Climbing::climb_all, crate::proofs::Climbing::climb_none, crate::proofs::Climbing::climb_on, crate::proofs::Climbing::climb_stopped))]
    fn climb(&self, ring: &mut Ring, work: &mut [u8]) -> Result<(), ReadFault>
        requires working { WORKING_BYTES ≤ length work.old }
        ensures { verdict_with result ring.new.entries
            ≡ ring_after_file W.meaning (checked_rekey self.now.file) self.now.leaf
            ring.old.entries }
    {
        for k in 1..8 {
            self.rise(k, ring, work)?;
        }
        Ok(())
    }

    // Follows the file on a copy of the ring. The ring is written if all went well; the copy is
    // cleared in any case, since it holds keys.
    fn follow_on(&self, copy: &mut Ring, ring: &mut [u8], work: &mut [u8]) -> Result<(), ReadFault>
        requires working { WORKING_BYTES ≤ length work.old }
        requires ring { length ring.old ≡ RING_BYTES }
        ensures answer { verdict_of read_refusal result
            ≡ bare_verdict (ring_after_file W.meaning (checked_rekey self.now.file)
            self.now.leaf copy.old.entries) }
        ensures ring { ring.new
            ≡ ring_or (ring_after_file W.meaning (checked_rekey self.now.file)
            self.now.leaf copy.old.entries) ring.old }
        ensures cleared { copy.new.entries ≡ replicate 8 unmade_key }
    {
        let result = self.climb(copy, work);
        if result.is_ok() {
            copy.write_to(ring);
        }
        copy.clear();
        result
    }

    /// Follows the file from the leaf's parent to the root: the ring is written once, at the end.
    /// Clears `work`. On the way come a wrap that does not open (18, with its index and the file's
    /// epoch) and a listed node that the ring has no opener for (19, with the node).
    pub fn follow(&self, ring: &mut [u8], work: &mut [u8]) -> Result<(), ReadFault>
        requires working { WORKING_BYTES ≤ length work.old }
        requires ring { length ring.old ≡ RING_BYTES }
        ensures answer { verdict_of read_refusal result
            ≡ bare_verdict (ring_after_file W.meaning (checked_rekey self.now.file)
            self.now.leaf (entries ring.old)) }
        ensures ring { ring.new
            ≡ ring_or (ring_after_file W.meaning (checked_rekey self.now.file)
            self.now.leaf (entries ring.old)) ring.old }
        ensures cleared { work.new ≡ work_after work.old }
    {
        let guard = Working { bytes: work };
        let mut copy = Ring::of(ring);
        self.follow_on(&mut copy, ring, guard.bytes)
    }
}
