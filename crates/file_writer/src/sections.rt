//! The sections of a file, each into the part of the buffer that is its own.
ghost use Rattle.std.specs.Prelude.{◌≡◌, ◌+◌, ◌*◌, ◌≤◌, ◌++◌, length, map};
ghost use Rattle.std.specs.List.{flat_map};
ghost use Rattle.byte_strings.specs.Numbers.{be_bytes2};
ghost use Rattle.file_rules.specs.Files.{head_bytes, nodes_bytes, wrap_bytes, file_bytes};
ghost use Rattle.wrap.specs.Calls.{work_after};
ghost use Rattle.file_writer.specs.Calls.{pair_wrap_in, change_file, change_size};
ghost use Rattle.wrap.specs.declared.working.TheConstants.{WORKING_BYTES};

use crate::change::Change;
use keys::wrap_name;
use tree::Pair;
use wrap::{Working, Wrap};

impl Change<'_> {
    // The head, section 1, and how many wraps section 2 has.
    fn put_front(self, kind: u8, front: &mut [u8])
        requires room { length front.old ≡ 10 + length self.nodes.now }
        ensures { front.new ≡
            head_bytes kind self.entry.epoch
            ++ (nodes_bytes self.entry.nodes.now ++ be_bytes2 (length self.entry.plan.now)) }
    {
        let [a, b, c, d] = self.epoch.to_be_bytes();
        let nodes = self.nodes.len() as u8;
        let wraps = self.plan.len() as u16;
        let (head, rest) = front.split_at_mut(8);
        let (listed, count) = rest.split_at_mut(self.nodes.len());
        head.copy_from_slice(&[0x4B, 0x01, kind, a, b, c, d, nodes]);
        listed.copy_from_slice(self.nodes);
        count.copy_from_slice(&wraps.to_be_bytes());
    }

    // The wrap of a pair: the sealed key goes straight into its place.
    fn put_wrap<W: Wrap>(self, wrap: &W, pair: Pair, place: &mut [u8], work: &mut [u8])
        requires room { length place.old ≡ 6 + W.meaning.length }
        requires working { WORKING_BYTES ≤ length work.old }
        ensures { place.new ≡ wrap_bytes (pair_wrap_in W.meaning.seals self.entry pair) }
    {
        let sealing = self.sealing(pair);
        let content = sealing.content;
        let name = wrap_name(sealing.opener, content);
        let [node, a, b, c, d] = sealing.opener.to_bytes();
        let (names, sealed) = place.split_at_mut(6);
        names.copy_from_slice(&[node, a, b, c, d, content.node]);
        let done = wrap.seal(sealing.opener_key, name, sealing.content_key, sealed, work);
        let Ok(()) = done else { unreachable!() };
    }

    // The wraps of the plan, in its order.
    #[tactic(auto, using(crate::proofs::Pieces::no_piece, crate::proofs::Pieces::next_piece, crate::proofs::Pieces::all_pieces))]
    fn put_wraps<W: Wrap>(self, wrap: &W, section: &mut [u8], work: &mut [u8])
        requires room { length section.old ≡ length self.plan.now * (6 + W.meaning.length) }
        requires working { WORKING_BYTES ≤ length work.old }
        ensures { section.new ≡
            flat_map wrap_bytes
            (map (pair_wrap_in W.meaning.seals self.entry) self.entry.plan.now) }
    {
        let size = 6 + wrap.sealed_len();
        // By index: what a slice holds after a loop over its chunks is not known to the prover.
        for i in 0..self.plan.len() {
            self.put_wrap(
                wrap,
                self.plan[i],
                &mut section[i * size..(i + 1) * size],
                work,
            );
        }
    }

    /// Writes its file over the whole of `file`, and clears `work`.
    #[tactic(auto, using(crate::proofs::Whole::whole))]
    pub fn write_to<W: Wrap>(self, wrap: &W, file: &mut [u8], work: &mut [u8])
        requires room { length file.old ≡ change_size W.meaning.length self }
        requires working { WORKING_BYTES ≤ length work.old }
        ensures written { file.new ≡ file_bytes (change_file W.meaning self.entry) }
        ensures cleared { work.new ≡ work_after work.old }
    {
        let guard = Working { bytes: work };
        let (front, section) = file.split_at_mut(10 + self.nodes.len());
        self.put_front(wrap.kind(), front);
        self.put_wraps(wrap, section, guard.bytes);
    }
}
