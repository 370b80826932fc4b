//! The sections of a file, and the whole.
ghost use Rattle.std.specs.Prelude.{◌≡◌, ◌+◌, take};
ghost use Rattle.byte_strings.specs.Numbers.{byte_at, be_number4};
ghost use Rattle.file_rules.specs.Fields.{fault_in};
ghost use Rattle.file_rules.specs.Layout.{head_fields, is_valid_node, node_fields, count_fields, wrap_fields, wraps_fields, layout_fault};
ghost use Rattle.layout.specs.Reads.{value_or_fault, Reads, ReadsField, byte_here, number2_here};

use crate::cursor::Cursor;
use crate::fault::LayoutFault;
use crate::fields::judge;
use crate::head::Head;
use keys::{KeyName, LAST_EPOCH};
use tree::MOST_PAIRS;

impl Cursor<'_> {
    // From the first byte on: 4B, 01 and the kind.
    fn mark(&mut self, kind: u8) -> Result<(), LayoutFault>
        ensures { self.old.at ≡ 0 →
            Reads self.old self.new 3 (take 3 (head_fields kind self.old.bytes.now)) tt result }
    {
        self.byte(0x4B, 0x4B)?;
        self.byte(0x01, 0x01)?;
        self.byte(kind, kind)?;
        Ok(())
    }

    // The whole head: the mark, the epoch, and how many changed nodes there are.
    fn head(&mut self, kind: u8) -> Result<(u32, u8), LayoutFault>
        ensures { self.old.at ≡ 0 →
            Reads self.old self.new 8 (head_fields kind self.old.bytes.now)
            (be_number4 self.old.bytes.now 3, byte_at self.old.bytes.now 7) result }
    {
        self.mark(kind)?;
        let epoch = self.number(1, LAST_EPOCH)?;
        let count = self.byte(1, 127)?;
        Ok((epoch, count))
    }

    // A changed node: below the one before it, and 1 if none is left after it.
    fn node(&mut self, before: u8, left: u8) -> Result<u8, LayoutFault>
        ensures { ReadsField self.old self.new 1 byte_here (is_valid_node before left) result }
    {
        let place = self.at;
        let node = self.byte(1, 127)?;
        judge(node, node < before && (left > 0 || node == 1), place)
    }

    // So many changed nodes.
    fn nodes(&mut self, count: u8) -> Result<(), LayoutFault>
        ensures { Reads self.old self.new count
            (node_fields self.old.bytes.now self.old.at 128 count) tt result }
    {
        let mut before = 128;
        for left in (0..count).rev() {
            before = self.node(before, left)?;
        }
        Ok(())
    }

    // The number of wraps.
    fn count(&mut self) -> Result<u16, LayoutFault>
        ensures { Reads self.old self.new 2
            (count_fields self.old.bytes.now self.old.at) (number2_here self.old) result }
    {
        let place = self.at;
        let count = u16::from_be_bytes(self.take()?);
        judge(count, usize::from(count) <= MOST_PAIRS, place)
    }

    // A wrap: the opener, the content, which the opener may open, and the sealed bytes.
    fn wrap(&mut self, head: Head<'_>) -> Result<(), LayoutFault>
        ensures { Reads self.old self.new (6 + head.entry.sealed_len)
            (wrap_fields head.entry.sealed_len head.entry.epoch head.entry.nodes.now
            self.old.bytes.now self.old.at) tt result }
    {
        let node = self.byte(1, 255)?;
        let epoch = self.number(1, head.epoch)?;
        let content_at = self.at;
        let [content] = self.take::<1>()?;
        let valid = head.is_valid_content(KeyName { node, epoch }, content);
        judge((), valid, content_at)?;
        self.part(head.sealed_len)?;
        Ok(())
    }

    // So many wraps, and the file's end behind them.
    fn wraps(&mut self, head: Head<'_>, count: u16) -> Result<(), LayoutFault>
        ensures { result ≡ value_or_fault (fault_in self.old.bytes.now
            (wraps_fields head.entry.sealed_len head.entry.epoch head.entry.nodes.now
            self.old.bytes.now self.old.at count)) tt }
    {
        for _ in 0..count {
            self.wrap(head)?;
        }
        judge((), self.at == self.bytes.len(), self.at)
    }
}

/// Checks the whole file.
pub(crate) fn check_file(bytes: &[u8], kind: u8, sealed_len: usize) -> Result<(), LayoutFault>
    ensures { result ≡ value_or_fault (layout_fault kind sealed_len bytes.now) tt }
{
    let mut file = Cursor::new(bytes);
    let (epoch, count) = file.head(kind)?;
    let start = file.at;
    file.nodes(count)?;
    let head = Head {
        sealed_len,
        epoch,
        nodes: &bytes[start..file.at],
    };
    let wraps = file.count()?;
    file.wraps(head, wraps)
}
