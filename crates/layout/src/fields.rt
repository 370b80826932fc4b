//! The fields of a file, read one after the other: each is there, and right.
ghost use Rattle.std.specs.Prelude.{◌≡◌, if◌then◌else◌, Some, None};
ghost use Rattle.std.specs.Int.{is_in_range};
ghost use Rattle.layout.specs.Reads.{value_or_fault, answer_bytes, ReadsField, is_anything, byte_here, number4_here, part_here};

use crate::cursor::Cursor;
use crate::fault::LayoutFault;
use byte_strings::part_of;

/// The value of a field at `place`, if it is right.
pub(crate) fn judge<T: Copy>(value: T, right: bool, place: usize) -> Result<T, LayoutFault>
    ensures { result ≡ value_or_fault (if right then None else Some place) value }
{
    if right {
        Ok(value)
    } else {
        Err(LayoutFault { place })
    }
}

impl<'a> Cursor<'a> {
    /// A field of `len` bytes, whatever they are.
    pub fn part(&mut self, len: usize) -> Result<&'a [u8], LayoutFault>
        ensures { ReadsField self.old self.new len (part_here len) is_anything
            (answer_bytes result) }
    {
        let start = self.at;
        if self.bytes.len() - start < len {
            return Err(LayoutFault {
                place: self.bytes.len(),
            });
        }
        self.at += len;
        Ok(&self.bytes[start..self.at])
    }

    /// A field of N bytes, whatever they are.
    pub fn take<const N: usize>(&mut self) -> Result<[u8; N], LayoutFault>
        ensures { ReadsField self.old self.new N (part_here N) is_anything result }
    {
        Ok(part_of(self.part(N)?, 0))
    }

    /// A byte from `low` to `high`.
    pub fn byte(&mut self, low: u8, high: u8) -> Result<u8, LayoutFault>
        ensures { ReadsField self.old self.new 1 byte_here (is_in_range low high) result }
    {
        let place = self.at;
        let [value] = self.take::<1>()?;
        judge(value, (low..=high).contains(&value), place)
    }

    /// A number of four bytes, from `low` to `high`.
    pub fn number(&mut self, low: u32, high: u32) -> Result<u32, LayoutFault>
        ensures { ReadsField self.old self.new 4 number4_here (is_in_range low high) result }
    {
        let place = self.at;
        let value = u32::from_be_bytes(self.take()?);
        judge(value, (low..=high).contains(&value), place)
    }
}
