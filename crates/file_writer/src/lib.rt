//! The writer of rekey files: a change of keys, sealed into a lent buffer.
#![tactic(auto)]

ghost use Rattle.std.specs.Prelude.{◌≡◌, ◌≤◌};
ghost use Rattle.refusal.specs.Refusals.{verdict_of};
ghost use Rattle.file_rules.specs.Files.{file_bytes, file_size};
ghost use Rattle.wrap.specs.Calls.{work_after};
ghost use Rattle.file_writer.specs.Refusals.{write_refusal};
ghost use Rattle.file_writer.specs.Calls.{change_file, change_size, write_verdict, buffer_after_write};
ghost use Rattle.tree.specs.declared.limits.TheConstants.{MOST_PAIRS};

use wrap::{WORKING_BYTES, Working, Wrap};

mod change;
mod fault;
mod sealing;
mod sections;

pub use change::Change;
pub use fault::WriteFault;

/// How many bytes a file of so many nodes and wraps has.
pub fn file_len<W: Wrap>(wrap: &W, nodes: usize, wraps: usize) -> usize
    requires nodes { nodes ≤ 127 }
    requires wraps { wraps ≤ MOST_PAIRS }
    ensures { result ≡ file_size W.meaning.length nodes wraps }
{
    10 + nodes + wraps * (6 + wrap.sealed_len())
}

impl Change<'_> {
    /// How many bytes its file has.
    pub fn size<W: Wrap>(self, wrap: &W) -> usize
        ensures { result ≡ change_size W.meaning.length self.entry }
    {
        file_len(wrap, self.nodes.len(), self.plan.len())
    }

    /// Writes its file to the front of `file`, clears `work`, and answers how many bytes the file
    /// has. The checks are in this order: fewer than `WORKING_BYTES` of `work` (9, `work` is left
    /// as it is), too short a buffer (12, with the bytes needed).
    pub fn write<W: Wrap>(
        self,
        wrap: &W,
        file: &mut [u8],
        work: &mut [u8],
    ) -> Result<usize, WriteFault>
        ensures answer { verdict_of write_refusal result ≡
            write_verdict (change_size W.meaning.length self.entry) file.old work.old }
        ensures written { file.new ≡
            buffer_after_write (change_size W.meaning.length self.entry)
            (file_bytes (change_file W.meaning self.entry)) file.old work.old }
        ensures cleared { work.new ≡ work_after work.old }
    {
        let guard = Working { bytes: work };
        if guard.bytes.len() < WORKING_BYTES {
            return Err(WriteFault::ShortWorking);
        }
        let needed = self.size(wrap);
        if file.len() < needed {
            return Err(WriteFault::ShortFile { needed });
        }
        self.write_to(wrap, &mut file[0..needed], guard.bytes);
        Ok(needed)
    }
}
