//! What stands in a checked file.
ghost use Rattle.std.specs.Prelude.{◌≡◌, ◌+◌, ◌<◌, ◌≤◌, length, IsTrue};
ghost use Rattle.byte_strings.specs.Numbers.{byte_at, be_number4};
ghost use Rattle.file_rules.specs.Layout.{nodes_of, lists, wrap_count, is_rekey_file};
ghost use Rattle.file_rules.specs.Reading.{wrap_at, wrap_place};
ghost use Rattle.file_reader.specs.RekeyFiles.{lent_bytes, sealed_len_of};
ghost use Rattle.file_reader.specs.Views.{wrapped_key_of};
ghost use Rattle.tree.specs.declared.limits.TheConstants.{MOST_PAIRS};

use crate::file::RekeyFile;
use crate::wraps::FileWrap;
use byte_strings::part_of;
use keys::KeyName;
use layout::lists;
use wrap::Wrap;

impl<'a> RekeyFile<'a> {
    /// The file in bytes that `check` accepted with this wrap.
    pub fn over<W: Wrap>(wrap: &W, bytes: &'a [u8]) -> RekeyFile<'a>
        requires { IsTrue (is_rekey_file W.meaning.length bytes.now) }
        ensures bytes { lent_bytes result ≡ bytes.now }
        ensures length { sealed_len_of result ≡ W.meaning.length }
    {
        RekeyFile {
            bytes,
            sealed_len: wrap.sealed_len(),
        }
    }

    /// The kind of its wraps.
    pub fn kind(self) -> u8
        ensures { result ≡ byte_at (lent_bytes self.entry) 2 }
    {
        self.bytes[2]
    }

    /// The epoch that the file begins.
    pub fn epoch(self) -> u32
        ensures { result ≡ be_number4 (lent_bytes self.entry) 3 }
    {
        u32::from_be_bytes(part_of(self.bytes, 3))
    }

    // Where the changed nodes end.
    fn nodes_end(self) -> usize
        ensures { result ≡ 8 + byte_at (lent_bytes self.entry) 7 }
    {
        8 + usize::from(self.bytes[7])
    }

    /// The changed nodes, falling.
    pub fn nodes(self) -> &'a [u8]
        ensures { result.now ≡ nodes_of (lent_bytes self.entry) }
    {
        &self.bytes[8..self.nodes_end()]
    }

    /// Whether a node is one of the changed ones.
    pub fn lists(self, node: u8) -> bool
        ensures { result ≡ lists (nodes_of (lent_bytes self.entry)) node }
    {
        lists(self.nodes(), node)
    }

    /// How many wraps there are.
    pub fn wrap_count(self) -> usize
        ensures count { result ≡ wrap_count (lent_bytes self.entry) }
        ensures few { result ≤ MOST_PAIRS }
    {
        usize::from(u16::from_be_bytes(part_of(self.bytes, self.nodes_end())))
    }

    // Where the wrap of index `i` begins.
    fn place_of(self, i: usize) -> usize
        requires { i < wrap_count (lent_bytes self) }
        ensures place { result ≡ wrap_place (sealed_len_of self.entry) (lent_bytes self.entry) i }
        ensures inside { result + 6 + sealed_len_of self.entry ≤ length (lent_bytes self.entry) }
    {
        self.nodes_end() + 2 + i * (6 + self.sealed_len)
    }

    /// The wrap of index `i`.
    pub fn wrap_at(self, i: usize) -> FileWrap<'a>
        requires { i < wrap_count (lent_bytes self) }
        ensures index { result.index ≡ i }
        ensures place { result.place ≡
            wrap_place (sealed_len_of self.entry) (lent_bytes self.entry) i }
        ensures epoch { result.content.epoch ≡ be_number4 (lent_bytes self.entry) 3 }
        ensures value { wrapped_key_of result ≡
            wrap_at (sealed_len_of self.entry) (lent_bytes self.entry)
            (wrap_place (sealed_len_of self.entry) (lent_bytes self.entry) i) }
    {
        let place = self.place_of(i);
        FileWrap {
            index: i,
            place,
            opener: KeyName {
                node: self.bytes[place],
                epoch: u32::from_be_bytes(part_of(self.bytes, place + 1)),
            },
            content: KeyName {
                node: self.bytes[place + 5],
                epoch: self.epoch(),
            },
            sealed: &self.bytes[place + 6..place + 6 + self.sealed_len],
        }
    }
}
