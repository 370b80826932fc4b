//! A rekey file that was checked.
ghost use Rattle.std.specs.Prelude.{◌≡◌, ◌≤◌, length, IsTrue};
ghost use Rattle.byte_strings.specs.Numbers.{byte_at};
ghost use Rattle.file_rules.specs.Files.{file_size};
ghost use Rattle.file_rules.specs.Layout.{wrap_count, is_rekey_file};
ghost use Rattle.tree.specs.declared.limits.TheConstants.{MOST_PAIRS};

/// A rekey file in lent bytes, which have no fault.
#[derive(Clone, Copy)]
pub struct RekeyFile<'a> {
    pub(crate) bytes: &'a [u8],
    pub(crate) sealed_len: usize,
    ghost laid: { IsTrue (is_rekey_file sealed_len bytes.now) },
    ghost short: { sealed_len ≤ 64 },
    ghost few_nodes: { byte_at bytes.now 7 ≤ 127 },
    ghost few_wraps: { wrap_count bytes.now ≤ MOST_PAIRS },
    ghost size: { file_size sealed_len (byte_at bytes.now 7) (wrap_count bytes.now) ≡
        length bytes.now },
}
