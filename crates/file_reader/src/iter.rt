//! The wraps of a file, one after the other.
ghost use Rattle.std.specs.Prelude.{◌≡◌};
ghost use Rattle.std.specs.Iterator.{YieldsFirstBy, item_count};
ghost use Rattle.file_rules.specs.Layout.{wrap_count};
ghost use Rattle.file_reader.specs.RekeyFiles.{lent_bytes, sealed_len_of};
ghost use Rattle.file_reader.specs.Views.{placed_wrap_of, placed_wraps_from};
ghost use Rattle.file_reader.specs.Wraps.{wraps_left};

use crate::file::RekeyFile;
use crate::wraps::FileWrap;

/// The wraps of a file that were not handed out yet.
#[derive(Drop)]
pub struct Wraps<'a> {
    file: RekeyFile<'a>,
    // Its index is what a wrap is handed out by.
    next: usize,
}

impl<'a> RekeyFile<'a> {
    /// Its wraps, in their order.
    pub fn wraps(self) -> Wraps<'a>
        ensures { wraps_left result ≡
            placed_wraps_from (sealed_len_of self.entry) (lent_bytes self.entry) 0
            (wrap_count (lent_bytes self.entry)) }
    {
        Wraps {
            file: self,
            next: 0,
        }
    }
}

impl<'a> Iterator for Wraps<'a> {
    type Item = FileWrap<'a>;

    ghost next_gives = { YieldsFirstBy placed_wrap_of wraps_left };

    ghost remaining = { item_count wraps_left };

    fn next(&mut self) -> Option<FileWrap<'a>> {
        if self.next >= self.file.wrap_count() {
            return None;
        }
        let wrap = self.file.wrap_at(self.next);
        self.next += 1;
        Some(wrap)
    }
}
