//! Rekey files that were checked: what stands in them, and the opening of a wrap.
#![tactic(auto)]

ghost use Rattle.file_reader.specs.Laws.{WrapsAreInOrder};

mod contents;
mod fault;
mod file;
mod iter;
mod wraps;

pub use fault::{FileFault, IndexedFault};
pub use file::RekeyFile;
pub use iter::Wraps;
pub use wraps::FileWrap;

/// Handing out wraps by their index, from 0, or one after the other, gives all wraps of the file in
/// their order.
pub fn wraps_in_order()
    ensures { WrapsAreInOrder }
{}
