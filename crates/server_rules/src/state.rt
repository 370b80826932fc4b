//! What a server holds, and what a publishing reports.

use cradles::Cradle;
use keys::NodeKey;

/// The state of a server.
#[derive(Clone, Copy)]
pub struct State {
    /// How many publishings there were.
    pub epoch: u32,
    /// Cradle 1, cradle 2, .. cradle 128.
    pub cradles: [Cradle; 128],
    /// The keys of the nodes, by their numbers; 0 is no node.
    pub nodes: [NodeKey; 256],
}

/// What a publishing reports.
#[derive(Clone, Copy, PartialEq, Eq, Debug)]
pub struct PublishReport {
    /// The new epoch.
    pub epoch: u32,
    /// How many wraps the file has.
    pub wraps: usize,
    /// How many bytes the file has.
    pub bytes: usize,
    /// How many bytes of the material were drawn.
    pub drawn: usize,
}
