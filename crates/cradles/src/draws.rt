//! What a change draws.
ghost use Rattle.std.specs.Prelude.{◌≡◌, ◌≤◌, length};
ghost use Rattle.tree.specs.Rows.{changed_nodes};
ghost use Rattle.cradles.specs.Draws.{drawn_size, keys_after_change};

use crate::nodes::{arrival_leaves, changed_nodes, clear_emptied, deal};
use arrayvec::ArrayVec;
use keys::NodeKey;
use std::marker::Model;
use tree::{Board, Code};

/// What the change of a row draws: a key for each arrival, by rising cradle, then one for each
/// changed node, by falling number.
#[derive(Drop)]
pub struct Draws {
    row: [Code; 128],
    arrivals: ArrayVec<u8, 128>,
    changed: ArrayVec<u8, 127>,
}

impl Model for Draws {
    ghost use Rattle.std.specs.Prelude.{◌≡◌, List};
    ghost use Rattle.tree.specs.declared.types.Code.{Code as RowCode};
    ghost use Rattle.tree.specs.Rows.{changed_nodes};
    ghost use Rattle.cradles.specs.Draws.{arrival_leaves};

    // The row.
    ghost Value = { List RowCode };

    ghost view = { λ d. d.row };

    // The two lists are those of the row.
    ghost invariant = { λ d. (d.arrivals.items ≡ arrival_leaves d.row)
        × (d.changed.items ≡ changed_nodes d.row) };
}

impl Draws {
    /// The draws of a row.
    pub fn new(row: &[Code; 128]) -> Draws
        ensures { result ≡ row.now }
    {
        let arrivals = arrival_leaves(row);
        let changed = changed_nodes(&Board::new(row));
        Draws {
            row: *row,
            arrivals,
            changed,
        }
    }

    /// How many bytes they take: 32 for each key.
    pub fn len(&self) -> usize
        ensures { result ≡ drawn_size self.now }
    {
        32 * (self.arrivals.len() + self.changed.len())
    }

    /// The changed nodes, falling.
    pub fn changed(&self) -> &[u8]
        ensures nodes { result.now ≡ changed_nodes self.now }
        ensures few { length result.now ≤ 127 }
    {
        self.changed.as_slice()
    }

    /// Makes of the nodes' keys those after the change, which begins that epoch.
    #[tactic(auto, using(crate::proofs::Dealing::dealt_both))]
    pub fn renew(&self, nodes: &mut [NodeKey; 256], material: &[u8], epoch: u32)
        requires enough { drawn_size self.now ≤ length material.now }
        ensures { nodes.new ≡ keys_after_change epoch self.now material.now nodes.old }
    {
        clear_emptied(nodes, &self.row);
        deal(nodes, &self.arrivals, material, epoch);
        let (_, rest) = material.split_at(32 * self.arrivals.len());
        deal(nodes, &self.changed, rest, epoch);
    }
}
