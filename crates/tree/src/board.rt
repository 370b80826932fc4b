//! A row of codes, with what stands beneath each node.
ghost use Rattle.std.specs.Prelude.{◌≡◌, ◌&&◌, length};
ghost use Rattle.tree.specs.Tree.{is_leaf};
ghost use Rattle.tree.specs.Rows.{is_arrival_in_empty, code_at, is_changed, changed_nodes, is_occupied, former_serves, stands_mark, IsStandingTable};

use crate::codes::Standing;
use crate::nodes::is_inner;
use crate::types::{Code, Mark};
use std::marker::Model;

/// A row of codes with what stands at all nodes, made once for a plan.
#[derive(Drop)]
pub struct Board {
    row: [Code; 128],
    nodes: [Standing; 256],
}

impl Model for Board {
    ghost use Rattle.std.specs.Prelude.{List};
    ghost use Rattle.tree.specs.declared.types.Code.{Code as Codes};
    ghost use Rattle.tree.specs.Rows.{IsStandingTable};

    // The row.
    ghost Value = { List Codes };

    ghost view = { λ b. b.row };

    // The table is that of the row.
    ghost invariant = { λ b. IsStandingTable b.row b.nodes };
}

// What stands at each number below 256; nothing at 0, which is no node.
fn standing_table(row: &[Code; 128]) -> [Standing; 256]
    ensures { IsStandingTable row.now result }
{
    let mut nodes = [Standing::default(); 256];
    // By number, from the leaves up: the children of n are 2 n and 2 n + 1.
    for n in (1..256).rev() {
        nodes[n] = if n < 128 {
            nodes[2 * n].or(nodes[2 * n + 1])
        } else {
            Standing::from(row[n - 128])
        };
    }
    nodes
}

impl Board {
    /// The board of a row.
    pub fn new(row: &[Code; 128]) -> Board
        ensures { result ≡ row.now }
    {
        Board {
            row: *row,
            nodes: standing_table(row),
        }
    }

    /// Whether a code that the mark looks for stands at `n` or beneath it.
    pub fn stands_mark(&self, mark: Mark, n: u8) -> bool
        ensures { result ≡ stands_mark mark self.now n }
    {
        self.nodes[n as usize].has_mark(mark)
    }

    /// Whether the inner node `n` gets a new key; false at a leaf.
    #[tactic(auto, unfolding(crate::specs::Rows::is_changed))]
    pub fn is_changed(&self, n: u8) -> bool
        ensures { result ≡ is_changed self.now n }
    {
        is_inner(n) && self.stands_mark(Mark::Change, n)
    }

    /// How many inner nodes get a new key.
    pub fn changed_count(&self) -> usize
        ensures { result ≡ length (changed_nodes self.now) }
    {
        (1..128u8)
            .filter(
                |n| -> bool
                    ensures { result ≡ is_changed self.entry.now n.now }
                { self.is_changed(*n) },
            )
            .count()
    }

    /// Whether somebody is at `n` or beneath it after the change.
    pub fn is_occupied(&self, n: u8) -> bool
        ensures { result ≡ is_occupied self.now n }
    {
        self.stands_mark(Mark::Presence, n)
    }

    /// Whether the former key of `n` is known to somebody who stays, and to nobody who departs.
    pub fn former_serves(&self, n: u8) -> bool
        ensures { result ≡ former_serves self.now n }
    {
        self.stands_mark(Mark::Stay, n) && !self.stands_mark(Mark::Departure, n)
    }

    /// Whether `n` is a leaf at which somebody arrives in an empty cradle; false where one scanner
    /// takes over from another.
    pub fn is_arrival_in_empty(&self, n: u8) -> bool
        ensures { result ≡ (is_leaf n && is_arrival_in_empty (code_at self.now n)) }
    {
        n >= 128 && matches!(self.row[n as usize - 128], Code::Arrives)
    }
}
