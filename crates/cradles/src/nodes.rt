//! The nodes that a change touches, listed in the order of the draws, and what becomes of their
//! keys.
ghost use Rattle.std.specs.Prelude.{◌≡◌, ◌*◌, ◌<◌, ◌≤◌, if◌then◌else◌, [], ◌∷◌, ◌++◌, length, slice_set};
ghost use Rattle.arrayvec.specs.ArrayVec.{array_vec_len};
ghost use Rattle.tree.specs.Rows.{code_at, changed_nodes};
ghost use Rattle.keys.specs.Names.{unmade_key};
ghost use Rattle.cradles.specs.Draws.{is_arrival_code, is_emptying_code, arrival_leaves, emptied_leaves, keys_without, keys_with_draws};

use arrayvec::ArrayVec;
use byte_strings::part_of;
use keys::NodeKey;
use tree::{Board, Code};

fn code_at(row: &[Code; 128], leaf: u8) -> Code
    requires { 128 ≤ leaf }
    ensures { result ≡ code_at row.now leaf }
{
    row[usize::from(leaf) - 128]
}

fn is_arrival_code(code: Code) -> bool
    ensures { result ≡ is_arrival_code code }
{
    matches!(code, Code::Arrives | Code::Swaps)
}

fn is_emptying_code(code: Code) -> bool
    ensures { result ≡ is_emptying_code code }
{
    matches!(code, Code::Departs)
}

// Lists a node behind the others, if it is to be listed.
fn list_if<const N: usize>(listed: &mut ArrayVec<u8, N>, node: u8, is_listed: bool)
    requires { array_vec_len listed.old < N }
    ensures { listed.new.items ≡ listed.old.items ++ (if is_listed then node ∷ [] else []) }
{
    if is_listed {
        listed.push(node);
    }
}

/// The leaves of the arrivals, by rising cradle.
pub(crate) fn arrival_leaves(row: &[Code; 128]) -> ArrayVec<u8, 128>
    ensures { result.items ≡ arrival_leaves row.now }
{
    let mut leaves = ArrayVec::new();
    // By number, since what is listed is the leaf and not its code.
    for i in 0..128u8 {
        let leaf = 128 + i;
        list_if(&mut leaves, leaf, is_arrival_code(code_at(row, leaf)));
    }
    leaves
}

/// The changed nodes, by falling number.
pub(crate) fn changed_nodes(board: &Board) -> ArrayVec<u8, 127>
    ensures { result.items ≡ changed_nodes board.now }
{
    let mut nodes = ArrayVec::new();
    // By number, since what is listed is the node and not its marks.
    for n in (1..128u8).rev() {
        list_if(&mut nodes, n, board.is_changed(n));
    }
    nodes
}

// Clears the key of a leaf that the change empties.
fn clear_if(nodes: &mut [NodeKey; 256], leaf: u8, is_emptied: bool)
    ensures { nodes.new ≡ (if is_emptied then slice_set nodes.old leaf unmade_key else nodes.old) }
{
    if is_emptied {
        nodes[usize::from(leaf)] = NodeKey::UNMADE;
    }
}

/// Clears the keys of the leaves that the change empties.
pub(crate) fn clear_emptied(nodes: &mut [NodeKey; 256], row: &[Code; 128])
    ensures { nodes.new ≡ keys_without (emptied_leaves row.now) nodes.old }
{
    // By number, since what is cleared stands at the leaf's number.
    for i in 0..128u8 {
        let leaf = 128 + i;
        clear_if(nodes, leaf, is_emptying_code(code_at(row, leaf)));
    }
}

/// Gives each of these nodes the next 32 bytes as its key.
#[tactic(auto, using(crate::proofs::Dealing::deal_none, crate::proofs::Dealing::deal_next, crate::proofs::Dealing::deal_all))]
pub(crate) fn deal(nodes: &mut [NodeKey; 256], receivers: &[u8], material: &[u8], epoch: u32)
    requires enough { 32 * length receivers.now ≤ length material.now }
    ensures { nodes.new ≡ keys_with_draws epoch receivers.now material.now nodes.old }
{
    for (i, node) in receivers.iter().enumerate() {
        let key = part_of(material, 32 * i);
        nodes[usize::from(*node)] = NodeKey { made: epoch, key };
    }
}
