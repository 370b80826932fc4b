//! The tree's nodes by their numbers.
ghost use Rattle.std.specs.Prelude.{◌≡◌, ◌/◌};
ghost use Rattle.tree.specs.Tree.{is_within, is_beneath, is_leaf, is_inner};

/// The node above `n`; 0 above the root.
pub fn parent(n: u8) -> u8
    ensures { result ≡ n / 2 }
{
    n / 2
}

/// Whether `m` is the node `n` or beneath it.
#[tactic(auto, using(crate::proofs::Halvings::walk))]
pub fn is_within(m: u8, n: u8) -> bool
    ensures { result ≡ is_within m n }
{
    let mut at = m;
    while at > n {
        at = parent(at);
    }
    n > 0 && at == n
}

/// Whether `m` is beneath the node `n`: halving it one or more times gives `n`.
pub fn is_beneath(m: u8, n: u8) -> bool
    ensures { result ≡ is_beneath m n }
{
    is_within(parent(m), n)
}

/// Whether `n` is a leaf, 128 to 255.
pub fn is_leaf(n: u8) -> bool
    ensures { result ≡ is_leaf n }
{
    n >= 128
}

/// Whether `n` is an inner node, 1 to 127; 0 is no node.
pub fn is_inner(n: u8) -> bool
    ensures { result ≡ is_inner n }
{
    0 < n && n < 128
}
