//! Which opener serves which content, by each rule.
ghost use Rattle.std.specs.Prelude.{◌≡◌};
ghost use Rattle.strategy_rules.specs.Rules.{Rule as Rules, star_rule, is_top, user_oriented_rule, is_child, key_oriented_rule};
ghost use Rattle.strategy_rules.specs.Lawfulness.{IsLawfulRule};
ghost use Rattle.strategy_rules.proofs.StarLaw.{star_lawful};
ghost use Rattle.strategy_rules.proofs.UserLaw.{user_oriented_lawful};
ghost use Rattle.strategy_rules.proofs.KeyLaw.{key_oriented_lawful};

use tree::{Board, Opener, is_beneath, is_inner, is_leaf, parent};

/// Which openers serve a changed node.
pub trait Rule {
    // The rule that `serves` follows.
    ghost rule: { Rules };

    /// Whether the new key of the node `content` is to be wrapped under the opener.
    fn serves(board: &Board, content: u8, opener: Opener) -> bool
        ensures { result ≡ rule board.now content opener };
}

/// A rule whose plan is lawful for every row. It may be laid alone: see `ByRule`.
pub trait LawfulRule: Rule {
    ghost lawful: { IsLawfulRule Self.rule };
}

/// An opener serves where it is the present key of an occupied leaf beneath the content.
#[derive(Clone, Copy, Default)]
pub struct StarRule;

impl Rule for StarRule {
    ghost rule = { star_rule };

    fn serves(board: &Board, content: u8, opener: Opener) -> bool {
        match opener {
            Opener::Former(_) => false,
            Opener::Present(o) => is_leaf(o) && is_beneath(o, content) && board.is_occupied(o),
        }
    }
}

impl LawfulRule for StarRule {
    ghost lawful = { star_lawful };
}

// Whether `o` has a changed parent and is an occupied leaf or an occupied unchanged inner node.
fn is_top(board: &Board, o: u8) -> bool
    ensures { result ≡ is_top board.now o }
{
    board.is_changed(parent(o))
        && board.is_occupied(o)
        && (is_leaf(o) || is_inner(o) && !board.is_changed(o))
}

/// An opener serves where it is the present key of a top beneath the content.
#[derive(Clone, Copy, Default)]
pub struct UserOrientedRule;

impl Rule for UserOrientedRule {
    ghost rule = { user_oriented_rule };

    fn serves(board: &Board, content: u8, opener: Opener) -> bool {
        match opener {
            Opener::Former(_) => false,
            Opener::Present(o) => is_beneath(o, content) && is_top(board, o),
        }
    }
}

impl LawfulRule for UserOrientedRule {
    ghost lawful = { user_oriented_lawful };
}

/// If the content's former key serves: that key, and each leaf beneath that somebody arrives at. If
/// it does not: each occupied child of the content.
#[derive(Clone, Copy, Default)]
pub struct KeyOrientedRule;

impl Rule for KeyOrientedRule {
    ghost rule = { key_oriented_rule };

    fn serves(board: &Board, content: u8, opener: Opener) -> bool {
        let former = board.former_serves(content);
        match opener {
            Opener::Former(_) => former,
            Opener::Present(o) if former => is_beneath(o, content) && board.is_arrival_in_empty(o),
            Opener::Present(o) => is_child(o, content) && board.is_occupied(o),
        }
    }
}

impl LawfulRule for KeyOrientedRule {
    ghost lawful = { key_oriented_lawful };
}

// Whether `n` is the parent of `o`.
fn is_child(o: u8, n: u8) -> bool
    ensures { result ≡ is_child o n }
{
    parent(o) == n
}
