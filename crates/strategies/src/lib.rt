//! The three rekey strategies, each by a rule.
#![tactic(auto)]

ghost use Rattle.std.specs.Prelude.{◌≡◌, List};
ghost use Rattle.tree.specs.declared.types.Code.{Code as Codes};
ghost use Rattle.strategy_rules.specs.Rules.{plan, star_rule, user_oriented_rule, key_oriented_rule};

use tree::{Board, Code, Pair, PlanFault, Strategy};

mod serving;
mod writer;

pub use serving::{KeyOrientedRule, LawfulRule, Rule, StarRule, UserOrientedRule};
use writer::fill;

/// The strategy of a lawful rule: each new key under the openers that serve its node.
#[derive(Clone, Copy, Default)]
pub struct ByRule<R>(R);

impl<R: LawfulRule> Strategy for ByRule<R> {
    ghost meaning = { plan R.rule };

    ghost lawful = { λ row _. R.lawful row };

    fn plan(&self, row: &[Code; 128], pairs: &mut [Pair]) -> Result<usize, PlanFault> {
        fill::<R>(&Board::new(row), pairs)
    }
}

/// Each new key under each occupied leaf beneath its node.
pub type Star = ByRule<StarRule>;

/// Each new key under each top beneath its node.
pub type UserOriented = ByRule<UserOrientedRule>;

/// Each new key under its node's former key and the arrivals' leaves beneath, or under the node's
/// children.
pub type KeyOriented = ByRule<KeyOrientedRule>;

/// Each of the three plans by its rule.
pub fn three_plans()
    ensures star { (row : List Codes)
        → ⟦<Star as Strategy>⟧.meaning row ≡ plan star_rule row }
    ensures user_oriented { (row : List Codes)
        → ⟦<UserOriented as Strategy>⟧.meaning row ≡ plan user_oriented_rule row }
    ensures key_oriented { (row : List Codes)
        → ⟦<KeyOriented as Strategy>⟧.meaning row ≡ plan key_oriented_rule row }
{}
