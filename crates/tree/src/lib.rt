//! The key tree, rows of codes, and the interface of a rekey strategy.
#![tactic(auto)]

ghost use Rattle.std.specs.Prelude.{◌≡◌};
ghost use Rattle.refusal.specs.Refusals.{verdict_of};
ghost use Rattle.tree.specs.Laws.{TreeLaws};
ghost use Rattle.tree.specs.Plans.{StrategyMeaning, IsLawfulStrategy};
ghost use Rattle.tree.specs.Calls.{plan_refusal, strategy_verdict, pairs_after_plan};

mod board;
mod codes;
mod fault;
mod limits;
mod nodes;
mod types;

pub use board::Board;
pub use limits::{CRADLES, MOST_PAIRS};
pub use nodes::{is_beneath, is_inner, is_leaf, is_within, parent};
pub use types::{Code, Mark, Opener, Pair, PlanFault, UnknownCode};

/// One lawful plan for every row of codes.
pub trait Strategy {
    // What the strategy means: its plan for each row.
    ghost meaning: { StrategyMeaning };

    /// Writes the plan to the front of `pairs`, and answers how many pairs it has. The pairs are
    /// lent: no call allocates. Too few are refused (11, with the pairs needed); `MOST_PAIRS` are
    /// always enough.
    fn plan(&self, row: &[Code; 128], pairs: &mut [Pair]) -> Result<usize, PlanFault>
        ensures answer { verdict_of plan_refusal result
            ≡ strategy_verdict (meaning row.now) pairs.old }
        ensures written { pairs.new ≡ pairs_after_plan (meaning row.now) pairs.old };

    ghost lawful: { IsLawfulStrategy meaning };
}

/// The tests on nodes say what the rules say.
pub fn tree_laws()
    ensures { TreeLaws }
{}
