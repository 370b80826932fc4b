//! Writing the pairs that a rule asks for, in plan order.
ghost use Rattle.std.specs.Prelude.{◌≡◌, ◌+◌, ◌<◌, ◌≤◌, ◌++◌, [], ◌∷◌, length, drop};
ghost use Rattle.refusal.specs.Refusals.{verdict_of};
ghost use Rattle.tree.specs.Calls.{plan_refusal, strategy_verdict, pairs_after_plan};
ghost use Rattle.strategy_rules.specs.Rules.{pairs_for, plan};
ghost use Rattle.strategies.specs.Writing.{with_pair, with_pairs};
ghost use Rattle.strategy_rules.specs.Rules.{pairs_under};

use crate::serving::Rule;
use tree::{Board, Opener, Pair, PlanFault};

// Pairs laid one after another into lent room; those that have no room are only counted. So the
// count may be more than the room's length.
#[derive(Drop)]
struct PairList<'a> {
    room: &'a mut [Pair],
    count: usize,
}

impl PairList<'_> {
    // Each call may end what bounds the count, so no invariant of the struct can hold the bound.
    fn push(&mut self, pair: Pair)
        requires { self.old.count < usize.MAX }
        ensures { self.new ≡ with_pair self.old pair }
    {
        if self.count < self.room.len() {
            self.room[self.count] = pair;
        }
        self.count += 1;
    }

    // The pair of an opener, if it serves the content.
    fn offer<R: Rule>(&mut self, board: &Board, opener: Opener, content: u8)
        requires { self.old.count < usize.MAX }
        ensures { self.new
            ≡ with_pairs self.old (pairs_under R.rule board.now content (opener ∷ [])) }
    {
        if R::serves(board, content, opener) {
            self.push(Pair { opener, content });
        }
    }

    // The pairs with the content `n`: by its own former key first, and then by the present keys of
    // the nodes, 1 to 255.
    #[tactic(auto, using(crate::proofs::Laying::contents))]
    fn push_content<R: Rule>(&mut self, board: &Board, n: u8)
        requires { self.old.count + length (pairs_for R.rule board.now n) < usize.MAX }
        ensures { self.new ≡ with_pairs self.old (pairs_for R.rule board.now n) }
    {
        self.offer::<R>(board, Opener::Former(n), n);
        for o in 1..=255 {
            self.offer::<R>(board, Opener::Present(o), n);
        }
    }

    // The plan of a rule, behind what was laid: the changed nodes by falling number, so that a
    // reader on its way up meets each key before the pairs that it opens. There are 127 inner
    // nodes, with 256 candidates each (one former key, 255 present ones), so no more than 32768,
    // which is 128 times 256, come to it; 65536 leaves room for them below `usize.MAX`.
    #[tactic(auto, using(crate::proofs::Laying::plans))]
    fn push_plan<R: Rule>(&mut self, board: &Board)
        requires { self.old.count ≤ 65536 }
        ensures plan { self.new ≡ with_pairs self.old (plan R.rule board.now) }
        ensures few { self.new.count ≤ self.old.count + 32768 }
    {
        for n in (1..128u8).rev() {
            if board.is_changed(n) {
                self.push_content::<R>(board, n);
            }
        }
    }
}

// The whole plan, as far as there is room; answers how many pairs it has.
#[tactic(auto, using(crate::proofs::Laying::laid_plan))]
fn lay<R: Rule>(board: &Board, out: &mut [Pair]) -> usize
    ensures count { result ≡ length (plan R.rule board.now) }
    ensures written { out.new
        ≡ (with_pairs (record { room = out.entry; count = 0 })
        (plan R.rule board.now)).room.now }
    ensures fits { result ≤ length out.old
        → out.new ≡ plan R.rule board.now ++ drop result out.old }
{
    let mut list = PairList {
        room: out,
        count: 0,
    };
    list.push_plan::<R>(board);
    list.count
}

/// Writes the plan of a rule, or refuses if it does not fit (11, with the pairs needed).
pub fn fill<R: Rule>(board: &Board, out: &mut [Pair]) -> Result<usize, PlanFault>
    ensures answer { verdict_of plan_refusal result
        ≡ strategy_verdict (plan R.rule board.now) out.old }
    ensures written { out.new ≡ pairs_after_plan (plan R.rule board.now) out.old }
{
    // With no room at all the pairs are only counted.
    let needed = lay::<R>(board, &mut []);
    if out.len() < needed {
        return Err(PlanFault::ShortPairs { needed });
    }
    Ok(lay::<R>(board, out))
}
