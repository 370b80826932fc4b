//! The laws that the product's wraps and strategies keep.
ghost use Rattle.std.specs.Prelude.{◌≡◌};
ghost use Rattle.wrap.specs.Meaning.{IsLawfulWrap};
ghost use Rattle.wrap_rules.specs.Meanings.{rfc_3394, rfc_5297};
ghost use Rattle.tree.specs.Plans.{IsLawfulStrategy};

use kw::KeyWrap;
use siv::Siv;
use strategies::{KeyOriented, Star, UserOriented};
use tree::Strategy;
use wrap::Wrap;

fn wrap_is_lawful<W: Wrap>()
    ensures { IsLawfulWrap W.meaning }
{}

fn strategy_is_lawful<S: Strategy>()
    ensures { IsLawfulStrategy S.meaning }
{}

/// The wraps and strategies of the product keep the laws that the law over runs asks of a
/// publishing: both wraps, of the kinds 1 and 2, and the three strategies.
pub fn parts_are_lawful()
    ensures kinds { (⟦<KeyWrap as Wrap>⟧.meaning.kind ≡ 1) × (⟦<Siv as Wrap>⟧.meaning.kind ≡ 2) }
    ensures key_wrap_length { ⟦<KeyWrap as Wrap>⟧.meaning.length ≡ 40 }
    ensures siv_length { ⟦<Siv as Wrap>⟧.meaning.length ≡ 48 }

    ensures key_wrap { IsLawfulWrap ⟦<KeyWrap as Wrap>⟧.meaning }
    ensures siv { IsLawfulWrap ⟦<Siv as Wrap>⟧.meaning }
    ensures rfc_3394 { ⟦<KeyWrap as Wrap>⟧.meaning ≡ rfc_3394 }
    ensures rfc_5297 { ⟦<Siv as Wrap>⟧.meaning ≡ rfc_5297 }

    ensures star { IsLawfulStrategy ⟦<Star as Strategy>⟧.meaning }
    ensures user_oriented { IsLawfulStrategy ⟦<UserOriented as Strategy>⟧.meaning }
    ensures key_oriented { IsLawfulStrategy ⟦<KeyOriented as Strategy>⟧.meaning }
{
    wrap_is_lawful::<KeyWrap>();
    wrap_is_lawful::<Siv>();
    strategy_is_lawful::<Star>();
    strategy_is_lawful::<UserOriented>();
    strategy_is_lawful::<KeyOriented>();
}
