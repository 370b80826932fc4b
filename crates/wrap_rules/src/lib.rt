//! What the product's two wraps mean, in the words of RFC 3394 and RFC 5297, and that both open
//! exactly what they seal. There is no code to run here.
#![tactic(auto)]

ghost use Rattle.wrap.specs.Meaning.{IsLawfulWrap};
ghost use Rattle.wrap_rules.specs.Meanings.{rfc_3394, rfc_5297};
ghost use Rattle.wrap_rules.specs.Laws.{IsSivExact};

/// Both wraps are lawful, and SIV opens exactly what it seals, for strings and texts of any length.
#[tactic(auto, using(crate::proofs::Lawful::rfc_3394_lawful, crate::proofs::Lawful::rfc_5297_lawful, crate::proofs::SivOpenings::exact))]
pub fn wraps_are_lawful()
    ensures key_wrap { IsLawfulWrap rfc_3394 }
    ensures siv { IsLawfulWrap rfc_5297 }
    ensures siv_of_any_length { IsSivExact }
{}
