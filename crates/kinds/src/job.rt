//! Running something with the wrap of a kind.
ghost use Rattle.std.specs.Prelude.{⊤};
ghost use Rattle.wrap.specs.Meaning.{WrapMeaning};
ghost use Rattle.kinds.specs.Kinds.{kind_meaning};

use crate::kind::Kind;
use kw::KeyWrap;
use siv::Siv;
use wrap::Wrap;

/// Something to do with a wrap, whichever kind it is of.
pub trait WrapJob {
    type Output;

    // Of what the wrap means, the job before, the output and the job after.
    ghost gives: { WrapMeaning → Self → Self.Output → Self → Type 0 } = { λ _ _ _ _. ⊤ };

    /// Does the job with this wrap.
    fn run<W: Wrap>(&mut self, wrap: &W) -> Self::Output
        ensures { gives W.meaning self.old result self.new };
}

impl Kind {
    /// Does the job with the wrap of this kind.
    pub fn run<J: WrapJob>(self, job: &mut J) -> J::Output
        ensures { J.gives (kind_meaning self) job.old result job.new }
    {
        match self {
            Kind::Rfc3394 => job.run(&KeyWrap),
            Kind::Rfc5297 => job.run(&Siv),
        }
    }
}
