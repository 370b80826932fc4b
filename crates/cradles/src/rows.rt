//! The cradles of a site: their codes, and what a call makes of all of them.
ghost use Rattle.std.specs.Prelude.{◌≡◌, map};
ghost use Rattle.cradles.specs.Cradles.{cradle_code, without_notes, after_change};

use crate::Cradle;
use tree::Code;

/// The codes of the next change.
pub fn row(cradles: &[Cradle; 128]) -> [Code; 128]
    ensures { result ≡ map cradle_code cradles.now }
{
    cradles.map(
        |cradle| -> Code
            ensures { result ≡ cradle_code cradle }
        { cradle.code() },
    )
}

/// The cradles with nothing noted.
pub fn without_notes(cradles: &[Cradle; 128]) -> [Cradle; 128]
    ensures { result ≡ map without_notes cradles.now }
{
    cradles.map(
        |cradle| -> Cradle
            ensures { result ≡ without_notes cradle }
        { cradle.without_notes() },
    )
}

/// The cradles with their notes carried out.
pub fn after_change(cradles: &[Cradle; 128]) -> [Cradle; 128]
    ensures { result ≡ map after_change cradles.now }
{
    cradles.map(
        |cradle| -> Cradle
            ensures { result ≡ after_change cradle }
        { cradle.after_change() },
    )
}
