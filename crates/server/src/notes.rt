//! Serials and cradles as they come in, and the notes of a state's cradles.
ghost use Rattle.std.specs.Prelude.{◌≡◌, ◌-◌, ◌<◌, IfSome, if◌then◌else◌, Some, None};
ghost use Rattle.refusal.specs.Refusals.{verdict_of};
ghost use Rattle.server_rules.specs.States.{is_that_serial, seat_index, held_cradle_index, has_notes};
ghost use Rattle.tree.specs.declared.limits.TheConstants.{CRADLES};
ghost use Rattle.keys.specs.Limits.{is_serial};
ghost use Rattle.cradles.specs.Cradles.{is_cradle};
ghost use Rattle.server_rules.specs.Notes.{admit_verdict, remove_verdict};
ghost use Rattle.server_rules.specs.Calls.{admit, remove, drop_notes};
ghost use Rattle.server_rules.specs.Steps.{server_after};
ghost use Rattle.server.specs.Refusals.{admit_refusal, remove_refusal};

use crate::fault::{AdmitFault, RemoveFault};
use cradles::without_notes;
use keys::is_serial;
use server_rules::State;
use tree::{CRADLES, Mark};

/// The serial that a number is; none, if it is not one of 1 to `LAST_SERIAL`.
pub(crate) fn serial_of(number: u32) -> Option<u16>
    ensures { result ≡ (if is_serial number then Some number else None) }
{
    let serial = u16::try_from(number).ok()?;
    is_serial(serial).then_some(serial)
}

/// The index of the cradle that a number is, counted from 0; none, if it is not one of 1 to `CRADLES`.
pub(crate) fn cradle_index(number: u32) -> Option<usize>
    ensures { result ≡ (if is_cradle number then Some (number - 1) else None) }
{
    if number < 1 || number as usize > CRADLES {
        return None;
    }
    Some(number as usize - 1)
}

fn is_that_serial(serial: u16, other: Option<u16>) -> bool
    ensures { result ≡ is_that_serial serial other }
{
    other == Some(serial)
}

/// The index of the cradle in which the scanner is, counted from 0.
pub(crate) fn seat_index(serial: u16, state: &State) -> Option<usize>
    ensures index { result ≡ seat_index serial state.now }
    ensures range { IfSome result (λ i. i < CRADLES) }
{
    state
        .cradles
        .iter()
        .position(|cradle| is_that_serial(serial, cradle.occupant()))
}

/// The index of the cradle that the scanner holds, counted from 0.
pub(crate) fn held_cradle_index(serial: u16, state: &State) -> Option<usize>
    ensures index { result ≡ held_cradle_index serial state.now }
    ensures range { IfSome result (λ i. i < CRADLES) }
{
    state
        .cradles
        .iter()
        .position(|cradle| is_that_serial(serial, cradle.holder()))
}

/// Whether an arrival or a departure is noted.
pub(crate) fn has_notes(state: &State) -> bool
    ensures { result ≡ has_notes state.now }
{
    state
        .cradles
        .iter()
        .any(|cradle| Mark::Change.is_mark_of(cradle.code()))
}

/// Notes an arrival.
pub(crate) fn admit(state: &mut State, number: u32, cradle: u32) -> Result<(), AdmitFault>
    ensures answer { verdict_of admit_refusal result ≡ admit_verdict state.old number cradle }
    ensures server { state.new ≡ server_after state.old (admit number cradle) }
{
    let serial = serial_of(number).ok_or(AdmitFault::NoSerial)?;
    let index = cradle_index(cradle).ok_or(AdmitFault::NoCradle)?;
    if let Some(held) = held_cradle_index(serial, state) {
        return Err(AdmitFault::SerialHeld {
            cradle: held as u8 + 1,
        });
    }
    let cradle = state.cradles[index];
    if let Some(serial) = cradle.holder() {
        return Err(AdmitFault::CradleHeld { serial });
    }
    state.cradles[index] = cradle.with_arrival(serial);
    Ok(())
}

/// Notes a departure.
pub(crate) fn remove(state: &mut State, number: u32) -> Result<(), RemoveFault>
    ensures answer { verdict_of remove_refusal result ≡ remove_verdict state.old number }
    ensures server { state.new ≡ server_after state.old (remove number) }
{
    let serial = serial_of(number).ok_or(RemoveFault::NoSerial)?;
    let index = seat_index(serial, state).ok_or(RemoveFault::NotSeated)?;
    let cradle = state.cradles[index];
    if cradle.has_departure() {
        return Err(RemoveFault::Departing);
    }
    state.cradles[index] = cradle.with_departure();
    Ok(())
}

/// Clears all notes.
pub(crate) fn drop_notes(state: &mut State)
    ensures { state.new ≡ server_after state.old drop_notes }
{
    state.cradles = without_notes(&state.cradles);
}
