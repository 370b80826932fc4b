//! Publishing: a change of keys from the notes, sealed as a rekey file.
ghost use Rattle.std.specs.Prelude.{◌≡◌, ◌+◌, ◌<◌, ◌≤◌, length, OnOk, IfOk};
ghost use Rattle.refusal.specs.Refusals.{verdict_of};
ghost use Rattle.wrap.specs.Calls.{work_after};
ghost use Rattle.tree.specs.Rows.{changed_nodes};
ghost use Rattle.keys.specs.Names.{keys_in};
ghost use Rattle.file_rules.specs.Files.{file_bytes, file_size};
ghost use Rattle.file_rules.specs.Sealing.{rekey_of};
ghost use Rattle.server_rules.specs.States.{row};
ghost use Rattle.cradles.specs.Draws.{drawn_size};
ghost use Rattle.server_rules.specs.Calls.{publishing, publish};
ghost use Rattle.server_rules.specs.Publishings.{publishing_size, due_verdict, publish_verdict, pairs_after_publish, file_after_publish};
ghost use Rattle.server_rules.specs.Steps.{server_of_next_epoch, server_after};
ghost use Rattle.server.specs.Refusals.{publish_refusal};
ghost use Rattle.server.specs.Prepared.{prepared_verdict};
ghost use Rattle.tree.specs.declared.limits.TheConstants.{MOST_PAIRS};

use crate::fault::PublishFault;
use crate::notes::has_notes;
use cradles::{Draws, after_change, row};
use file_writer::{Change, file_len};
use keys::LAST_EPOCH;
use server_rules::{PublishReport, State};
use tree::{Pair, Strategy};
use wrap::{WORKING_BYTES, Working, Wrap};

/// A publishing that nothing refuses any more: what it draws, and what it reports. Its plan is in the pair buffer.
#[derive(Drop)]
pub(crate) struct Prepared {
    draws: Draws,
    report: PublishReport,
}

// Something is noted, and there is an epoch left.
fn check_due(state: &State) -> Result<(), PublishFault>
    ensures { verdict_of publish_refusal result ≡ due_verdict state.now }
{
    if !has_notes(state) {
        return Err(PublishFault::NothingNoted);
    }
    if state.epoch >= LAST_EPOCH {
        return Err(PublishFault::LastEpoch);
    }
    Ok(())
}

// The server after a change: the notes carried out, and new keys for the nodes.
fn server_of_next_epoch(state: &State, draws: &Draws, material: &[u8]) -> State
    requires early { state.now.epoch < LAST_EPOCH }
    requires draws { draws.now ≡ row state.now }
    requires enough { drawn_size draws.now ≤ length material.now }
    ensures { result ≡ server_of_next_epoch state.now material.now }
{
    let epoch = state.epoch + 1;
    let cradles = after_change(&state.cradles);
    let mut nodes = state.nodes;
    draws.renew(&mut nodes, material, epoch);
    State {
        epoch,
        cradles,
        nodes,
    }
}

/// Makes all checks of a publishing, and writes its plan to the front of `pairs`. Of `file` and `work` it reads the lengths.
pub(crate) fn prepare<S: Strategy, W: Wrap>(
    state: &State,
    strategy: &S,
    wrap: &W,
    material: &[u8],
    pairs: &mut [Pair],
    file: &[u8],
    work: &Working<'_>,
) -> Result<Prepared, PublishFault>
    ensures answer { prepared_verdict result ≡ publish_verdict state.now
        (publishing S.meaning W.meaning
        material.now pairs.old file.now work.now.bytes.now) }
    ensures planned { pairs.new ≡ pairs_after_publish state.now
        (publishing S.meaning W.meaning
        material.now pairs.old file.now work.now.bytes.now) }
    ensures room { IfOk result (λ it. it.report.bytes ≡ publishing_size state.now
        (publishing S.meaning W.meaning
        material.now pairs.old file.now work.now.bytes.now)) }
    ensures draws { IfOk result (λ it. it.draws ≡ row state.now) }
    ensures early { OnOk result (state.now.epoch < LAST_EPOCH) }
    ensures enough { OnOk result (drawn_size (row state.now) ≤ length material.now) }
{
    check_due(state)?;
    if work.bytes.len() < WORKING_BYTES {
        return Err(PublishFault::ShortWorking);
    }
    let row = row(&state.cradles);
    let draws = Draws::new(&row);
    let drawn = draws.len();
    if material.len() < drawn {
        return Err(PublishFault::ShortMaterial { needed: drawn });
    }
    let wraps = strategy.plan(&row, pairs)?;
    let bytes = file_len(wrap, draws.changed().len(), wraps);
    if file.len() < bytes {
        return Err(PublishFault::ShortFile { needed: bytes });
    }
    let report = PublishReport {
        epoch: state.epoch + 1,
        wraps,
        bytes,
        drawn,
    };
    Ok(Prepared { draws, report })
}

/// Writes the file of a prepared publishing over the whole of `file`, carries out the notes, and clears `work`.
pub(crate) fn finish<W: Wrap>(
    state: &mut State,
    prepared: &Prepared,
    wrap: &W,
    material: &[u8],
    plan: &[Pair],
    file: &mut [u8],
    work: &mut [u8],
)
    requires draws { prepared.now.draws ≡ row state.old }
    requires early { state.old.epoch < LAST_EPOCH }
    requires enough { drawn_size (row state.old) ≤ length material.now }
    requires few_pairs { length plan.now ≤ MOST_PAIRS }
    requires room { length file.old
        ≡ file_size W.meaning.length (length (changed_nodes (row state.old))) (length plan.now) }
    requires working { WORKING_BYTES ≤ length work.old }
    ensures server { state.new ≡ server_of_next_epoch state.old material.now }
    ensures written { file.new ≡ file_bytes (rekey_of W.meaning.kind W.meaning.seals
        (state.old.epoch + 1) (changed_nodes (row state.old)) plan.now
        (keys_in state.old.nodes) (keys_in (server_of_next_epoch state.old material.now).nodes)) }
    ensures cleared { work.new ≡ work_after work.old }
{
    let next = server_of_next_epoch(state, &prepared.draws, material);
    let change = Change {
        epoch: next.epoch,
        nodes: prepared.draws.changed(),
        plan,
        former: &state.nodes,
        present: &next.nodes,
    };
    change.write_to(wrap, file, work);
    *state = next;
}

/// Carries out the notes and writes the plan and the file of the change into the buffers that are lent.
pub(crate) fn publish<S: Strategy, W: Wrap>(
    state: &mut State,
    strategy: &S,
    wrap: &W,
    material: &[u8],
    pairs: &mut [Pair],
    file: &mut [u8],
    work: &mut [u8],
) -> Result<PublishReport, PublishFault>
    ensures answer { verdict_of publish_refusal result ≡ publish_verdict state.old
        (publishing S.meaning W.meaning
        material.now pairs.old file.old work.old) }
    ensures server { state.new ≡ server_after state.old
        (publish (publishing S.meaning W.meaning
        material.now pairs.old file.old work.old)) }
    ensures planned { pairs.new ≡ pairs_after_publish state.old
        (publishing S.meaning W.meaning
        material.now pairs.old file.old work.old) }
    ensures written { file.new ≡ file_after_publish state.old
        (publishing S.meaning W.meaning
        material.now pairs.old file.old work.old) }
    ensures cleared { work.new ≡ work_after work.old }
{
    let guard = Working { bytes: work };
    let prepared = prepare(state, strategy, wrap, material, pairs, file, &guard)?;
    let PublishReport { wraps, bytes, .. } = prepared.report;
    finish(
        state,
        &prepared,
        wrap,
        material,
        &pairs[..wraps],
        &mut file[..bytes],
        guard.bytes,
    );
    Ok(prepared.report)
}
