//! A server.
use server_rules::State;
use std::marker::Model;

/// The key server of a site: its epoch, who is in its cradles and what is noted for them, and the
/// keys of the tree.
#[derive(Drop)]
pub struct Server {
    pub(crate) state: State,
}

impl Model for Server {
    ghost use Rattle.server_rules.specs.declared.state.State.{State};
    ghost use Rattle.server_rules.specs.Sound.{IsSoundServer};
    ghost use Rattle.law.specs.Runs.{ComesFromRun};

    ghost Value = { State };

    ghost view = { λ s. s.state };

    // What every server keeps; and it comes from calls on a new server, so all that holds of runs holds of it.
    ghost invariant = { λ s. IsSoundServer s.state × ∥ ComesFromRun s.state ∥₁ };
}
