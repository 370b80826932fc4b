//! The key server of a site.
#![tactic(auto)]

ghost use Rattle.std.specs.Prelude.{◌≡◌};
ghost use Rattle.refusal.specs.Refusals.{verdict_of};
ghost use Rattle.wrap.specs.Calls.{work_after};
ghost use Rattle.server_rules.specs.States.{new_state, group_key_of};
ghost use Rattle.server_rules.specs.Calls.{publishing, admit, remove, drop_notes, publish};
ghost use Rattle.server_rules.specs.Notes.{admit_verdict, remove_verdict};
ghost use Rattle.server_rules.specs.Cards.{card_verdict, buffer_after_card};
ghost use Rattle.server_rules.specs.Publishings.{publish_verdict, pairs_after_publish, file_after_publish};
ghost use Rattle.server_rules.specs.Steps.{server_after};
ghost use Rattle.law.specs.Law.{EveryRun, LawHoldsFor};
ghost use Rattle.server.specs.Refusals.{admit_refusal, remove_refusal, card_refusal, publish_refusal};

mod card;
mod fault;
mod notes;
mod publish;
mod server;

use cradles::Cradle;
pub use fault::{AdmitFault, CardFault, PublishFault, RemoveFault};
use keys::NodeKey;
pub use keys::{CARD_BYTES, LAST_EPOCH};
pub use server::Server;
use server_rules::{PublishReport, State};
use tree::{Pair, Strategy};
use wrap::Wrap;

impl Server {
    /// A new server. Whatever is called on it, the group key of an epoch belongs to its members: it
    /// is reached by nobody else, and each of their players holds it.
    #[tactic(auto, using(law::proofs::EveryRun::every_run, law::proofs::Servers::new_kept))]
    pub fn new() -> Server
        ensures server { result ≡ new_state }
        ensures belongs_to_members { EveryRun }
    {
        Server {
            state: State {
                epoch: 0,
                cradles: [Cradle::Empty; 128],
                nodes: [NodeKey::UNMADE; 256],
            },
        }
    }

    /// Notes that a scanner arrives at a cradle. The checks are in this order: a serial that is not
    /// one of 1 to `LAST_SERIAL` (1), a cradle that is not one of 1 to `CRADLES` (2), a scanner
    /// that holds a cradle (3, with the cradle), a cradle that is held (4, with the serial of its
    /// holder).
    pub fn admit(&mut self, serial: u32, cradle: u32) -> Result<(), AdmitFault>
        ensures answer { verdict_of admit_refusal result ≡ admit_verdict self.old serial cradle }
        ensures server { self.new ≡ server_after self.old (admit serial cradle) }
    {
        notes::admit(&mut self.state, serial, cradle)
    }

    /// Notes that a scanner departs from its cradle. The checks are in this order: a serial that is
    /// not one of 1 to `LAST_SERIAL` (1), a scanner that is in no cradle (5), a departure that is
    /// noted already (6).
    pub fn remove(&mut self, serial: u32) -> Result<(), RemoveFault>
        ensures answer { verdict_of remove_refusal result ≡ remove_verdict self.old serial }
        ensures server { self.new ≡ server_after self.old (remove serial) }
    {
        notes::remove(&mut self.state, serial)
    }

    /// Clears all notes.
    pub fn drop_notes(&mut self)
        ensures { self.new ≡ server_after self.old drop_notes }
    {
        notes::drop_notes(&mut self.state)
    }

    /// Carries out the notes: draws the new keys from `material`, and writes the plan and the rekey
    /// file of the change. Clears the notes and `work`. The checks are in this order: nothing is
    /// noted (7), the epoch is `LAST_EPOCH` (8), fewer than `WORKING_BYTES` of `work` (9, `work` is
    /// left as it is), too short material (10, with the bytes needed), too few `pairs` (11, with
    /// the pairs needed; `MOST_PAIRS` are always enough), too short a `file` (12, with the bytes
    /// needed; `pairs` then has the plan).
    pub fn publish<S: Strategy, W: Wrap>(
        &mut self,
        strategy: &S,
        wrap: &W,
        material: &[u8],
        pairs: &mut [Pair],
        file: &mut [u8],
        work: &mut [u8],
    ) -> Result<PublishReport, PublishFault>
        ensures answer { verdict_of publish_refusal result ≡ publish_verdict self.old
            (publishing S.meaning W.meaning
            material.now pairs.old file.old work.old) }
        ensures server { self.new ≡ server_after self.old
            (publish (publishing S.meaning W.meaning
            material.now pairs.old file.old work.old)) }
        ensures planned { pairs.new ≡ pairs_after_publish self.old
            (publishing S.meaning W.meaning
            material.now pairs.old file.old work.old) }
        ensures written { file.new ≡ file_after_publish self.old
            (publishing S.meaning W.meaning
            material.now pairs.old file.old work.old) }
        ensures cleared { work.new ≡ work_after work.old }
    {
        publish::publish(&mut self.state, strategy, wrap, material, pairs, file, work)
    }

    /// Writes the card of a scanner that is in a cradle to the front of `buffer`. The checks are in
    /// this order: a serial that is not one of 1 to `LAST_SERIAL` (1), a scanner that is in no
    /// cradle (5), fewer than `CARD_BYTES` of `buffer` (12, with the bytes needed).
    pub fn card(&self, serial: u32, buffer: &mut [u8]) -> Result<(), CardFault>
        ensures answer { verdict_of card_refusal result ≡ card_verdict self.now serial buffer.old }
        ensures written { buffer.new ≡ buffer_after_card self.now serial buffer.old }
    {
        card::card(&self.state, serial, buffer)
    }

    /// The epoch: how many publishings there were.
    pub fn epoch(&self) -> u32
        ensures { result ≡ self.now.epoch }
    {
        self.state.epoch
    }

    /// The group key of the epoch: the root's key. There is none in epoch 0.
    pub fn group_key(&self) -> Option<[u8; 32]>
        ensures key { result ≡ group_key_of self.now }
        ensures belongs_to_members { ∥ LawHoldsFor self.now ∥₁ }
    {
        (self.state.epoch > 0).then_some(self.state.nodes[1].key)
    }
}
