//! Runs of a server from its beginning on, the site book and the players beside them, and whom a
//! group key belongs to.
#![tactic(auto)]

ghost use Rattle.law.specs.Law.{EveryRun};
ghost use Rattle.law.specs.Readers.{StayingReads, ArrivingReads};

/// A group key belongs to its members, whatever was called.
#[tactic(auto, using(crate::proofs::EveryRun::every_run))]
pub fn every_run()
    ensures { EveryRun }
{}

/// Who stays reads the file of a publishing, and so does who arrives.
#[tactic(auto, using(crate::proofs::Readings::staying_reads, crate::proofs::Readings::arriving_reads))]
pub fn members_read()
    ensures staying { StayingReads }
    ensures arriving { ArrivingReads }
{}
