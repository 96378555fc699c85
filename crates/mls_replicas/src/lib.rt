//! Replicas: what stores that are fed one log show, and writes that are done again.
#![tactic(auto)]

ghost use Rattle.mls_replicas.specs.Again.{WritesAgainChangeNothing, WritesAgainRecover, AllAgainChangeNothing};
ghost use Rattle.mls_replicas.specs.Again.{BatchesAgainRecover};
ghost use Rattle.mls_replicas.specs.Replicas.{AcceptedReplicasAgree, FeedsAreFed, ReplicasAgree};

/// A store that is fed what another one is told up to a level, and has a life of its own above it, shows that level the
/// same, answers its sessions the same, and ends in a world that looks alike to it: where information flows down in the
/// other's run by releases alone, and no call of the feed reads above the level, or both release the same to it. It is
/// enough that the rules of certificates hold.
pub fn replicas_agree()
    ensures passing { ReplicasAgree }
    ensures accepted { AcceptedReplicasAgree }
    ensures feeds { FeedsAreFed }
{}

/// A write that is done again changes nothing. So after a stop it may be done once more, whether the store has its
/// change or not: it then has it, once.
pub fn writes_again_change_nothing()
    ensures tables { WritesAgainChangeNothing }
    ensures events { WritesAgainRecover }
{}

/// Writes of a batch that are all done, and all done again, change nothing the second time. So after a stop a batch may
/// be done once more, as a write may.
pub fn batches_again_change_nothing()
    ensures tables { AllAgainChangeNothing }
    ensures events { BatchesAgainRecover }
{}
