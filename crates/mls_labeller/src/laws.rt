//! The laws of what calls tell, each the contract of a function.
ghost use Rattle.mls_labeller.specs.Releases.{CallsTellFew};

/// By one call a level can tell apart at most as many classes of worlds as there are lists of items in the ranges that
/// are told.
pub fn calls_tell_few()
    ensures { CallsTellFew }
{}
