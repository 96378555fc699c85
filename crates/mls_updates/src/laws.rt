//! The laws of writes, each the contract of a function.
ghost use Rattle.mls_updates.specs.Laws.{WritesKeepForm, WritesKeepContent, HighWritesLeaveLow, LowWritesUseLow};
ghost use Rattle.mls_updates.specs.Laws.{HighWritesAreUnseen, LowWritesSeeLow, WritesChangeOneEntity};
ghost use Rattle.mls_updates.specs.Laws.{WritesExpectNothing};

/// Each write keeps the stored form.
pub fn writes_keep_form()
    ensures { WritesKeepForm }
{}

/// Each write keeps the stored form with its kinds and intervals.
pub fn writes_keep_content()
    ensures { WritesKeepContent }
{}

/// A write at a label that a level does not dominate leaves the stored tuples of classes that the level dominates.
pub fn high_writes_leave_low()
    ensures { HighWritesLeaveLow }
{}

/// A write at a label that a level dominates uses no more than the stored tuples of classes that the level dominates.
pub fn low_writes_use_low()
    ensures { LowWritesUseLow }
{}

/// A write at a label that a level does not dominate leaves the level's view.
pub fn high_writes_are_unseen()
    ensures { HighWritesAreUnseen }
{}

/// What a write at a label that a level dominates does depends on the level's view alone.
pub fn low_writes_see_low()
    ensures { LowWritesSeeLow }
{}

/// A write leaves the stored tuples of all entities but the one that it names.
pub fn writes_change_one_entity()
    ensures { WritesChangeOneEntity }
{}

/// No write has the outcome of another number of rows than was expected.
pub fn writes_expect_nothing()
    ensures { WritesExpectNothing }
{}
