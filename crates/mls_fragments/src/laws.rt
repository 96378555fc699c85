//! Laws about stores, which a base over a store relies on: what a store holds is one content, and what was kept is
//! found
//! again. Nothing runs here: each function is empty, and its contract is the law, which callers use by calling it.
ghost use Rattle.mls_fragments.specs.OneContent.{RowsHoldOneContent};
ghost use Rattle.mls_fragments.specs.Holdings.{DatabaseHasOneHoldings, GivenBackIsTaken, SoundIsTakenAsItWas};
ghost use Rattle.mls_fragments.specs.Migrating.{WidenedIsSeenAlike};
ghost use Rattle.mls_fragments.specs.Again.{BlankIsNothing, KeptIsFound, KeptIsTaken};

/// The rows of a store hold one content at most: two contents that the same rows hold are equal.
pub fn rows_hold_one_content()
    ensures { RowsHoldOneContent }
{}

/// A whole database holds one thing at most too: nothing yet, or the content of its rows and the row that describes
/// them.
pub fn database_has_one_holdings()
    ensures { DatabaseHasOneHoldings }
{}

/// A connection that a base gave back can be adopted again: what `adopt` takes is the content that the base left. Where
/// the policy
/// or the schemes extend those of the store, it is that content widened by them.
pub fn given_back_is_taken()
    ensures { GivenBackIsTaken }
{}

/// The same for files: a base that is opened over files takes what the last base kept in them.
pub fn kept_is_taken()
    ensures { KeptIsTaken }
{}

/// Files that were closed hold what was kept and no more: the next base over them finds that alone.
pub fn kept_is_found()
    ensures { KeptIsFound }
{}

/// Files in which a crash cut off that a database was made hold nothing.
pub fn blank_is_nothing()
    ensures { BlankIsNothing }
{}

/// Where policy and schemes are those that the content is sound under, nothing is widened: it is taken as it was.
pub fn sound_is_taken_as_it_was()
    ensures { SoundIsTakenAsItWas }
{}

/// What a label sees of the relations of an older store stays, widened by their new attributes, and relations behind
/// them are empty.
pub fn widened_is_seen_alike()
    ensures { WidenedIsSeenAlike }
{}
