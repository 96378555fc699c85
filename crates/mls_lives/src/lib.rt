//! Lives: how much a level can learn in a run of events, and in a history of runs. Dumps load back, and queries find
//! rows in order.
#![tactic(auto)]

ghost use Rattle.mls_lives.specs.Histories.{HistoriesTellFew, HistoryCallsMultiply};
ghost use Rattle.mls_lives.specs.Lives.{CallsMultiply, RunsTellFew};
ghost use Rattle.mls_lives.specs.Loading.{DumpsHaveEach, DumpsLoadBack, DumpsShowTheSame};
ghost use Rattle.mls_lives.specs.Releasing.{ReleasesComeInOrder, ToldAreInOrder};
ghost use Rattle.mls_lives.specs.Queries.{CountsAreLengths, FoundAreRowsInOrder, HighestKeepEachKey};
ghost use Rattle.mls_lives.specs.Told.{BitsBoundCalls};
ghost use Rattle.mls_lives.specs.Upward.{ClassNumbersAreGreatest, DumpsComeUpward};

use mls_labeller::calls_tell_few;

/// In a life a level tells apart at most as many classes of worlds, and of what is done unseen, as there are lists of
/// items that can be released to it; and at most the product of the numbers of lists that the calls can release to it
/// which it sees done: of each call the number that `ranges_of` counts, and one where it can tell the level nothing.
pub fn lives_tell_few()
    ensures runs { RunsTellFew }
    ensures calls { CallsMultiply }
    ensures histories { HistoriesTellFew }
    ensures history_calls { HistoryCallsMultiply }
{}

/// By one call a level tells apart at most as many classes of worlds as the bits do that `explain` prints of all
/// releases together.
pub fn told_bits_bound_calls()
    ensures { BitsBoundCalls }
{
    calls_tell_few();
}

/// What is told of a transaction are the releases of its text, in its order. Each item that a run releases comes from
/// one of them, with its label and a value of its range; and of two items, unless both come from loops, the first comes
/// from an earlier release.
pub fn releases_come_in_order()
    ensures told { ToldAreInOrder }
    ensures steps { ReleasesComeInOrder }
{}

/// The events that a dump at a label prints, done over nothing, are each Done, and make all tuples of classes that the
/// label dominates; it has each of these once, upward by class. Of these each label that it dominates sees what it sees
/// of all. The class number of a tuple is that of its greatest class.
pub fn dumps_load_back()
    ensures made { DumpsLoadBack }
    ensures each { DumpsHaveEach }
    ensures shown { DumpsShowTheSame }
    ensures order { DumpsComeUpward }
    ensures classes { ClassNumbersAreGreatest }
{}

/// What a query finds are rows of the view in its order, each once; a count is how many; and of each key that the view
/// has a highest row is kept.
pub fn queries_find_rows()
    ensures rows { FoundAreRowsInOrder }
    ensures count { CountsAreLengths }
    ensures highest { HighestKeepEachKey }
{}
