//! The laws of queries, each the contract of a function.
ghost use Rattle.mls_queries.specs.Laws.{QueriesUseTheView, RowsThatPassAreOfTheView, KeysAreLookedUp};

/// A query finds the same in any two relations that look alike to a level.
pub fn queries_use_the_view()
    ensures { QueriesUseTheView }
{}

/// What a query finds are just the rows of the view that it asks for, of which at most the first so many are given.
pub fn rows_that_pass_are_of_the_view()
    ensures { RowsThatPassAreOfTheView }
{}

/// What a query finds whose condition holds of rows of one key alone is found among the tuples of that key.
pub fn keys_are_looked_up()
    ensures { KeysAreLookedUp }
{}
