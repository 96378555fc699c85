//! The laws of views and of the stored form, each the contract of a function.
ghost use Rattle.mls_filterview.specs.Laws.{StoredHasIntegrity, ViewIsMaxOfLow, ViewTellsLow, ViewsAndLowAgree};
ghost use Rattle.mls_filterview.specs.Laws.{RowsAreTheView, ViewsAreMended};
ghost use Rattle.mls_filterview.specs.Widen.{ViewOfWidened, ViewOfWidenedTable, WideningKeepsContent};
ghost use Rattle.mls_filterview.specs.Widen.{WidenedWasContent, ContentNeedsItsLabels};

/// The stored form has the four integrity properties.
pub fn stored_has_integrity()
    ensures { StoredHasIntegrity }
{}

/// The view at a level is what is not subsumed among the stored tuples of classes that it dominates.
pub fn view_is_max_of_low()
    ensures { ViewIsMaxOfLow }
{}

/// The view at a level tells the stored tuples of each class that it dominates.
pub fn view_tells_low()
    ensures { ViewTellsLow }
{}

/// Two tables look alike at a level just where they have the same tuples of classes that it dominates.
pub fn views_and_low_agree()
    ensures { ViewsAndLowAgree }
{}

/// The rows of a level are the tuples of its view, in the order of places.
pub fn rows_are_the_view()
    ensures { RowsAreTheView }
{}

/// Where tables agree outside of an entity, so do the rows of a level, and those of the entity are seen in its tuples
/// alone.
pub fn views_are_mended()
    ensures { ViewsAreMended }
{}

/// What a level sees of widened tuples is what it sees of the tuples, widened.
pub fn view_of_widened()
    ensures { ViewOfWidened }
{}

/// So of a table that was widened.
pub fn view_of_widened_table()
    ensures { ViewOfWidenedTable }
{}

/// Widening keeps the stored form, also where labels are added behind those of before.
pub fn widening_keeps_content()
    ensures { WideningKeepsContent }
{}

/// What was widened had the stored form under the labels of before, where it has only their classes.
pub fn widened_was_content()
    ensures { WidenedWasContent }
{}

/// Content of the classes of the first labels is content under these alone.
pub fn content_needs_its_labels()
    ensures { ContentNeedsItsLabels }
{}
