//! The laws of calls, each the contract of a function.
ghost use Rattle.mls_certcheck.specs.MeaningLaws.{CallsKeepForm, CallsKeepFormThroughout, CallsKeepContent};
ghost use Rattle.mls_certcheck.specs.MeaningLaws.{CallsGiveItems};

/// A call keeps the stored form.
pub fn calls_keep_form()
    ensures { CallsKeepForm }
{}

/// Each database on the way of a call, after each of its statements, is of the stored form.
pub fn calls_keep_form_throughout()
    ensures { CallsKeepFormThroughout }
{}

/// A call with arguments of the kinds of its parameters keeps the stored form with its kinds and intervals.
pub fn calls_keep_content()
    ensures { CallsKeepContent }
{}

/// What a call emits and releases has declared labels and values of kinds.
pub fn calls_give_items()
    ensures { CallsGiveItems }
{}
