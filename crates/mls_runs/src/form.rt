//! The form of replies, as the words of a command line ask for it.
ghost use Rattle.std.specs.Prelude.{◌≡◌};
ghost use Rattle.mls_runs.specs.Running.{form_of};

use mls_machine::Form;

/// A table, where it is asked for.
pub(crate) fn form_of(is_table: bool) -> Form
    ensures { result ≡ form_of is_table }
{
    if is_table { Form::Table } else { Form::Lines }
}
