//! Two runs for one reader, two shells and two desks, to which they look alike.
ghost use Rattle.mls_host.specs.Hosting.{hosted, IsAppended, IsTold};
ghost use Rattle.mls_host.specs.declared.errors.Errors.{Errors as SpecErrors};
ghost use Rattle.mls_runs.specs.Alike.{WriteTheSame, TellTheSame, ServeTheSame};

use crate::explaining::Explains;
use mls_host::Host;
use std::io::Write;

/// Two runs of `act` for one reader write the same bytes, where what they begin with and do looks alike to it.
pub fn runs_write_the_same<H: Host, K: Host, W: Write, V: Write>()
    ensures { (old new : H) (before after : K) (first written : W) (second over : V)
        → WriteTheSame (hosted H.hosting H.Lines.echo old new) (IsAppended W.contents first written)
        (hosted K.hosting K.Lines.echo before after) (IsAppended V.contents second over) }
{}

/// Two shells of `act` for one user at one label show the user the same, where what they begin with looks alike to the
/// label: on standard
/// output, on standard error and in the status.
pub fn shells_show_the_same<X: Explains, H: Host, K: Host, W: Write, E: Write, V: Write, F: Write>()
    ensures { (old new : H) (before after : K) (first written : W) (asked told : SpecErrors E) (second over : V)
        (begun ended : SpecErrors F)
        → TellTheSame X.explaining (hosted H.hosting H.Lines.echo old new) (IsAppended W.contents first written)
        (IsTold E.contents asked told) (hosted K.hosting K.Lines.echo before after) (IsAppended V.contents second over)
        (IsTold F.contents begun ended) }
{}

/// Two desks of `act` write the same bytes and have the same status, where all sessions of their lines are at levels
/// that a label dominates
/// to which what they begin with looks alike.
pub fn desks_write_the_same<H: Host, K: Host, W: Write, V: Write>()
    ensures { (old new : H) (before after : K) (first written : W) (second over : V)
        → ServeTheSame (hosted H.hosting H.Lines.echo old new) (IsAppended W.contents first written)
        (hosted K.hosting K.Lines.echo before after) (IsAppended V.contents second over) }
{}
