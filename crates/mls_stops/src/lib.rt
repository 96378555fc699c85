//! What is written of runs, shells and desks that stop, as far as two of them go; of marks among
//! answers; that the life of a store passes nothing down but releases; and what becomes of files that are not opened.
#![tactic(auto)]

ghost use Rattle.mls_host.specs.Hosting.{hosted, IsAppended, IsTold};
ghost use Rattle.mls_host.specs.declared.errors.Errors.{Errors as SpecErrors};
ghost use Rattle.mls_stops.specs.AnswerLines.{AnswersAreUnmarked};
ghost use Rattle.mls_stops.specs.Lifetimes.{LifetimesPassOnlyReleases};
ghost use Rattle.mls_stops.specs.Marks.{MarksAreLines, OnlyMarksAreMarked};
ghost use Rattle.mls_stops.specs.SoFar.{RunsAgreeSoFar, StopsTellFew};
ghost use Rattle.mls_stops.specs.Unclosed.{UnclosedFilesKeep};
ghost use Rattle.mls_stops.specs.Unopened.{UnopenedFilesStay};
ghost use Rattle.mls_stops.specs.Stops.{ServeTheSameSoFar, TellTheSameSoFar, WriteTheSameSoFar};

use mls_host::Host;
use mls_runs::Explains;
use sqlite_disk::Disk;
use std::io::Write;

/// Of what a desk writes that shows no line again, the lines that begin with an equals sign are the marks, each one
/// line; no answer has one.
pub fn only_marks_are_marked()
    ensures answers { AnswersAreUnmarked }
    ensures marks { MarksAreLines }
    ensures desks { OnlyMarksAreMarked }
{}

/// Of two runs that look alike to a level, and release the same to it as far as both go, what one shows it is a first
/// part of what the other does. So how a run of n lines stops tells a level one of 3 n + 4 things at most.
pub fn stops_tell_few()
    ensures runs { RunsAgreeSoFar }
    ensures few { StopsTellFew }
{}

/// Of two runs for one reader, each ended or stopped for any cause, `act` writes of one a first part of what it writes
/// of the other, where they look alike to the reader as far as both go.
pub fn stopped_runs_agree<H: Host, K: Host, W: Write, V: Write>()
    ensures { (old new : H) (before after : K) (first written : W) (second over : V)
        → WriteTheSameSoFar (hosted H.hosting H.Lines.echo old new) (IsAppended W.contents first written)
        (hosted K.hosting K.Lines.echo before after) (IsAppended V.contents second over) }
{}

/// So of two shells of one user at one label.
pub fn stopped_shells_agree<X: Explains, H: Host, K: Host, W: Write, E: Write, V: Write, F: Write>()
    ensures { (old new : H) (before after : K) (first written : W) (asked told : SpecErrors E) (second over : V)
        (begun ended : SpecErrors F)
        → TellTheSameSoFar X.explaining (hosted H.hosting H.Lines.echo old new) (IsAppended W.contents first written)
        (IsTold E.contents asked told) (hosted K.hosting K.Lines.echo before after) (IsAppended V.contents second over)
        (IsTold F.contents begun ended) }
{}

/// And of two desks of sessions at levels that a label dominates, to which they look alike.
pub fn stopped_desks_agree<H: Host, K: Host, W: Write, V: Write>()
    ensures { (old new : H) (before after : K) (first written : W) (second over : V)
        → ServeTheSameSoFar (hosted H.hosting H.Lines.echo old new) (IsAppended W.contents first written)
        (hosted K.hosting K.Lines.echo before after) (IsAppended V.contents second over) }
{}

/// In the life of a store nothing flows down but what is released, also where it is migrated to later files, which may
/// add labels.
pub fn lifetimes_pass_only_releases()
    ensures { LifetimesPassOnlyReleases }
{}

/// Files that no connection is made to stay as they are, also after a crash: each image that it may leave was one
/// before, or has the same pages or the same database; or there was no database, and still is none, or an empty one.
pub fn unopened_files_stay<D: Disk>()
    ensures { UnopenedFilesStay D.Disk }
{}

/// Files that could not be closed keep what the base's tables had, also after a crash: each image that it may leave
/// reads as a database that has it, where the connection was open that was to be closed.
pub fn unclosed_files_keep<D: Disk>()
    ensures { UnclosedFilesKeep D.Disk }
{}
