//! The laws of the machine, each the contract of a function.
ghost use Rattle.mls_machine.specs.History.{HistoriesKeepIntegrity, LowHistoriesAreAlike, SecureHistoriesAreAlike};
ghost use Rattle.mls_machine.specs.History.{AcceptedHistoriesAreAlike, HistoriesPassWhatRunsPass};
ghost use Rattle.mls_machine.specs.History.{HistoriesShowOnlyReleases};
ghost use Rattle.mls_machine.specs.Turning.{TurnedWorldsAreAlike, TurningsShowTheSame};
ghost use Rattle.mls_machine.specs.Laws.{RefusalsChangeNothing, DenialsAndCallsAreEntered, RunsKeepIntegrity};
ghost use Rattle.mls_machine.specs.Laws.{LowRunsAreAlike, SecureRunsAreAlike, AcceptedRunsAreAlike, TablesAreHarmless};
ghost use Rattle.mls_machine.specs.Laws.{UntoldRunsReleaseTheSame, TestsAreSharp, TestsTellWhatCanTell};
ghost use Rattle.mls_machine.specs.Parting.{PoliciesArePlain, RepliesAreLines, RunsAreLines, TurningsAreLines};
ghost use Rattle.mls_machine.specs.Parting.{RunsPartIntoLines, LinesArePicked};
ghost use Rattle.mls_machine.specs.Serving.{ServedRunsAreAlike};

/// A command that is denied, a view, an audit, and a write that is refused leave the database and the sessions as they
/// were.
pub fn refusals_change_nothing()
    ensures { RefusalsChangeNothing }
{}

/// The audit list grows by the entry of each denial in an open session, by the entries of each transaction that is run,
/// its call and then its releases, and by nothing else.
pub fn denials_and_calls_are_entered()
    ensures { DenialsAndCallsAreEntered }
{}

/// Over content of the stored form each database on the way of a run has the four integrity properties: after each
/// event,
/// and after each statement of a call.
pub fn runs_keep_integrity()
    ensures { RunsKeepIntegrity }
{}

/// No command but a call passes information to a level that does not dominate that of its session. Take two worlds that
/// look alike to a level, and two lists of events of which it sees the same and no call: then it is shown the same
/// lines
/// and replies, and the worlds look alike to it at the end. What is called where it does not see it is secure.
pub fn low_runs_are_alike()
    ensures { LowRunsAreAlike }
{}

/// Where the transactions with certificates are secure, information flows down by releases alone: the runs show a level
/// the same if they also release the same to it, or if the calls do so that can read what it does not dominate.
pub fn secure_runs_are_alike()
    ensures { SecureRunsAreAlike }
{}

/// Where the rules of certificates hold, the checker's word is enough, and less is asked: that the calls release the
/// same to the level that can release to it what it may not read.
pub fn accepted_runs_are_alike()
    ensures { AcceptedRunsAreAlike }
{}

/// Where by a test of stored transactions no call that a level sees can tell it anything, nothing is asked of releases.
/// Calls that by what they read can tell it nothing can tell it nothing by what they release; and the test by releases
/// says just what the certificate lets be told.
pub fn untold_runs_release_the_same()
    ensures runs { UntoldRunsReleaseTheSame }
    ensures sharp { TestsAreSharp }
    ensures told { TestsTellWhatCanTell }
{}

/// Many sessions, each answered what its own level may see: where information flows down in a run by releases alone, so
/// it
/// does by these answers. What the sessions at levels that a level dominates are answered, event by event, is the same.
pub fn served_runs_are_alike()
    ensures { ServedRunsAreAlike }
{}

/// Two worlds that look alike to a level look alike to it when the audit list of each is turned, which shows it the
/// same
/// lines.
pub fn turnings_are_alike()
    ensures worlds { TurnedWorldsAreAlike }
    ensures lines { TurningsShowTheSame }
{}

/// So of a history of runs, where users, rights and stored transactions may change from run to run, and the audit list
/// may
/// be turned between them: each database on the way of each run has the four integrity properties.
pub fn histories_keep_integrity()
    ensures { HistoriesKeepIntegrity }
{}

/// Two histories without calls, at the same sites run by run, from worlds that look alike to a level, over events of
/// which
/// it sees the same, show it the same lines run by run and end in worlds that look alike to it.
pub fn low_histories_are_alike()
    ensures { LowHistoriesAreAlike }
{}

/// Where the transactions with certificates are secure, information flows down in a history by releases alone: two
/// histories show a level the same if run by run they also release the same to it, or if the calls do so that can read
/// what it does not dominate.
pub fn secure_histories_are_alike()
    ensures { SecureHistoriesAreAlike }
{}

/// Where the rules of certificates hold, the checker's word is enough, and less is asked, as of runs.
pub fn accepted_histories_are_alike()
    ensures { AcceptedHistoriesAreAlike }
{}

/// A history passes nothing down but what is released where each of its runs does so from the world that it begins in.
pub fn histories_pass_what_runs_pass()
    ensures { HistoriesPassWhatRunsPass }
{}

/// So of the bytes that one reader is shown.
pub fn histories_show_only_releases()
    ensures { HistoriesShowOnlyReleases }
{}

/// No line feed stands in a line, in either form: names have none, and what else a line shows is written without it. So
/// who parts the output at its line feeds gets the lines, in order.
pub fn lines_have_no_line_feed()
    ensures names { PoliciesArePlain }
    ensures replies { RepliesAreLines }
    ensures runs { RunsAreLines }
    ensures turnings { TurningsAreLines }
    ensures parts { RunsPartIntoLines }
{}

/// Who has all lines, and picks those that begin with the name of a label which a level dominates, has what that level
/// is
/// shown.
pub fn lines_are_picked()
    ensures { LinesArePicked }
{}

/// What a run shows as a table has no control character but line feeds, whatever is stored.
pub fn tables_are_harmless()
    ensures { TablesAreHarmless }
{}
