//! The words of a command line, and what they ask for.
ghost use Rattle.std.specs.Prelude.{◌≡◌, ◌⊎◌, ◌≤◌, false, [], length, Some, None, codes, option_map, IfOk, IfErr};
ghost use Rattle.std.specs.Prelude.{IfSome};
ghost use Rattle.clap.specs.Words.{App, app_of, fault_of, first_of, found_of, kind_of, new_app, new_rule, rows_of};
ghost use Rattle.clap.specs.Words.{rule_of, subcommand_of, subcommand_rows_of, with_rule, with_subcommand};
ghost use Rattle.clap.specs.declared.builder.command.Command.TheViews.{out-Command as fields_of};
ghost use Rattle.mls_host.specs.declared.words.Task.{Task as SpecTask};
ghost use Rattle.mls_host.specs.declared.words.Job.{Job as SpecJob};
ghost use Rattle.mls_host.specs.declared.usage.Usage.TheVariants.{Memory};
ghost use Rattle.mls_host.specs.Building.{IsBuilt};
ghost use Rattle.mls_host.specs.Words.{at_of, texts_of, place, option, flag, is_flag_set, AreFilesOf, with_documents};
ghost use Rattle.mls_host.specs.Words.{with_stored, needed, run, shell, serve, turn, show_policy, certify, check};
ghost use Rattle.mls_host.specs.Words.{explain, program, command_line, IsTask, IsCommand, IsCommandOf, Asks};
ghost use Rattle.mls_host.specs.Words.{AskNothing};

use crate::usage::Usage;
use clap::error::ErrorKind;
use clap::{Arg, ArgAction, ArgMatches, Command, Error};
use std::alloc::{AllocError, Global};

const ABOUT: &str =
    "A relational database in which each session sees what its label may see, proved";

const VERSION: &str = "2.1.0 (stores of versions 1 and 2, entries with times)";

const EXAMPLE: &str = "\
Without any words mldb runs the script on standard input under a sample policy and schemes.

Example:
  mldb run --table samples/policy.toml samples/schemes.toml samples/enterprise.script

Status: 0 all well; 1 certify, check, explain or a shell refused something; 2 an input or the command line was refused;
3 store, writing or memory. docs/codes.md lists all numbers.
";

const RUN_NOTES: &str = "\
Each line of the script is the label and the name of a session, and a command; each line that is printed begins with the label
that may see it. A store is made where there is none; tuples and the audit list are kept in it, sessions are not.

Example:
  mldb run --store fleet.db samples/policy.toml samples/schemes.toml samples/first.script

Status: 0 the run ended; 2 an input was refused, and nothing ran; 3 store, writing or memory.
";

const SHOW_NOTES: &str = "\
Example:
  mldb show-policy samples/policy.toml samples/schemes.toml

Status: 0 all well; 2 an input was refused; 3 writing or memory.
";

const SHELL_NOTES: &str = "\
Opens a session for USER at LABEL, and reads its commands from standard input, one a line, without label and name of the session.
Each is answered before the next is read, by the lines that LABEL may see. A line that is refused is told on standard error, and the
shell goes on. It ends at `close`, or at the end of the input; `help` on a line of its own lists the commands. At a terminal `describe`
shows what is declared; else the last line on standard error counts the lines that are done.

Example:
  mldb shell --store fleet.db samples/policy.toml samples/schemes.toml U ann

Status: 0 all was done; 1 something was denied, refused or not understood; 2 an input or a word was refused, and nothing ran;
3 store, writing or memory.
";

const SERVE_NOTES: &str = "\
Reads lines from standard input, as of a script but without a bound on their number, and answers each before the next is read. An answer
is the lines of the reply that the label of that line's session may see, and then a line that begins with `=`: `=` alone, also for a
blank line or a comment; `= CODE NAME at COLUMN` where the line is refused, and nothing of it is done; `= too long`. A session is opened
for the user of its own name alone. It ends at the end of its input.

Example:
  mldb serve --store fleet.db samples/policy.toml samples/schemes.toml

Status: 0 all lines were answered; 1 a line could not be read; 2 an input was refused, and nothing ran; 3 store, writing or memory.
";

const TURN_NOTES: &str = "\
Prints the entries of the audit list, each after the label that may see it, and then empties the list, in one change: where the output
is not taken, no entry is dropped. With --at fewer are printed, and all are dropped. No session can do this: it is for whoever has the
file. Keep what it prints.

Example:
  mldb turn --store fleet.db samples/policy.toml samples/schemes.toml >audit.2026

Status: 0 the list is printed and empty; 2 an input was refused, and nothing is dropped; 3 store, writing or memory, and nothing is
dropped, unless the store is only not closed.
";

const CERTIFY_NOTES: &str = "\
Certificates go to standard output. Each transaction that has none is told on standard error, with the statement and the rule
that even its least labels break.

Example:
  mldb certify samples/policy.toml samples/schemes.toml samples/transactions.txt

Status: 0 all have one; 1 one has none; 2 an input was refused; 3 writing or memory.
";

const CHECK_NOTES: &str = "\
Prints NAME yes, NAME no STATEMENT RULE, or NAME no certificate.

Example:
  mldb check samples/policy.toml samples/schemes.toml samples/transactions.txt samples/certificates.txt

Status: 0 all hold; 1 one does not; 2 an input was refused; 3 writing or memory.
";

const EXPLAIN_NOTES: &str = "\
Prints each transaction with a number in front of each statement, and its least labels by name, as certify finds them; where it has
none, the statement and the rule that even the least labels break, and why. Without TRANSACTIONS it prints the labels, each with those
next below it, the users and their rights, and the attributes with their intervals. Before the words of another command it reads what
that command reads, runs nothing, and says why an input is refused: where, what stands there, and what to do.

Examples:
  mldb explain samples/policy.toml samples/schemes.toml samples/transactions.txt Count
  mldb explain samples/policy.toml samples/schemes.toml
  mldb explain run samples/policy.toml samples/schemes.toml samples/first.script

Status: 0 all have labels, or all inputs are accepted; 1 one has none, or an explained input is refused; 2 an input or the name was
refused; 3 writing or memory.
";

const POLICY: &str = "The policy: levels, labels, users and rights (TOML)";

const SCHEMES: &str = "The relations (TOML)";

const TRANSACTIONS: &str = "The transactions";

const CERTIFICATES: &str = "Their certificates";

const SCRIPT: &str = "The commands of the sessions, one a line";

const LABEL: &str = "The label of the session";

const USER: &str = "The user, who gives the session its name";

const NAME: &str = "The transaction that is explained; without it all are";

const AT: &str = "Prints only the lines that this label dominates";

const TABLE: &str = "Prints views as tables, for a screen";

const STORE: &str =
    "The database, which the run goes on with; without it the run begins with an empty one, in memory";

const TURNED_STORE: &str = "The database whose audit list is printed and emptied";

const STORED_TRANSACTIONS: &str = "The stored transactions, which the script can call";

const STORED_CERTIFICATES: &str = "Their certificates: without one that holds, no call is allowed";

/// The files that a command names, beside those of its policy and schemes; a run without a script reads it from
/// standard input.
#[derive(Clone, Copy)]
pub struct Files<'a> {
    pub store: Option<&'a str>,
    pub transactions: Option<&'a str>,
    pub certificates: Option<&'a str>,
    pub script: Option<&'a str>,
}

/// What is done under a policy and schemes, with the files that are named.
#[derive(Clone, Copy)]
pub enum Task<'a> {
    /// Their canonical texts are printed.
    ShowPolicy,
    /// A script is run; for the label of a name alone, where there is one.
    Run { at: Option<&'a str>, is_table: bool },
    /// Commands are typed, in a session at a label for a user.
    Shell { label: &'a str, user: &'a str },
    /// Lines of many sessions are answered, each for the level of its own.
    Serve,
    /// The audit list is printed, for the label of a name alone, where there is one, and emptied.
    Turn { at: Option<&'a str> },
    /// Transactions get their certificates.
    Certify,
    /// Certificates are held against transactions.
    Check,
    /// What they say is explained.
    Picture,
    /// Transactions, or the one of a name, are explained.
    Explain { name: Option<&'a str> },
}

impl<'a> Task<'a> {
    /// The name of the label for which alone it prints, if there is one: of a shell, its session's.
    pub fn at(self) -> Option<&'a str>
        ensures { option_map (λ p. p.now) result ≡ at_of self.entry }
    {
        match self {
            Task::Run { at, .. } | Task::Turn { at } => at,
            Task::Shell { label, .. } => Some(label),
            _ => None,
        }
    }
}

/// The files of a policy and schemes.
#[derive(Clone, Copy)]
pub struct Documents<'a> {
    pub policy: &'a str,
    pub schemes: &'a str,
}

/// What the words ask for: a task, with its files, under the policy and the schemes of others, or of the samples.
#[derive(Clone, Copy)]
pub struct Job<'a> {
    pub documents: Option<Documents<'a>>,
    pub files: Files<'a>,
    pub task: Task<'a>,
}

/// No file is named.
const NO_FILES: Files<'static> = Files {
    store: None,
    transactions: None,
    certificates: None,
    script: None,
};

/// The script on standard input, under the samples.
const SAMPLES: Job<'static> = Job {
    documents: None,
    files: NO_FILES,
    task: Task::Run {
        at: None,
        is_table: false,
    },
};

/// A command that is built step by step, or want of memory.
/// Each step takes what the last one made: a command that is held through a `?` at each step cost two minutes of proof.
type Building<'a> = Result<Command<'a>, AllocError>;

/// A command without arguments, and what help says of it: a line, and notes below its arguments.
fn bare<'a>(alloc: Global, name: &'a str, about: &'a str, notes: &'a str) -> Building<'a>
    ensures { IsBuilt result (new_app name.entry.now) }
{
    Ok(Command::new(alloc, name).about(about).after_help(notes))
}

fn with_argument<'a>(command: Building<'a>, argument: Arg<'a>) -> Building<'a>
    requires local { argument.global ≡ false }
    ensures { (app : App) → IsBuilt command.entry app → IsBuilt result (with_rule app (rule_of argument.entry)) }
{
    match command {
        Ok(command) => command.arg(argument),
        Err(error) => Err(error),
    }
}

/// With an argument that stands in its place.
fn with_place<'a>(
    alloc: Global,
    command: Building<'a>,
    name: &'a str,
    help: &'a str,
) -> Building<'a>
    ensures { (app : App) → IsBuilt command.entry app → IsBuilt result (with_rule app (place name.entry.now)) }
{
    with_argument(command, Arg::new(alloc, name).help(help).required(true))
}

/// With an argument that stands in its place, and may be left out.
fn with_last_place<'a>(
    alloc: Global,
    command: Building<'a>,
    name: &'a str,
    help: &'a str,
) -> Building<'a>
    ensures { (app : App) → IsBuilt command.entry app → IsBuilt result (with_rule app (new_rule name.entry.now)) }
{
    with_argument(command, Arg::new(alloc, name).help(help))
}

/// With an option that has a value.
fn with_option<'a>(
    alloc: Global,
    command: Building<'a>,
    name: &'a str,
    value: &'a str,
    help: &'a str,
) -> Building<'a>
    ensures { (app : App) → IsBuilt command.entry app → IsBuilt result (with_rule app (option name.entry.now)) }
{
    let option = Arg::new(alloc, name)
        .help(help)
        .long(name)
        .value_name(value);
    with_argument(command, option)
}

/// With an option that has a value, and must not be left out.
fn with_needed<'a>(
    alloc: Global,
    command: Building<'a>,
    name: &'a str,
    value: &'a str,
    help: &'a str,
) -> Building<'a>
    ensures { (app : App) → IsBuilt command.entry app → IsBuilt result (with_rule app (needed name.entry.now)) }
{
    let option = Arg::new(alloc, name)
        .help(help)
        .long(name)
        .value_name(value)
        .required(true);
    with_argument(command, option)
}

/// With an option that has no value.
fn with_flag<'a>(alloc: Global, command: Building<'a>, name: &'a str, help: &'a str) -> Building<'a>
    ensures { (app : App) → IsBuilt command.entry app → IsBuilt result (with_rule app (flag name.entry.now)) }
{
    let flag = Arg::new(alloc, name)
        .help(help)
        .long(name)
        .action(ArgAction::SetTrue);
    with_argument(command, flag)
}

/// With the files of the policy and the schemes.
fn with_documents<'a>(alloc: Global, command: Building<'a>) -> Building<'a>
    ensures { (app : App) → IsBuilt command.entry app → IsBuilt result (with_documents app) }
{
    let command = with_place(alloc, command, "POLICY", POLICY);
    with_place(alloc, command, "SCHEMES", SCHEMES)
}

/// With the files of what is stored, as options.
fn with_stored<'a>(alloc: Global, command: Building<'a>) -> Building<'a>
    ensures { (app : App) → IsBuilt command.entry app → IsBuilt result (with_stored app) }
{
    let command = with_option(alloc, command, "transactions", "FILE", STORED_TRANSACTIONS);
    with_option(alloc, command, "certificates", "FILE", STORED_CERTIFICATES)
}

fn run_command<'a>(alloc: Global) -> Building<'a>
    ensures { IsBuilt result run }
{
    let about = "Runs a script, and prints a line for each reply";
    let run = bare(alloc, "run", about, RUN_NOTES);
    let run = with_flag(alloc, run, "table", TABLE);
    let run = with_option(alloc, run, "at", "LABEL", AT);
    let run = with_option(alloc, run, "store", "FILE", STORE);
    let run = with_documents(alloc, with_stored(alloc, run));
    with_place(alloc, run, "SCRIPT", SCRIPT)
}

fn shell_command<'a>(alloc: Global) -> Building<'a>
    ensures { IsBuilt result shell }
{
    let about = "Answers commands as they are typed";
    let shell = bare(alloc, "shell", about, SHELL_NOTES);
    let shell = with_option(alloc, shell, "store", "FILE", STORE);
    let shell = with_documents(alloc, with_stored(alloc, shell));
    let shell = with_place(alloc, shell, "LABEL", LABEL);
    with_place(alloc, shell, "USER", USER)
}

fn serve_command<'a>(alloc: Global) -> Building<'a>
    ensures { IsBuilt result serve }
{
    let about = "Answers the lines of many sessions, each for its own label";
    let serve = bare(alloc, "serve", about, SERVE_NOTES);
    let serve = with_option(alloc, serve, "store", "FILE", STORE);
    with_documents(alloc, with_stored(alloc, serve))
}

fn turn_command<'a>(alloc: Global) -> Building<'a>
    ensures { IsBuilt result turn }
{
    let about = "Prints the audit list of a store, and empties it";
    let turn = bare(alloc, "turn", about, TURN_NOTES);
    let turn = with_option(alloc, turn, "at", "LABEL", AT);
    let turn = with_needed(alloc, turn, "store", "FILE", TURNED_STORE);
    with_documents(alloc, turn)
}

fn show_command<'a>(alloc: Global) -> Building<'a>
    ensures { IsBuilt result show_policy }
{
    let about = "Prints the canonical texts of a policy and its schemes";
    with_documents(alloc, bare(alloc, "show-policy", about, SHOW_NOTES))
}

fn certify_command<'a>(alloc: Global) -> Building<'a>
    ensures { IsBuilt result certify }
{
    let about = "Prints the least certificate of each transaction that has one";
    let certify = with_documents(alloc, bare(alloc, "certify", about, CERTIFY_NOTES));
    with_place(alloc, certify, "TRANSACTIONS", TRANSACTIONS)
}

fn check_command<'a>(alloc: Global) -> Building<'a>
    ensures { IsBuilt result check }
{
    let about = "Says of each transaction whether its certificate holds";
    let check = with_documents(alloc, bare(alloc, "check", about, CHECK_NOTES));
    let check = with_place(alloc, check, "TRANSACTIONS", TRANSACTIONS);
    with_place(alloc, check, "CERTIFICATES", CERTIFICATES)
}

fn explain_command<'a>(alloc: Global) -> Building<'a>
    ensures { IsBuilt result explain }
{
    let about =
        "Says what a policy and schemes are, why a transaction has its labels or none, or why an input is refused";
    let explain = with_documents(alloc, bare(alloc, "explain", about, EXPLAIN_NOTES));
    let explain = with_last_place(alloc, explain, "TRANSACTIONS", TRANSACTIONS);
    with_last_place(alloc, explain, "NAME", NAME)
}

/// The program without its commands.
fn program<'a>(alloc: Global) -> Command<'a>
    ensures app { app_of result ≡ program }
    ensures local { (fields_of result).has_globals ≡ false }
{
    Command::new(alloc, "mldb")
        .version(VERSION)
        .about(ABOUT)
        .after_help(EXAMPLE)
        .subcommand_required(true)
}

/// With a command of its own.
fn with_command<'a>(line: Building<'a>, command: Building<'a>) -> Building<'a>
    ensures { (app sub : App) → IsBuilt line.entry app → IsBuilt command.entry sub
        → IsBuilt result (with_subcommand app sub.top) }
{
    match (line, command) {
        (Ok(line), Ok(command)) => line.subcommand(command),
        _ => Err(AllocError),
    }
}

/// The commands and their words. They are built by calls and not from a table: the checker sees no table of structs
/// that hold slices.
fn command_line<'a>(alloc: Global) -> Building<'a>
    ensures { IsBuilt result command_line }
{
    let line = with_command(Ok(program(alloc)), run_command(alloc));
    let line = with_command(line, shell_command(alloc));
    let line = with_command(line, serve_command(alloc));
    let line = with_command(line, turn_command(alloc));
    let line = with_command(line, show_command(alloc));
    let line = with_command(line, certify_command(alloc));
    let line = with_command(line, check_command(alloc));
    with_command(line, explain_command(alloc))
}

/// What the parser says of words that it refuses.
fn said(alloc: Global, error: &Error) -> Usage
    ensures { kind_of error.now ≡ ErrorKind.OutOfMemory → result ≡ Memory }
{
    if error.kind() == ErrorKind::OutOfMemory {
        return Usage::Memory;
    }
    match format!(in alloc; "{error}") {
        Ok(text) => Usage::Text(text),
        Err(_) => Usage::Memory,
    }
}

/// What is said of words that name no command with its paths, all of which the parser has refused before.
fn no_command(alloc: Global) -> Usage {
    match String::from_str(
        alloc,
        "mldb: run | shell | serve | turn | show-policy | certify | check | explain\n",
    ) {
        Ok(text) => Usage::Text(text),
        Err(_) => Usage::Memory,
    }
}

/// The first value of an argument.
fn value_of<'a>(matches: &ArgMatches<'a>, name: &str) -> Option<&'a str>
    ensures { option_map (λ s. s.now) result ≡ first_of name.now (rows_of (found_of matches.now)) }
{
    matches.get_str(name)
}

/// Whether a flag is among the words, by its value.
fn is_flag_set(value: Option<&str>) -> bool
    ensures { result ≡ is_flag_set (option_map (λ p. p.now) value.entry) }
{
    match value {
        Some(text) => text == "true",
        None => false,
    }
}

fn shell_task<'a>(matches: &ArgMatches<'a>) -> Option<Task<'a>>
    ensures some { IfSome result (IsTask (codes "shell") (rows_of (found_of matches.now))) }
    ensures none { result ≡ None → (task : SpecTask) → IsTask (codes "shell") (rows_of (found_of matches.now)) task
        → ⊥ }
{
    match (value_of(matches, "LABEL"), value_of(matches, "USER")) {
        (Some(label), Some(user)) => Some(Task::Shell { label, user }),
        _ => None,
    }
}

fn turn_task<'a>(matches: &ArgMatches<'a>) -> Option<Task<'a>>
    ensures some { IfSome result (IsTask (codes "turn") (rows_of (found_of matches.now))) }
    ensures none { result ≡ None → (task : SpecTask) → IsTask (codes "turn") (rows_of (found_of matches.now)) task
        → ⊥ }
{
    match value_of(matches, "store") {
        Some(_) => Some(Task::Turn {
            at: value_of(matches, "at"),
        }),
        None => None,
    }
}

fn certify_task<'a>(matches: &ArgMatches<'a>) -> Option<Task<'a>>
    ensures some { IfSome result (IsTask (codes "certify") (rows_of (found_of matches.now))) }
    ensures none { result ≡ None → (task : SpecTask) → IsTask (codes "certify") (rows_of (found_of matches.now)) task
        → ⊥ }
{
    match value_of(matches, "TRANSACTIONS") {
        Some(_) => Some(Task::Certify),
        None => None,
    }
}

fn check_task<'a>(matches: &ArgMatches<'a>) -> Option<Task<'a>>
    ensures some { IfSome result (IsTask (codes "check") (rows_of (found_of matches.now))) }
    ensures none { result ≡ None → (task : SpecTask) → IsTask (codes "check") (rows_of (found_of matches.now)) task
        → ⊥ }
{
    match (
        value_of(matches, "TRANSACTIONS"),
        value_of(matches, "CERTIFICATES"),
    ) {
        (Some(_), Some(_)) => Some(Task::Check),
        _ => None,
    }
}

fn explain_task<'a>(matches: &ArgMatches<'a>) -> Task<'a>
    ensures { IsTask (codes "explain") (rows_of (found_of matches.now)) result }
{
    match value_of(matches, "TRANSACTIONS") {
        Some(_) => Task::Explain {
            name: value_of(matches, "NAME"),
        },
        None => Task::Picture,
    }
}

fn task_of<'a>(name: &str, matches: &ArgMatches<'a>) -> Option<Task<'a>>
    ensures some { IfSome result (IsTask name.now (rows_of (found_of matches.now))) }
    ensures none { result ≡ None → (task : SpecTask) → IsTask name.now (rows_of (found_of matches.now)) task → ⊥ }
{
    match name {
        "run" => Some(Task::Run {
            at: value_of(matches, "at"),
            is_table: is_flag_set(value_of(matches, "table")),
        }),
        "shell" => shell_task(matches),
        "serve" => Some(Task::Serve),
        "turn" => turn_task(matches),
        "show-policy" => Some(Task::ShowPolicy),
        "certify" => certify_task(matches),
        "check" => check_task(matches),
        "explain" => Some(explain_task(matches)),
        _ => None,
    }
}

/// The files of a task, by the arguments of its command.
fn files_of<'a>(matches: &ArgMatches<'a>, task: Task<'a>) -> Files<'a>
    ensures { AreFilesOf (rows_of (found_of matches.now)) task.entry result }
{
    match task {
        Task::ShowPolicy | Task::Picture => NO_FILES,
        Task::Run { .. } | Task::Shell { .. } | Task::Serve => Files {
            store: value_of(matches, "store"),
            transactions: value_of(matches, "transactions"),
            certificates: value_of(matches, "certificates"),
            script: value_of(matches, "SCRIPT"),
        },
        Task::Turn { .. } => {
            let store = value_of(matches, "store");
            Files { store, ..NO_FILES }
        }
        Task::Certify | Task::Explain { .. } => Files {
            store: None,
            transactions: value_of(matches, "TRANSACTIONS"),
            certificates: None,
            script: None,
        },
        Task::Check => Files {
            store: None,
            transactions: value_of(matches, "TRANSACTIONS"),
            certificates: value_of(matches, "CERTIFICATES"),
            script: None,
        },
    }
}

fn documents_of<'a>(matches: &ArgMatches<'a>) -> Option<Documents<'a>>
    ensures some { IfSome result (λ d. (Some d.policy.now ≡ first_of (codes "POLICY") (rows_of (found_of matches.now)))
        × (Some d.schemes.now ≡ first_of (codes "SCHEMES") (rows_of (found_of matches.now)))) }
    ensures none { result ≡ None → (first_of (codes "POLICY") (rows_of (found_of matches.now)) ≡ None)
        ⊎ (first_of (codes "SCHEMES") (rows_of (found_of matches.now)) ≡ None) }
{
    match (value_of(matches, "POLICY"), value_of(matches, "SCHEMES")) {
        (Some(policy), Some(schemes)) => Some(Documents { policy, schemes }),
        _ => None,
    }
}

/// The job that a command names.
fn job_named<'a>(name: &str, matches: &ArgMatches<'a>) -> Option<Job<'a>>
    ensures some { IfSome result (IsCommand name.now (rows_of (found_of matches.now))) }
    ensures none { result ≡ None → (job : SpecJob) → IsCommand name.now (rows_of (found_of matches.now)) job → ⊥ }
{
    match (documents_of(matches), task_of(name, matches)) {
        (Some(documents), Some(task)) => Some(Job {
            documents: Some(documents),
            files: files_of(matches, task),
            task,
        }),
        _ => None,
    }
}

fn job_of_matches<'a>(matches: &ArgMatches<'a>) -> Option<Job<'a>>
    ensures some { IfSome result (IsCommandOf (subcommand_rows_of matches.now)) }
    ensures none { result ≡ None → (job : SpecJob) → IsCommandOf (subcommand_rows_of matches.now) job → ⊥ }
{
    match matches.subcommand() {
        Some((name, matches)) => job_named(name, matches),
        None => None,
    }
}

fn matches_of<'a>(alloc: Global, words: &'a [&'a str]) -> Result<ArgMatches<'a>, Usage>
    requires some { 2 ≤ length words.now }
    ensures rows { IfOk result (λ m. subcommand_rows_of m ≡ subcommand_of command_line (texts_of words.now)) }
    ensures taken { IfOk result (λ _. fault_of command_line (texts_of words.now) ≡ []) }
    ensures refused { IfErr result (AskNothing (texts_of words.now)) }
{
    match command_line(alloc)?.try_get_matches_from(words) {
        Ok(matches) => Ok(matches),
        Err(error) => Err(said(alloc, &error)),
    }
}

/// What the words ask for; the first of them is the name that the program was called by.
pub fn job_of<'a>(alloc: Global, words: &'a [&'a str]) -> Result<Job<'a>, Usage>
    ensures asked { IfOk result (Asks (texts_of words.now)) }
    ensures nothing { IfErr result (AskNothing (texts_of words.now)) }
{
    if words.len() < 2 {
        return Ok(SAMPLES);
    }
    let matches = matches_of(alloc, words)?;
    match job_of_matches(&matches) {
        Some(job) => Ok(job),
        None => Err(no_command(alloc)),
    }
}
