//! What runs leave where a call of the base, or a write, fails: the replies before the fault are whole, and content and
//! audit list are those
//! before or after its event; and what single steps leave where a call fails: content, audit list and sessions are
//! those before it, and the
//! event is answered where it is tried again. `data/` has the scripts, `stdout` what they have to leave.
ghost use Rattle.std.specs.List.{AllByRecursion};
ghost use Rattle.mls_translang.specs.Event.{EventFits};

mod faulty;
mod outcomes;
mod runs;
mod steps;
mod stored;

use self::outcomes::{Way, tell_script};
use self::runs::{Scripts, What};
use crate::sample::Sample;
use case_tables::{Texts, Told};
use mls_script::script;
use mls_translang::Event;
use std::alloc::Global;

/// How single calls, and writes, fail.
static CALLS: [(Way, What); 5] = [
    (Way::Run, What::Store),
    (Way::Run, What::Memory),
    (Way::Run, What::Write),
    (Way::Steps, What::Store),
    (Way::Steps, What::Memory),
];

static WRITES: [(Way, What); 1] = [(Way::Run, What::Write)];

static PIECES: [(Way, What); 1] = [(Way::Run, What::Piece)];

static FRAGMENTS: [(Way, What); 1] = [(Way::Run, What::Fragments)];

/// What is tried of a script.
#[derive(Clone, Copy)]
enum Trials {
    Calls,
    Writes,
    Pieces,
    Fragments,
}

impl Trials {
    /// How its events are answered, and what fails.
    fn rows(self) -> &'static [(Way, What)] {
        match self {
            Trials::Calls => &CALLS,
            Trials::Writes => &WRITES,
            Trials::Pieces => &PIECES,
            Trials::Fragments => &FRAGMENTS,
        }
    }
}

/// The scripts, in the order in which they are told, and what is tried of each.
static FILES: [(&str, Trials); 10] = [
    ("first.script", Trials::Writes),
    ("audit.script", Trials::Calls),
    ("writes.script", Trials::Calls),
    ("again.script", Trials::Fragments),
    ("recall.script", Trials::Fragments),
    ("found.script", Trials::Fragments),
    ("key.script", Trials::Calls),
    ("calls.script", Trials::Calls),
    ("calls.script", Trials::Pieces),
    ("batch.script", Trials::Calls),
];

fn tell_scripts(
    alloc: Global,
    sample: &Sample<'_>,
    texts: &Texts,
    questions: &[Event],
    out: &mut Told,
)
    requires { AllByRecursion (EventFits sample.now.policy.now sample.now.schemes.now) questions.now }
{
    let scripts = Scripts {
        events: &[],
        questions,
        transactions: texts.named("transactions.txt"),
    };
    for &(file, trials) in &FILES {
        out.push("== ");
        out.push_line(file);
        let rows = trials.rows();
        tell_script(alloc, sample, rows, texts.named(file), scripts, out);
    }
}

/// Tells what the scripts leave.
pub fn tell_files(alloc: Global, sample: &Sample<'_>, texts: &Texts, out: &mut Told) {
    let text = texts.named("questions.script").as_bytes();
    match script(alloc, sample.policy, sample.schemes, text) {
        Ok(questions) => tell_scripts(alloc, sample, texts, &questions, out),
        Err(_) => out.fail(),
    }
}
