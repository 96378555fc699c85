//! What was asked of a relation, as replies repeat it.
ghost use Rattle.std.specs.Prelude.{◌≡◌, ◌<◌, ◌++◌, length, OnOk};
ghost use Rattle.mls_machine.specs.Output.{word_if, query_words, asked};

use mls_lattice::{LabelNo, Policy};
use mls_scheme::Scheme;
use mls_tokens::push_str;
use mls_translang::Query;
use std::alloc::AllocError;

/// What is asked: a relation, a label that the policy declares, and a query.
#[derive(Clone, Copy)]
pub(crate) struct Asked<'a> {
    pub policy: &'a Policy,
    pub scheme: &'a Scheme,
    pub label: LabelNo,
    pub query: &'a Query,
    ghost declared: { label < length policy.now.labels },
}

/// Appends a word behind a space, where a query has that part.
fn push_word_if(text: &mut Vec<u8>, has: bool, word: &str) -> Result<(), AllocError>
    ensures { OnOk result (text.new.items ≡ text.old.items ++ word_if has word.now) }
{
    if has {
        push_str(text, " ")?;
        push_str(text, word)?;
    }
    Ok(())
}

/// Appends which parts a query has.
fn push_query_words(text: &mut Vec<u8>, query: &Query) -> Result<(), AllocError>
    ensures { OnOk result (text.new.items ≡ text.old.items ++ query_words query.now) }
{
    push_word_if(text, query.highest, "highest")?;
    push_word_if(text, query.class.is_some(), "class")?;
    push_word_if(text, query.first.is_some(), "first")?;
    push_word_if(text, query.test.is_some(), "where")
}

/// Appends what was asked, under a verb.
pub(crate) fn push_asked(text: &mut Vec<u8>, verb: &str, what: &Asked) -> Result<(), AllocError>
    ensures { OnOk result (text.new.items ≡ text.old.items
        ++ asked what.now.policy.now verb.now what.now.scheme.now what.now.label what.now.query.now) }
{
    push_str(text, verb)?;
    push_str(text, " ")?;
    push_str(text, what.scheme.name())?;
    push_str(text, " at ")?;
    push_str(text, what.policy.name(what.label))?;
    push_query_words(text, what.query)?;
    push_str(text, ":")
}
