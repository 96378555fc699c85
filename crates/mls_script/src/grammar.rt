//! The verbs of commands, and those of the commands of a batch.
ghost use Rattle.std.specs.Prelude.{◌≡◌};
ghost use Rattle.mls_script.specs.Grammar.{verb_word, verb_among, one_word, one_among};

/// What a command begins with.
#[derive(Clone, Copy)]
pub(crate) enum Verb {
    Open,
    Close,
    Audit,
    View,
    Count,
    Dump,
    Insert,
    Update,
    Delete,
    Call,
    All,
}

/// Every verb.
pub(crate) static VERBS: [Verb; 11] = [
    Verb::Open,
    Verb::Close,
    Verb::Audit,
    Verb::View,
    Verb::Count,
    Verb::Dump,
    Verb::Insert,
    Verb::Update,
    Verb::Delete,
    Verb::Call,
    Verb::All,
];

impl Verb {
    fn word(self) -> &'static str
        ensures { result.now ≡ verb_word self }
    {
        match self {
            Verb::Open => "open",
            Verb::Close => "close",
            Verb::Audit => "audit",
            Verb::View => "view",
            Verb::Count => "count",
            Verb::Dump => "dump",
            Verb::Insert => "insert",
            Verb::Update => "update",
            Verb::Delete => "delete",
            Verb::Call => "call",
            Verb::All => "all",
        }
    }
}

/// The first of some verbs that has a word.
pub(crate) fn verb_among(verbs: &[Verb], word: &str) -> Option<Verb>
    ensures { result ≡ verb_among verbs.now word.now }
{
    for verb in verbs {
        if word == verb.word() {
            return Some(*verb);
        }
    }
    None
}

// ---- in a batch

/// What a command of a batch begins with.
#[derive(Clone, Copy)]
pub(crate) enum OneVerb {
    View,
    Count,
    Expect,
    Insert,
    Update,
    Delete,
}

/// Every verb of a batch.
pub(crate) static ONE_VERBS: [OneVerb; 6] = [
    OneVerb::View,
    OneVerb::Count,
    OneVerb::Expect,
    OneVerb::Insert,
    OneVerb::Update,
    OneVerb::Delete,
];

impl OneVerb {
    fn word(self) -> &'static str
        ensures { result.now ≡ one_word self }
    {
        match self {
            OneVerb::View => "view",
            OneVerb::Count => "count",
            OneVerb::Expect => "expect",
            OneVerb::Insert => "insert",
            OneVerb::Update => "update",
            OneVerb::Delete => "delete",
        }
    }
}

/// The first of some verbs of a batch that has a word.
pub(crate) fn one_among(verbs: &[OneVerb], word: &str) -> Option<OneVerb>
    ensures { result ≡ one_among verbs.now word.now }
{
    for verb in verbs {
        if word == verb.word() {
            return Some(*verb);
        }
    }
    None
}
