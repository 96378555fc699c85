//! Who sits at a shell, and what becomes of a line.
use mls_lattice::{Items, LabelNo, Str};
use mls_script::ScriptFault;
use mls_sessions::RunCause;
use mls_translang::Event;

/// Who sits at a shell: a user, at a level. The session has the name of the user.
#[derive(Drop)]
pub struct ShellSession {
    pub level: LabelNo,
    /// The name of the level.
    pub label: Str,
    pub user: Str,
    /// Whether somebody types at a terminal: a prompt is shown before each line, and views as tables.
    pub has_prompt: bool,
    /// Whether somebody reads standard error at a terminal: what is refused is explained there.
    pub is_watched: bool,
}

/// What becomes of a line.
#[derive(Drop)]
pub enum Fate {
    /// There is none: the lines are over.
    Over,
    /// It says nothing.
    Blank,
    /// It asks which commands there are.
    Help,
    /// It asks what is declared, or for help with something.
    Asked,
    /// It tells events of the session.
    Said(Items<Event>),
    /// It tells none.
    Refused(ScriptFault),
    TooLong,
    /// It was not read, nor will another be.
    Unreadable,
    /// It was not read or understood, for a cause that ends the shell.
    Lost(RunCause),
}
