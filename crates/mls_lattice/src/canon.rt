//! The lines of the canonical text.
ghost use Rattle.std.specs.Prelude.{◌≡◌, ◌++◌, ◌<◌, ◌≤◌, OnOk, codes, length, map, string_bytes, flat_map};
ghost use Rattle.std.specs.List.{AllByRecursion};
ghost use Rattle.mls_lattice.specs.Lattice.{cats_of};
ghost use Rattle.mls_lattice.specs.Version.{version_text};
ghost use Rattle.mls_lattice.specs.Policy.{named, HasLevel, IsCleared, HasUser};
ghost use Rattle.mls_lattice.specs.Canon.{label_name, user_name, spaced, names_of, level_line, category_line};
ghost use Rattle.mls_lattice.specs.Canon.{label_line, user_line, word_if, modes_text, right_line};

use crate::label::Label;
use crate::modes::Modes;
use crate::number::{LabelNo, UserNo};
use crate::tables::{NamedLabel, Right, User};
use crate::text::Str;
use crate::version::Version;
use bitflags::Flags;
use std::alloc::AllocError;

/// The name of a label.
#[tactic(auto, using(crate::proofs::CanonLemmas::names))]
pub(crate) fn label_name(labels: &[NamedLabel], label: LabelNo) -> &str
    requires { label < length labels.now }
    ensures { result.now ≡ label_name (map named labels.now) label }
{
    labels[label.index()].name.as_str()
}

/// The name of a user.
pub(crate) fn user_name(users: &[User], user: UserNo) -> &str
    requires { user < length users.now }
    ensures { result.now ≡ user_name users.now user }
{
    users[user.index()].name.as_str()
}

/// Writes the first line, which has the version.
pub(crate) fn version_to(text: &mut String, version: Version) -> Result<(), AllocError>
    ensures { OnOk result (string_bytes text.new ≡ string_bytes text.old ++ codes "policy " ++ version_text version
        ++ codes "\n") }
{
    let word = version.word();
    writeln!(text, "policy {word}")
}

/// Writes the lines of the levels.
pub(crate) fn levels_to(text: &mut String, levels: &[Str]) -> Result<(), AllocError>
    ensures { OnOk result (string_bytes text.new ≡ string_bytes text.old ++ flat_map level_line levels.now) }
{
    for level in levels {
        let name = level.as_str();
        writeln!(text, "level {name}")?;
    }
    Ok(())
}

/// Writes the lines of the categories.
pub(crate) fn categories_to(text: &mut String, categories: &[Str]) -> Result<(), AllocError>
    ensures { OnOk result (string_bytes text.new ≡ string_bytes text.old ++ flat_map category_line categories.now) }
{
    for category in categories {
        let name = category.as_str();
        writeln!(text, "category {name}")?;
    }
    Ok(())
}

/// Writes the names of a label's categories.
#[tactic(auto, using(crate::proofs::CanonLemmas::names_steps))]
fn names_to(text: &mut String, categories: &[Str], label: Label) -> Result<(), AllocError>
    requires { length categories.now ≤ 32 }
    ensures { OnOk result (string_bytes text.new ≡ string_bytes text.old
        ++ flat_map spaced (names_of 0 categories.now (cats_of label.cats))) }
{
    for (place, category) in categories.iter().enumerate() {
        if label.has(place as u32) {
            let name = category.as_str();
            write!(text, " {name}")?;
        }
    }
    Ok(())
}

/// Writes the line of a label.
pub(crate) fn label_to(
    text: &mut String,
    levels: &[Str],
    categories: &[Str],
    label: &NamedLabel,
) -> Result<(), AllocError>
    requires ranked { HasLevel (length levels.now) (named label.now) }
    requires few { length categories.now ≤ 32 }
    ensures { OnOk result (string_bytes text.new ≡ string_bytes text.old
        ++ label_line levels.now categories.now (named label.now)) }
{
    let name = label.name.as_str();
    let level = levels[label.label.rank as usize].as_str();
    write!(text, "label {name} {level}")?;
    names_to(text, categories, label.label)?;
    text.push_str("\n")?;
    Ok(())
}

/// Writes the lines of the labels.
pub(crate) fn labels_to(
    text: &mut String,
    levels: &[Str],
    categories: &[Str],
    labels: &[NamedLabel],
) -> Result<(), AllocError>
    requires ranked { AllByRecursion (HasLevel (length levels.now)) (map named labels.now) }
    requires few { length categories.now ≤ 32 }
    ensures { OnOk result (string_bytes text.new ≡ string_bytes text.old
        ++ flat_map (label_line levels.now categories.now) (map named labels.now)) }
{
    for label in labels {
        label_to(text, levels, categories, label)?;
    }
    Ok(())
}

/// Writes the line of a user.
fn user_to(text: &mut String, labels: &[NamedLabel], user: &User) -> Result<(), AllocError>
    requires { IsCleared (length labels.now) user.now }
    ensures { OnOk result (string_bytes text.new ≡ string_bytes text.old ++ user_line (map named labels.now) user.now) }
{
    let name = user.name.as_str();
    let clearance = label_name(labels, user.clearance);
    write!(text, "user {name} {clearance}")?;
    if let Some((low, high)) = user.trusted {
        let low = label_name(labels, low);
        let high = label_name(labels, high);
        write!(text, " {low} {high}")?;
    }
    text.push_str("\n")?;
    Ok(())
}

/// Writes the lines of the users.
pub(crate) fn users_to(
    text: &mut String,
    labels: &[NamedLabel],
    users: &[User],
) -> Result<(), AllocError>
    requires { AllByRecursion (IsCleared (length labels.now)) users.now }
    ensures { OnOk result (string_bytes text.new ≡ string_bytes text.old
        ++ flat_map (user_line (map named labels.now)) users.now) }
{
    for user in users {
        user_to(text, labels, user)?;
    }
    Ok(())
}

fn word_to(text: &mut String, modes: Modes, mode: Modes, word: &str) -> Result<(), AllocError>
    ensures { OnOk result (string_bytes text.new ≡ string_bytes text.old ++ word_if modes.0 mode.0 word.now) }
{
    if modes.contains(mode) {
        write!(text, " {word}")?;
    }
    Ok(())
}

/// Writes the words of the modes.
fn modes_to(text: &mut String, modes: Modes) -> Result<(), AllocError>
    ensures { OnOk result (string_bytes text.new ≡ string_bytes text.old ++ modes_text modes.0) }
{
    word_to(text, modes, Modes::EXECUTE, "execute")?;
    word_to(text, modes, Modes::READ, "read")?;
    word_to(text, modes, Modes::APPEND, "append")?;
    word_to(text, modes, Modes::WRITE, "write")
}

/// Writes the line of an entry.
fn right_to(text: &mut String, users: &[User], right: &Right) -> Result<(), AllocError>
    requires { HasUser (length users.now) right.now }
    ensures { OnOk result (string_bytes text.new ≡ string_bytes text.old ++ right_line users.now right.now) }
{
    let user = user_name(users, right.user);
    let object = right.object.as_str();
    write!(text, "matrix {user} {object}")?;
    modes_to(text, right.modes)?;
    text.push_str("\n")?;
    Ok(())
}

/// Writes the lines of the matrix.
pub(crate) fn matrix_to(
    text: &mut String,
    users: &[User],
    matrix: &[Right],
) -> Result<(), AllocError>
    requires { AllByRecursion (HasUser (length users.now)) matrix.now }
    ensures { OnOk result (string_bytes text.new ≡ string_bytes text.old
        ++ flat_map (right_line users.now) matrix.now) }
{
    for right in matrix {
        right_to(text, users, right)?;
    }
    Ok(())
}
