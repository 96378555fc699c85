//! Labels, users and rights of the sample policy.
ghost use Rattle.std.specs.Prelude.{◌<◌, length};

use crate::show::push_word;
use crate::tuples::{label_of, name_of};
use bitflags::Flags;
use case_tables::Told;
use mls_lattice::{Label, LabelNo, Policy, UserNo};

/// Adds the rank of a label, and its categories as bits.
pub fn push_label(label: Label, out: &mut Told) {
    let growth = write!(out.text, " rank {} categories {:b}", label.rank, label.cats);
    out.note(growth);
}

/// Adds the number and the name of a label, and what it stands for.
fn push_numbered(policy: &Policy, label: LabelNo, out: &mut Told)
    requires { label < length policy.now.labels }
{
    out.push(" ");
    out.push_count(label.index());
    push_word(policy.name(label), out);
    push_label(policy.value(label), out);
}

/// How a label compares with another.
fn word_of(first: Label, second: Label) -> &'static str {
    match (first.dominates(second), second.dominates(first)) {
        (true, true) => " equal",
        (true, false) => " above",
        (false, true) => " below",
        (false, false) => " incomparable",
    }
}

/// Adds how two labels compare, their join and their meet.
fn push_labels(first: Label, second: Label, out: &mut Told) {
    out.push(word_of(first, second));
    out.push(", join");
    push_label(first.join(second), out);
    out.push(", meet");
    push_label(first.meet(second), out);
}

/// Adds the number of a user, its clearance and its trusted interval.
fn push_user(policy: &Policy, user: UserNo, out: &mut Told)
    requires { user < length policy.now.users }
{
    out.push(" ");
    out.push_count(user.index());
    push_word(policy.user_name(user), out);
    push_word(name_of(policy, policy.clearance(user)), out);
    if let Some((low, high)) = policy.trusted(user) {
        out.push(" trusted ");
        out.push(name_of(policy, low));
        out.push(" to ");
        out.push(name_of(policy, high));
    }
}

fn push_named_labels(policy: &Policy, first: &str, second: &str, out: &mut Told) {
    match (label_of(policy, first), label_of(policy, second)) {
        (Some(first), Some(second)) => push_labels(policy.value(first), policy.value(second), out),
        _ => out.push(" none"),
    }
}

/// Adds what a policy says of a user, or the bits of what it may do with an object.
fn push_named_user(policy: &Policy, is_modes: bool, name: &str, object: &str, out: &mut Told) {
    match policy.user(name) {
        Some(user) if is_modes => {
            out.push(" ");
            out.push_count(policy.modes(user, object).bits() as usize);
        }
        Some(user) => push_user(policy, user, out),
        None => out.push(" none"),
    }
}

/// Adds what a policy says of `label NAME`, `labels NAME NAME`, `user NAME` and `modes USER OBJECT`.
pub fn push(policy: &Policy, kind: &str, names: &str, out: &mut Told) {
    let (first, second) = names.split_once(' ').unwrap_or((names, ""));
    match kind {
        "label" => match label_of(policy, first) {
            Some(label) => push_numbered(policy, label, out),
            None => out.push(" none"),
        },
        "labels" => push_named_labels(policy, first, second, out),
        _ => push_named_user(policy, kind == "modes", first, second, out),
    }
}
