//! The rows of a policy's tables.
use crate::items::Items;
use crate::label::Label;
use crate::modes::Modes;
use crate::number::{LabelNo, UserNo};
use crate::text::Str;

/// A declared label.
#[derive(Drop)]
pub struct NamedLabel {
    pub name: Str,
    pub label: Label,
}

/// A user: the clearance, and the interval in which the user is trusted.
#[derive(Drop)]
pub struct User {
    pub name: Str,
    pub clearance: LabelNo,
    pub trusted: Option<(LabelNo, LabelNo)>,
}

/// What a user may do with an object (Bell and LaPadula 1976).
#[derive(Drop)]
pub struct Right {
    pub user: UserNo,
    pub object: Str,
    pub modes: Modes,
}

/// What a table of the matrix grants: these modes to each of the users, for each of the objects.
#[derive(Drop)]
pub struct Grant {
    pub users: Items<UserNo>,
    pub objects: Items<Str>,
    pub modes: Modes,
}
