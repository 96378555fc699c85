//! A policy and schemes for people: labels, users and rights, and the intervals of attributes.
ghost use Rattle.std.specs.Prelude.{◌<◌, length};

use crate::columns::{Told, columns_to, row_of};
use crate::labels::labels_to;
use crate::names::label_name;
use bitflags::Flags;
use mls_lattice::{LabelNo, Modes, Policy, UserNo};
use mls_scheme::{Attributes, RelNo, Schemes};
use std::alloc::{AllocError, Global};

/// What stands before the first object that is no relation.
const FIRST_OTHER: &str = "  no relation has these names, so they are transactions: ";

/// No policy has more users.
const MOST_USERS: u16 = 1024;

/// What is drawn.
#[derive(Clone, Copy)]
struct Drawing<'a> {
    alloc: Global,
    policy: &'a Policy,
}

impl<'a> Drawing<'a> {
    fn name_of(&self, label: LabelNo) -> &'a str {
        label_name(self.policy, label)
    }

    // ---- users and rights

    fn interval_of(&self, low: LabelNo, high: LabelNo) -> Result<String, AllocError> {
        let low = self.name_of(low);
        let high = self.name_of(high);
        format!(in self.alloc; "{low} to {high}")
    }

    /// A user's name, clearance and trusted interval.
    fn user_row(&self, user: UserNo) -> Result<Vec<String>, AllocError>
        requires { user < length self.now.policy.now.users }
    {
        let clearance = self.name_of(self.policy.clearance(user));
        let mut row = row_of(self.alloc, &[self.policy.user_name(user), clearance])?;
        row.push(match self.policy.trusted(user) {
            Some((low, high)) => self.interval_of(low, high)?,
            None => String::from_str(self.alloc, "-")?,
        })?;
        Ok(row)
    }

    fn users_to(&self, text: &mut String) -> Told {
        let heading = row_of(self.alloc, &["user", "clearance", "trusted"])?;
        let mut rows = vec![in self.alloc; heading]?;
        for number in 0..MOST_USERS {
            let user = UserNo::new(number);
            if user.index() < self.policy.user_count() {
                rows.push(self.user_row(user)?)?;
            }
        }
        text.push_str("users:\n")?;
        columns_to(text, &rows)
    }

    /// The word `user`, and the objects that rights are on, each once.
    fn objects_of(&self) -> Result<Vec<String>, AllocError> {
        let mut objects = row_of(self.alloc, &["user"])?;
        for place in 0..self.policy.right_count() {
            let object = self.policy.object(place);
            if !objects.iter().skip(1).any(|other| other.as_str() == object) {
                objects.push(String::from_str(self.alloc, object)?)?;
            }
        }
        Ok(objects)
    }

    /// The first letters of modes, or a dash.
    fn letters_of(&self, modes: Modes) -> Result<String, AllocError> {
        let mut text = String::new(self.alloc);
        for (mode, letter) in [
            (Modes::EXECUTE, "e"),
            (Modes::READ, "r"),
            (Modes::APPEND, "a"),
            (Modes::WRITE, "w"),
        ] {
            if modes.contains(mode) {
                text.push_str(letter)?;
            }
        }
        if text.is_empty() {
            text.push_str("-")?;
        }
        Ok(text)
    }

    /// What a user may do with each object of a heading.
    fn right_row(&self, heading: &[String], user: UserNo) -> Result<Vec<String>, AllocError>
        requires { user < length self.now.policy.now.users }
    {
        let mut row = row_of(self.alloc, &[self.policy.user_name(user)])?;
        for object in heading.iter().skip(1) {
            row.push(self.letters_of(self.policy.modes(user, object))?)?;
        }
        Ok(row)
    }

    fn rights_to(&self, text: &mut String, schemes: &Schemes) -> Told {
        let heading = self.objects_of()?;
        let mut rows = Vec::new(self.alloc);
        for number in 0..MOST_USERS {
            let user = UserNo::new(number);
            if user.index() < self.policy.user_count() {
                rows.push(self.right_row(&heading, user)?)?;
            }
        }
        let others = self.others_of(schemes, &heading)?;
        rows.insert(0, heading)?;
        text.push_str("rights (e execute, r read, a append, w write):\n")?;
        columns_to(text, &rows)?;
        text.push_str(&others)
    }

    /// A line that names the objects of a heading that are no relation, if there are any.
    fn others_of(&self, schemes: &Schemes, heading: &[String]) -> Result<String, AllocError> {
        let mut text = String::new(self.alloc);
        for object in heading.iter().skip(1) {
            if schemes.relation(object.as_str()).is_none() {
                text.push_str(if text.is_empty() { FIRST_OTHER } else { ", " })?;
                text.push_str(object.as_str())?;
            }
        }
        if !text.is_empty() {
            text.push_str("\n")?;
        }
        Ok(text)
    }

    // ---- relations

    /// Adds a row for each attribute of a part of a relation.
    fn part_to(
        &self,
        rows: &mut Vec<Vec<String>>,
        relation: &str,
        part: &str,
        attributes: &Attributes,
    ) -> Told {
        for place in 0..attributes.len() {
            let column = attributes.get(place);
            let mut row = row_of(self.alloc, &[relation, part])?;
            row.push(String::from_str(self.alloc, attributes.name(place))?)?;
            row.push(String::from_str(self.alloc, column.kind.word())?)?;
            row.push(self.interval_of(column.low, column.high)?)?;
            rows.push(row)?;
        }
        Ok(())
    }

    fn relations_to(&self, text: &mut String, schemes: &Schemes) -> Told {
        let heading = ["relation", "part", "name", "kind", "classes"];
        let mut rows = vec![in self.alloc; row_of(self.alloc, &heading)?]?;
        schemes.use_invariant();
        for place in 0..schemes.count() {
            let scheme = schemes.scheme(RelNo::new(place as u8));
            self.part_to(&mut rows, scheme.name(), "key", scheme.keys())?;
            self.part_to(&mut rows, scheme.name(), "attribute", scheme.others())?;
        }
        text.push_str("relations:\n")?;
        columns_to(text, &rows)
    }
}

/// The labels, in rows and each with those that it covers, the users, their rights, and the intervals of the relations.
pub fn picture(alloc: Global, policy: &Policy, schemes: &Schemes) -> Result<String, AllocError> {
    let drawing = Drawing { alloc, policy };
    let mut text = String::new(alloc);
    labels_to(&mut text, alloc, policy)?;
    drawing.users_to(&mut text)?;
    drawing.rights_to(&mut text, schemes)?;
    drawing.relations_to(&mut text, schemes)?;
    Ok(text)
}
