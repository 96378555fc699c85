//! What statements read.

use crate::teller::{Teller, Told};
use mls_certcheck::{Slot, Source};
use mls_lattice::LabelNo;
use mls_scheme::Write;
use mls_translang::{Expr, Stmt, Term};
use std::alloc::AllocError;

/// Adds the variables, parameters and fields of an expression.
fn names_to<'a>(names: &mut Vec<&'a Term>, expr: &'a Expr) -> Told {
    match &expr.term {
        Term::Known(_) | Term::Null => Ok(()),
        Term::Not(inner) => names_to(names, inner),
        Term::Op(_, left, right) => {
            names_to(names, left)?;
            names_to(names, right)
        }
        name => Ok(names.push(name)?),
    }
}

fn all_names_to<'a>(names: &mut Vec<&'a Term>, exprs: &'a [Expr]) -> Told {
    for expr in exprs {
        names_to(names, expr)?;
    }
    Ok(())
}

fn operands_to<'a>(names: &mut Vec<&'a Term>, write: &'a Write<Expr>) -> Told {
    all_names_to(names, write.key())?;
    match write {
        Write::Insert { values, .. } => all_names_to(names, values)?,
        Write::Update { sets, .. } => {
            for set in sets.as_slice() {
                names_to(names, &set.1)?;
            }
        }
        Write::Delete { .. } => {}
    }
    Ok(())
}

impl<'a> Teller<'a> {
    /// The variables, parameters and fields that a statement reads.
    pub(crate) fn names_at(&self, number: usize) -> Result<Vec<&'a Term>, AllocError> {
        let mut names = Vec::new(self.alloc);
        match self.stmt(number) {
            Some(
                Stmt::Assign { value, .. } | Stmt::Release { value, .. } | Stmt::Emit { value, .. },
            ) => names_to(&mut names, value)?,
            Some(Stmt::If { guard, .. }) => names_to(&mut names, guard)?,
            Some(Stmt::Write { write, .. }) => operands_to(&mut names, write)?,
            Some(Stmt::For { .. }) | None => {}
        }
        Ok(names)
    }

    /// The loops around a statement, the innermost first.
    fn loops_around(&self, number: usize) -> Result<Vec<&'a Stmt>, AllocError> {
        let mut loops = Vec::new(self.alloc);
        let all = self.all_around(number)?;
        for around in &all {
            if let Some(stmt @ Stmt::For { .. }) = self.stmt(*around) {
                loops.push(stmt)?;
            }
        }
        Ok(loops)
    }

    /// Whether a label sees a parameter or a field that a statement inside these loops reads.
    fn sees_name(&self, label: LabelNo, loops: &[&Stmt], name: &Term) -> bool {
        let of = match name {
            Term::Parameter(place) => self.parameter_label(usize::from(*place)),
            Term::Field { depth, .. } => match loops.get(usize::from(*depth)) {
                Some(Stmt::For { label, .. }) => *label,
                _ => label,
            },
            _ => label,
        };
        self.is_seen(of, label)
    }

    /// Whether a label sees what decides how often what stands inside a statement runs, as far as that is declared.
    pub(crate) fn sees_inside(&self, label: LabelNo, number: usize) -> Result<bool, AllocError> {
        if let Some(Stmt::For { label: of, .. }) = self.stmt(number) {
            return Ok(self.is_seen(*of, label));
        }
        let loops = self.loops_around(number)?;
        let names = self.names_at(number)?;
        Ok(names.iter().all(|name| self.sees_name(label, &loops, name)))
    }

    /// The row and the attribute that a name is in these loops, if it is a field of a label.
    fn field_of(
        &self,
        loops: &[&'a Stmt],
        name: &Term,
        label: LabelNo,
    ) -> Option<(&'a str, &'a str)> {
        let Term::Field { depth, attribute } = name else {
            return None;
        };
        match loops.get(usize::from(*depth)) {
            Some(
                Stmt::For {
                    row,
                    relation,
                    label: of,
                    ..
                },
            ) if of.index() == label.index() => {
                let attribute = self.attribute(*relation, usize::from(*attribute));
                Some((row.as_str(), attribute))
            }
            _ => None,
        }
    }

    /// Adds the first field of a label that a statement reads.
    pub(crate) fn field_to(&self, text: &mut String, number: usize, label: LabelNo) -> Told {
        let loops = self.loops_around(number)?;
        let names = self.names_at(number)?;
        for name in &names {
            if let Some((row, attribute)) = self.field_of(&loops, name, label) {
                return write!(text, "{row}.{attribute}");
            }
        }
        text.push_str("what stands there")
    }

    fn slot_to(&self, text: &mut String, slot: Slot) -> Told {
        match slot {
            Slot::Variable { place, .. } => text.push_str(self.variable(place)),
            Slot::Statement(other) => write!(text, "whether {other} runs"),
        }
    }

    /// Adds what a statement reads of a source.
    pub(crate) fn value_to(&self, text: &mut String, number: usize, source: Source) -> Told {
        match source {
            Source::Held(slot) => self.slot_to(text, slot),
            Source::Parameter(place) => {
                let place = usize::from(place);
                let name = self.parameter(place);
                let label = self.label(self.parameter_label(place));
                write!(text, "the parameter {name} ({label})")
            }
            Source::Declared(label) => {
                self.field_to(text, number, label)?;
                let label = self.label(label);
                write!(text, ", of a row that {label} sees")
            }
        }
    }
}
