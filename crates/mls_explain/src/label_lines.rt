//! The lines of least labels, of a refusal, and of what is released.
ghost use Rattle.std.specs.Prelude.{◌≡◌, ◌++◌, ◌+◌, ◌<◌, ◌^◌, [], slice_get, string_bytes, IfOk, OnOk, unwrap_or};
ghost use Rattle.mls_explain.specs.Telling.{variable_line, variable_lines, at_line, statement_lines, label_lines};
ghost use Rattle.mls_explain.specs.Telling.{refused_front, refused_line, head, release_line};
ghost use Rattle.mls_explain.specs.Telling.{TellsOne, TellsEach, TellsTx};

use crate::labelling::Labelling;
use crate::naming::words_of;
use crate::numbering::four_to;
use crate::teller::{Teller, Told};
use mls_certcheck::{Certificate, Rule};
use mls_labeller::{Told as Release, ranges_of, whole, words};
use mls_lattice::{Items, Label};
use mls_translang::Stmt;
use std::alloc::AllocError;

/// The labels of the variables after a statement, where there are rows of them.
fn row_after(rows: &[Items<Label>], place: usize) -> &[Label]
    ensures { result.now ≡ unwrap_or (slice_get rows.now place) [] }
{
    match rows.get(place) {
        Some(row) => row.as_slice(),
        None => &[],
    }
}

#[tactic(auto, unfolding(crate::specs::Telling::refused_front))]
fn refused_front_to(text: &mut String, name: &str) -> Told
    ensures { OnOk result (string_bytes text.new ≡ string_bytes text.old ++ refused_front name.now) }
{
    write!(text, "{name} is refused: ")
}

/// Adds the place and the rule of a refusal.
fn refused_to(text: &mut String, name: &str, stmt: usize, rule: Rule) -> Told
    ensures { OnOk result (string_bytes text.new ≡ string_bytes text.old ++ refused_line name.now stmt rule) }
{
    refused_front_to(text, name)?;
    let rule = rule.text();
    writeln!(text, "{stmt} {rule}")
}

/// Adds the line of a release to a label.
fn release_to(text: &mut String, number: usize, label: &str, words: &str, loops: &str) -> Told
    ensures { OnOk result (string_bytes text.new ≡ string_bytes text.old
        ++ release_line number label.now words.now loops.now) }
{
    four_to(text, number)?;
    writeln!(text, "  releases to {label}: {words}{loops}")
}

impl Teller<'_> {
    fn variable_to(&self, text: &mut String, place: usize, label: Label) -> Told
        ensures { OnOk result (string_bytes text.new ≡ string_bytes text.old
            ++ variable_line self.now.policy.now self.now.tx.now.vars (place, label)) }
    {
        let name = self.variable(place);
        let words = words_of(self.alloc, self.policy, label)?;
        writeln!(text, "      {name}:{words}")
    }

    fn variables_to(&self, text: &mut String, labels: &[Label]) -> Told
        ensures { OnOk result (string_bytes text.new ≡ string_bytes text.old
            ++ variable_lines self.now.policy.now self.now.tx.now.vars labels.now) }
    {
        for (place, label) in labels.iter().enumerate() {
            self.variable_to(text, place, *label)?;
        }
        Ok(())
    }

    fn statement_labels_to(&self, text: &mut String, place: usize, label: Label) -> Told
        requires { place + 1 < 2 ^ 64 }
        ensures { OnOk result (string_bytes text.new ≡ string_bytes text.old
            ++ at_line self.now.policy.now (place, label)) }
    {
        four_to(text, place + 1)?;
        let words = words_of(self.alloc, self.policy, label)?;
        writeln!(text, "  at{words}")?;
        Ok(())
    }

    fn statements_to(&self, text: &mut String, rows: &[Items<Label>], labels: &[Label]) -> Told
        ensures { OnOk result (string_bytes text.new ≡ string_bytes text.old
            ++ statement_lines self.now.policy.now self.now.tx.now.vars rows.now labels.now) }
    {
        for (place, label) in labels.iter().enumerate() {
            self.statement_labels_to(text, place, *label)?;
            self.variables_to(text, row_after(rows, place))?;
        }
        Ok(())
    }

    fn labels_to(&self, text: &mut String, cert: &Certificate) -> Told
        ensures { OnOk result (string_bytes text.new ≡ string_bytes text.old
            ++ label_lines self.now.policy.now self.now.tx.now.vars cert.now) }
    {
        match cert {
            Certificate::One(cert) => {
                text.push_str("labels, version 1:\n")?;
                self.variables_to(text, &cert.var_labels)?;
                self.statements_to(text, &[], &cert.pc_labels)
            }
            Certificate::Two(cert) => {
                text.push_str("labels, version 2:\n")?;
                self.statements_to(text, &cert.rows, &cert.pc_labels)
            }
        }
    }

    /// The labels of a certificate, or the place and the rule of a refusal.
    pub(crate) fn head_to(&self, text: &mut String, labelling: &Labelling) -> Told
        ensures { OnOk result (string_bytes text.new ≡ string_bytes text.old
            ++ head self.now.policy.now self.now.tx.now labelling.now) }
    {
        match labelling {
            Labelling::Labelled(cert) => self.labels_to(text, cert),
            Labelling::Refused { stmt, rule, .. } => refused_to(text, self.tx.name(), *stmt, *rule),
        }
    }

    /// Adds over which rows a loop goes; a branch adds nothing.
    fn loop_to(&self, text: &mut String, number: usize) -> Told {
        if let Some(stmt) = self.stmt(number) {
            if let Stmt::For {
                relation,
                label,
                ..
            } = stmt
            {
                let (relation, label) = (self.relation(*relation), self.label(*label));
                write!(text, ", for each row of {relation} that {label} sees")?;
            }
        }
        Ok(())
    }

    /// Over which rows the loops around a statement go.
    fn loops_of(&self, number: usize) -> Result<String, AllocError> {
        let mut text = String::new(self.alloc);
        for around in &self.all_around(number)? {
            self.loop_to(&mut text, *around)?;
        }
        Ok(text)
    }

    /// What a release tells to which label, how much, and how often.
    fn release_of(&self, number: usize, release: &Release) -> Result<String, AllocError>
        ensures { IfOk result (λ s. TellsOne release.now (string_bytes s)) }
    {
        let kind = self.kind(usize::from(release.into));
        let words = words(self.alloc, release, kind)?;
        let loops = self.loops_of(number)?;
        let mut text = String::new(self.alloc);
        release_to(&mut text, number, self.label(release.to), &words, &loops)?;
        Ok(text)
    }

    /// What each release tells.
    fn each_of(&self, told: &[Release]) -> Result<String, AllocError>
        ensures { IfOk result (λ s. TellsEach told.now (string_bytes s)) }
    {
        let mut text = String::new(self.alloc);
        let mut next = 0;
        for (place, statement) in self.statements.iter().enumerate() {
            if let Stmt::Release { .. } = statement.stmt {
                if let Some(release) = told.get(next) {
                    let line = self.release_of(place + 1, release)?;
                    text.push_str(&line)?;
                    next += 1;
                }
            }
        }
        Ok(text)
    }

    /// What each release tells, and all together.
    pub(crate) fn releases_of(&self) -> Result<String, AllocError>
        ensures { IfOk result (λ s. TellsTx self.now.tx.now (string_bytes s)) }
    {
        let releases = ranges_of(self.alloc, self.tx)?;
        let mut text = self.each_of(&releases.told)?;
        if let Some(words) = whole(self.alloc, &releases)? {
            writeln!(text, "      all releases: {words}")?;
        }
        Ok(text)
    }
}
