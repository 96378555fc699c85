//! Why a transaction is refused, in sentences.
ghost use Rattle.std.specs.Prelude.{string_bytes, IfOk};
ghost use Rattle.mls_explain.specs.Telling.{Advises};

use crate::chain::Chain;
use crate::labelling::Labelling;
use crate::mending::{Sink, SinkKind};
use crate::paths::Path;
use crate::teller::{Teller, Told};
use mls_certcheck::{Rule, Slot, Source};
use mls_lattice::LabelNo;
use mls_scheme::Write;
use mls_translang::Stmt;
use std::alloc::AllocError;

/// What a rule is there for.
fn purpose(rule: Rule) -> &'static str {
    match rule {
        Rule::Assignment => "Whoever may know a variable may know what was put into it.",
        Rule::Branch => "What stands in a branch tells which way its guard went.",
        Rule::RowLoop => "What stands in a loop tells how many rows there are.",
        Rule::Write => "Whoever sees where something is written sees what is written there.",
        Rule::Order => "A write finds no tuple that its own label does not see.",
        Rule::Release => "A release tells its value, and that it runs.",
        Rule::Emit => "Whoever sees what is emitted learns it, and that it was.",
        Rule::Context => "A statement runs only where what is around it runs.",
        Rule::Rest => "A variable that is not set holds what it held.",
        Rule::VarCount => "A certificate has a label for each variable.",
        Rule::StmtCount => "A certificate has a label for each statement.",
        Rule::AboveCeiling => "Nothing is known higher than where the levels end.",
    }
}

/// How something comes out of the statement of a number, if it does.
fn sink_of(number: usize, stmt: &Stmt) -> Option<Sink> {
    let (kind, label) = match stmt {
        Stmt::Emit { label, .. } => (SinkKind::Emit, *label),
        Stmt::Write { at, .. } => (SinkKind::Write, *at),
        Stmt::Release { to, .. } => (SinkKind::Release, *to),
        Stmt::Assign { .. } | Stmt::If { .. } | Stmt::For { .. } => return None,
    };
    Some(Sink {
        number,
        kind,
        label,
    })
}

impl Teller<'_> {
    // ---- the ends of the levels

    /// Adds a parameter whose label does not lie between the ends, and how it is mended.
    fn beside_to(&self, text: &mut String, name: &str, label: LabelNo) -> Told {
        let low = self.label(self.tx.lo());
        let high = self.label(self.tx.hi());
        let of = self.label(label);
        let tx = self.tx.name();
        write!(
            text,
            "   The parameter {name} is at {of}, which does not lie"
        )?;
        writeln!(text, " between {low} and {high}, the levels of {tx}.")?;
        if self.is_seen(label, self.tx.hi()) {
            write!(text, "   To mend it: declare {name} at {low}")?;
            self.floor_way_to(text, label)
        } else {
            write!(text, "   To mend it: declare {name} at {high}")?;
            self.ceiling_way_to(text, label)
        }
    }

    fn parameters_to(&self, text: &mut String) -> Told {
        for place in 0..self.tx.params().len() {
            let label = self.parameter_label(place);
            if !self.is_seen(self.tx.lo(), label) || !self.is_seen(label, self.tx.hi()) {
                self.beside_to(text, self.parameter(place), label)?;
            }
        }
        Ok(())
    }

    /// Adds that the ceiling does not see a label.
    fn unseen_to(&self, text: &mut String, label: LabelNo) -> Told {
        let tx = self.tx.name();
        let high = self.label(self.tx.hi());
        let label = self.label(label);
        write!(text, "The levels of {tx} end at {high}")?;
        write!(text, ", which does not see {label}.")
    }

    /// Adds that a statement names a label that the ceiling does not see, and how it is mended.
    fn above_to(&self, text: &mut String, verb: &str, label: LabelNo) -> Told {
        let at = self.label(label);
        write!(text, "   This {verb}s at {at}. ")?;
        self.unseen_to(text, label)?;
        let high = self.label(self.tx.hi());
        write!(text, "\n   To mend it: {verb} at {high}")?;
        self.ceiling_way_to(text, label)
    }

    // ---- the classes of a write

    /// Adds that a write starts from, or writes at, a label that does not see a class it names or what it starts from.
    fn order_to(
        &self,
        text: &mut String,
        starts: bool,
        names: bool,
        low: LabelNo,
        high: LabelNo,
    ) -> Told {
        let (does, verb) = if starts {
            ("starts from what stands at", "start from")
        } else {
            ("writes at", "write at")
        };
        let (named, other, word) = if names {
            ("names a key of the class", "name a class that", "class")
        } else {
            ("starts from what stands at", "start from what", "from")
        };
        let higher = self.label(self.lowest_that_sees(low, high).unwrap_or(high));
        let low = self.label(low);
        let high = self.label(high);
        write!(text, "   This {does} {low} and {named} {high}, which {low}")?;
        text.push_str(
            " does not see. What comes of it would tell whether something stands there.\n",
        )?;
        write!(text, "   To mend it: {verb} {higher}; or {other}")?;
        writeln!(text, " {low} sees (`{word} {low}`).")
    }

    /// Adds that an update or a delete names a class that it does not see, and how it is mended.
    fn classes_to(&self, text: &mut String, stmt: &Stmt) -> Told {
        let Stmt::Write { at, write, .. } = stmt else {
            return Ok(());
        };
        match write {
            Write::Insert { .. } => Ok(()),
            Write::Update {
                key_class,
                from,
                ..
            } => {
                if self.is_seen(*key_class, *from) {
                    self.order_to(text, false, false, *at, *from)
                } else {
                    self.order_to(text, true, true, *from, *key_class)
                }
            }
            Write::Delete { key_class, .. } => self.order_to(text, false, true, *at, *key_class),
        }
    }

    // ---- what comes out

    /// Adds what is known, and at which label.
    fn known_to(&self, text: &mut String, path: &Path, number: usize) -> Told {
        let root = self.label(path.root);
        match path.end {
            Source::Parameter(place) => {
                let name = self.parameter(usize::from(place));
                write!(text, "The parameter {name} is at {root}")
            }
            Source::Declared(_) => {
                self.field_to(text, number, path.root)?;
                write!(text, " is of a row that {root} sees")
            }
            Source::Held(Slot::Variable { place, .. }) => {
                let name = self.variable(place);
                write!(text, "{name} may hold here what is known at {root}")
            }
            Source::Held(Slot::Statement(_)) if path.cause == Some(0) => {
                let tx = self.tx.name();
                write!(text, "That this runs is known at {root}")?;
                write!(text, ", where the levels of {tx} begin")
            }
            Source::Held(Slot::Statement(_)) => {
                text.push_str(if self.turns(path) {
                    "How often"
                } else {
                    "Whether"
                })?;
                write!(text, " this runs is known at {root}")
            }
        }
    }

    /// What whoever sees it could do with it.
    fn harm(&self, kind: SinkKind, path: &Path) -> &'static str {
        let is_one_loop = self.turns(path) && path.steps.len() == 1;
        match kind {
            SinkKind::Write if is_one_loop => "could tell whether there are any",
            SinkKind::Emit | SinkKind::Release if is_one_loop => "could count them",
            SinkKind::Release if path.cause != Some(0) => {
                "would learn it, also where nothing is released"
            }
            _ => "would learn it",
        }
    }

    /// Adds what comes out of a statement that must not, and how it is mended.
    fn out_to(&self, text: &mut String, out: &Sink, chain: &Chain) -> Told {
        if !self.is_seen(out.label, self.tx.hi()) {
            return self.above_to(text, out.kind.verb(), out.label);
        }
        let path = self.path_of(chain, out.number)?;
        text.push_str("   ")?;
        self.known_to(text, &path, out.number)?;
        self.one_reason_to(text, &path)?;
        let at = self.label(out.label);
        let harm = self.harm(out.kind, &path);
        write!(text, " Whoever sees {at} {harm}.")?;
        self.steps_to(text, &path)?;
        self.out_ways_to(text, out, &path)
    }

    /// Adds a variable that may hold what the ceiling does not see, and how it is mended.
    fn held_above_to(&self, text: &mut String, number: usize, chain: &Chain) -> Told {
        let path = self.path_of(chain, number)?;
        text.push_str("   ")?;
        self.unseen_to(text, path.root)?;
        let root = self.label(path.root);
        match path.end {
            Source::Held(Slot::Variable { place, .. }) => {
                let name = self.variable(place);
                write!(text, " After this {name} may hold what is known at {root}")?;
            }
            _ => write!(text, " Whether this runs is known at {root}")?,
        }
        self.one_reason_to(text, &path)?;
        self.steps_to(text, &path)?;
        let high = self.label(self.tx.hi());
        write!(text, "   To mend it: read and write only what {high} sees")?;
        self.ceiling_way_to(text, path.root)
    }

    /// Adds why a rule is broken at a statement, and how it is mended.
    fn why_to(&self, text: &mut String, number: usize, rule: Rule, chain: &Option<Chain>) -> Told {
        match (rule, self.stmt(number), chain) {
            (_, None, _) => self.parameters_to(text),
            (Rule::Order, Some(stmt), _) => self.classes_to(text, stmt),
            (Rule::RowLoop, Some(Stmt::For { label, .. }), _) => {
                self.above_to(text, "read", *label)
            }
            (Rule::AboveCeiling, _, Some(chain)) => self.held_above_to(text, number, chain),
            (Rule::Write | Rule::Release | Rule::Emit, Some(stmt), Some(chain)) => {
                match sink_of(number, stmt) {
                    Some(out) => self.out_to(text, &out, chain),
                    None => Ok(()),
                }
            }
            _ => {
                let purpose = purpose(rule);
                writeln!(text, "   {purpose}")
            }
        }
    }

    /// What each release tells to which label; or why a rule is broken, with the line of the statement, and how that is
    /// mended.
    pub(crate) fn advice_of(&self, labelling: &Labelling) -> Result<String, AllocError>
        ensures { IfOk result (λ s. Advises self.now.tx.now labelling.now (string_bytes s)) }
    {
        match labelling {
            Labelling::Labelled(_) => self.releases_of(),
            Labelling::Refused { stmt, rule, chain } => {
                let mut text = String::new(self.alloc);
                self.line_to(&mut text, *stmt)?;
                text.push_str("\n")?;
                self.why_to(&mut text, *stmt, *rule, chain)?;
                Ok(text)
            }
        }
    }
}
