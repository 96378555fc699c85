//! The lines of one statement, but for those of the statements inside it.
ghost use Rattle.std.specs.Prelude.{◌≡◌, ◌<◌, ◌+◌, ◌^◌, ◌∷◌, ◌++◌, [], map, Some, None};
ghost use Rattle.mls_translang.specs.Tree.{statements, Assign, Write_at, Release, Emit, End, Do, If, For};
ghost use Rattle.mls_translang.specs.Blocks.{block_of};
ghost use Rattle.mls_certcheck.specs.Lent.{line_of};
ghost use Rattle.mls_certcheck.specs.Lines.{write as write_lines, order, rest};
ghost use Rattle.mls_certcheck.specs.Loops.{loops_of};
ghost use Rattle.mls_certcheck.specs.Walk.{entry_lines, own_of, here_lines};
ghost use Rattle.mls_certcheck.specs.declared.flow.Slot.TheVariants.{Variable, Statement};
ghost use Rattle.mls_certcheck.specs.declared.flow.Source.TheVariants.{Held, Declared};
ghost use Rattle.mls_certcheck.specs.declared.lent.Targets.TheVariants.{One};
ghost use Rattle.mls_certcheck.specs.declared.lent.More.TheVariants.{Nothing};
ghost use Rattle.mls_certcheck.specs.declared.lent.LentFlow.TheVariants.{Into, Kept, Within};
ghost use Rattle.mls_certcheck.specs.declared.refusal.Rule.TheVariants as rule;

use crate::flow::{Slot, Source};
use crate::keeping::last_number;
use crate::lent::{Here, LentFlow, More, Numbered, Targets};
use crate::refusal::Rule;
use crate::visit::Visit;
use mls_lattice::LabelNo;
use mls_scheme::Write;
use mls_translang::{Block, Expr, Stmt};

/// What is declared to have a label.
fn declared(label: LabelNo) -> Option<Source>
    ensures { result ≡ Some (Declared label) }
{
    Some(Source::Declared(label))
}

/// What variables hold after a statement, they may hold after this one.
fn kept(by: Rule, from: usize) -> (Rule, LentFlow<'static>)
    ensures { result ≡ (by, Kept from None) }
{
    (by, LentFlow::Kept { from, but: None })
}

/// A class that a write names, and a label that has to dominate it.
fn ordered(low: LabelNo, high: LabelNo) -> (Rule, LentFlow<'static>)
    ensures { result ≡ (rule.Order, Within high (Some (Declared low)) Nothing) }
{
    let within = LentFlow::Within(high, declared(low), More::Nothing);
    (Rule::Order, within)
}

impl Here {
    /// That the statement runs.
    fn runs(&self) -> Option<Source>
        ensures { result ≡ Some (Held (Statement self.now.number)) }
    {
        Some(Source::Held(Slot::Statement(self.number)))
    }

    /// A variable after the statement.
    fn target(&self, variable: u8) -> Targets<'static>
        ensures { result ≡ One (Variable self.now.number variable) }
    {
        Targets::One(Slot::Variable {
            after: self.number,
            place: usize::from(variable),
        })
    }

    /// That variables (but one) keep what they hold.
    fn rest(&self, but: Option<u8>) -> (Rule, LentFlow<'static>)
        ensures { result ≡ (rule.Rest, Kept self.now.before but) }
    {
        let from = self.before;
        (Rule::Rest, LentFlow::Kept { from, but })
    }

    /// Shows these lines, one after another.
    fn lend<V: Visit>(&self, visitor: &mut V, lines: &[(Rule, LentFlow<'_>)]) -> Result<(), V::Stop>
        ensures { V.visits visitor.old (map (λ l. line_of self.now l.0 l.1) lines.now) result visitor.new }
    {
        for lent in lines {
            visitor.line(self, lent.0, &lent.1)?;
        }
        Ok(())
    }

    /// Those of every statement: what the ceiling dominates, and what is around it.
    fn entry<V: Visit>(&self, visitor: &mut V) -> Result<(), V::Stop>
        ensures { V.visits visitor.old (entry_lines self.now) result visitor.new }
    {
        let own = Slot::Statement(self.number);
        let runs = self.runs();
        let around = Some(Source::Held(Slot::Statement(self.around)));
        self.lend(
            visitor,
            &[
                (
                    Rule::AboveCeiling,
                    LentFlow::Under(runs, More::Variables(self.vars)),
                ),
                (
                    Rule::Context,
                    LentFlow::Into(Targets::One(own), around, More::Nothing),
                ),
            ],
        )
    }

    fn assign<V: Visit>(&self, visitor: &mut V, variable: u8, value: &Expr) -> Result<(), V::Stop>
        ensures { V.visits visitor.old (own_of self.now (Do (Assign variable value.now) End)) result visitor.new }
    {
        let target = self.target(variable);
        let into = LentFlow::Into(target, self.runs(), More::Names(value));
        let rest = self.rest(Some(variable));
        self.lend(visitor, &[(Rule::Assignment, into), rest])
    }

    /// What is seen at the label of a write flows into its outcome.
    fn gives(&self, at: LabelNo, place: u8) -> (Rule, LentFlow<'static>)
        ensures { result ≡ (rule.Write, Into (One (Variable self.now.number place)) (Some (Declared at)) Nothing) }
    {
        let into = LentFlow::Into(self.target(place), declared(at), More::Nothing);
        (Rule::Write, into)
    }

    /// What flows into the relation of a write, and out of it.
    fn written<V: Visit>(
        &self,
        visitor: &mut V,
        at: LabelNo,
        write: &Write<Expr>,
        outcome: Option<u8>,
    ) -> Result<(), V::Stop>
        ensures { V.visits visitor.old (write_lines self.now.number self.now.before
            (loops_of self.now.loops) at write.now
            outcome) result visitor.new }
    {
        let into = LentFlow::Within(at, self.runs(), More::Operands(write));
        let into = (Rule::Write, into);
        let under = LentFlow::Under(declared(at), More::Nothing);
        let under = (Rule::Write, under);
        match outcome {
            None => self.lend(visitor, &[into, under]),
            Some(place) => self.lend(visitor, &[into, under, self.gives(at, place)]),
        }
    }

    /// Where a write finds its entity and its tuple, and what it leaves.
    fn found<V: Visit>(
        &self,
        visitor: &mut V,
        at: LabelNo,
        write: &Write<Expr>,
        outcome: Option<u8>,
    ) -> Result<(), V::Stop>
        ensures { V.visits visitor.old (order self.now.number at write.now
            ++ rest self.now.number self.now.before (Write_at 0 at write.now outcome)) result visitor.new }
    {
        let rest = self.rest(outcome);
        match write {
            Write::Insert { .. } => self.lend(visitor, &[rest]),
            Write::Update {
                key_class,
                from,
                ..
            } => {
                let entity = ordered(*key_class, *from);
                self.lend(visitor, &[entity, ordered(*from, at), rest])
            }
            Write::Delete { key_class, .. } => {
                self.lend(visitor, &[ordered(*key_class, at), rest])
            }
        }
    }

    fn write<V: Visit>(
        &self,
        visitor: &mut V,
        at: LabelNo,
        write: &Write<Expr>,
        outcome: Option<u8>,
    ) -> Result<(), V::Stop>
        ensures { V.visits visitor.old (own_of self.now (Do (Write_at 0 at write.now outcome) End)) result visitor.new }
    {
        self.written(visitor, at, write, outcome)?;
        self.found(visitor, at, write, outcome)
    }

    fn release<V: Visit>(
        &self,
        visitor: &mut V,
        value: &Expr,
        to: LabelNo,
        into: u8,
    ) -> Result<(), V::Stop>
        ensures { V.visits visitor.old (own_of self.now (Do (Release value.now to into) End)) result visitor.new }
    {
        let within = LentFlow::Within(to, self.runs(), More::Nothing);
        let under = LentFlow::Under(None, More::Names(value));
        let target = LentFlow::Into(self.target(into), declared(to), More::Nothing);
        let rest = self.rest(Some(into));
        self.lend(
            visitor,
            &[
                (Rule::Release, within),
                (Rule::Release, under),
                (Rule::Release, target),
                rest,
            ],
        )
    }

    fn emit<V: Visit>(&self, visitor: &mut V, value: &Expr, label: LabelNo) -> Result<(), V::Stop>
        ensures { V.visits visitor.old (own_of self.now (Do (Emit value.now label) End)) result visitor.new }
    {
        let within = LentFlow::Within(label, self.runs(), More::Names(value));
        let under = LentFlow::Under(declared(label), More::Nothing);
        let rest = self.rest(None);
        self.lend(visitor, &[(Rule::Emit, within), (Rule::Emit, under), rest])
    }

    /// What flows into the statements of a branch, and what variables keep at its ends.
    fn branch<'x, V: Visit>(
        &self,
        visitor: &mut V,
        guard: &'x Expr,
        one: &'x Block,
        other: &'x Block,
    ) -> Result<(), V::Stop>
        requires { self.now.number + statements one.now + statements other.now + 1 < 2 ^ 63 }
        ensures { V.visits visitor.old (own_of self.now (If guard.now one.now other.now End)) result visitor.new }
    {
        let first = self.number + 1;
        let second = first + one.statements();
        let one_end = last_number(self.before, first, one);
        let other_end = last_number(self.before, second, other);
        let first = Numbered { first, block: one };
        let second = Numbered {
            first: second,
            block: other,
        };
        let inner = Targets::Either(first, second);
        let into = LentFlow::Into(inner, self.runs(), More::Names(guard));
        self.lend(
            visitor,
            &[
                (Rule::Branch, into),
                kept(Rule::Branch, one_end),
                kept(Rule::Branch, other_end),
            ],
        )
    }

    /// What flows into the statements of a loop, and what variables keep before it and at the end of each turn.
    fn turns<V: Visit>(&self, visitor: &mut V, label: LabelNo, body: &Block) -> Result<(), V::Stop>
        requires { self.now.number + statements body.now + 1 < 2 ^ 63 }
        ensures { V.visits visitor.old (own_of self.now (For [] 0 label body.now End)) result visitor.new }
    {
        let first = self.number + 1;
        let under = LentFlow::Under(declared(label), More::Nothing);
        let inside = Numbered { first, block: body };
        let into = LentFlow::Into(Targets::Inside(inside), self.runs(), More::Label(label));
        let end = last_number(self.number, first, body);
        self.lend(
            visitor,
            &[
                (Rule::RowLoop, under),
                (Rule::RowLoop, into),
                kept(Rule::RowLoop, self.before),
                kept(Rule::RowLoop, end),
            ],
        )
    }

    /// Those of what the statement is.
    fn own<V: Visit>(&self, visitor: &mut V, stmt: &Stmt) -> Result<(), V::Stop>
        requires { self.now.number + statements (block_of (stmt.now ∷ [])) < 2 ^ 63 }
        ensures { V.visits visitor.old (own_of self.now (block_of (stmt.now ∷ []))) result visitor.new }
    {
        match stmt {
            Stmt::Assign { variable, value } => self.assign(visitor, *variable, value),
            Stmt::If { guard, one, other } => self.branch(visitor, guard, one, other),
            Stmt::For { label, body, .. } => self.turns(visitor, *label, body),
            Stmt::Write {
                at,
                write,
                outcome,
                ..
            } => self.write(visitor, *at, write, *outcome),
            Stmt::Release { value, to, into } => self.release(visitor, value, *to, *into),
            Stmt::Emit { value, label } => self.emit(visitor, value, *label),
        }
    }

    /// All of them.
    pub(crate) fn lines<V: Visit>(&self, visitor: &mut V, stmt: &Stmt) -> Result<(), V::Stop>
        requires { self.now.number + statements (block_of (stmt.now ∷ [])) < 2 ^ 63 }
        ensures { V.visits visitor.old (here_lines self.now (block_of (stmt.now ∷ []))) result visitor.new }
    {
        self.entry(visitor)?;
        self.own(visitor, stmt)
    }
}
