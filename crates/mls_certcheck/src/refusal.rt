//! The rules of certificates, and which of them is broken where.
ghost use Rattle.std.specs.Prelude.{◌≡◌};
ghost use Rattle.mls_certcheck.specs.Checks.{unless};
ghost use Rattle.mls_certcheck.specs.Refusal.{text_of};

/// A rule of certificates.
#[derive(Clone, Copy, PartialEq, Eq, Debug)]
pub enum Rule {
    /// What flows into a variable.
    Assignment,
    /// What flows into the statements of a branch.
    Branch,
    /// What flows into the statements of a loop over rows.
    RowLoop,
    /// What flows into a relation, and out of it by the outcome.
    Write,
    /// The classes that an update or a delete names.
    Order,
    /// What is released.
    Release,
    /// What flows out.
    Emit,
    /// What a parameter lies between, and what a statement stands in.
    Context,
    /// What a statement leaves as it was.
    Rest,
    /// As many labels as variables, in each row.
    VarCount,
    /// As many labels as statements, and as many rows.
    StmtCount,
    /// No label above the ceiling.
    AboveCeiling,
}

/// The short names of the rules, in their order.
static TEXTS: [&str; 12] = [
    "F1", "F2", "F3", "F4", "F5", "F6", "F7", "F8", "F9", "42", "43", "44",
];

impl Rule {
    /// The short name of the rule.
    pub fn text(self) -> &'static str
        ensures { result.now ≡ text_of self }
    {
        TEXTS[self as usize]
    }
}

/// The first rule that is broken, and the number of the statement: 0 is the transaction itself.
#[derive(Clone, Copy, PartialEq, Eq, Debug)]
pub struct Refusal {
    pub stmt: usize,
    pub rule: Rule,
}

impl Refusal {
    /// Ok where a rule holds at a statement.
    pub(crate) fn unless(holds: bool, stmt: usize, rule: Rule) -> Result<(), Refusal>
        ensures { result ≡ unless holds stmt rule }
    {
        if holds {
            Ok(())
        } else {
            Err(Refusal { stmt, rule })
        }
    }
}
