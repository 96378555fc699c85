//! The checker: it walks over the statements once.
ghost use Rattle.std.specs.Prelude.{◌≡◌, ◌↔◌, Ok, IfOk, length, nat_eq};
ghost use Rattle.std.specs.List.{list_all};
ghost use Rattle.mls_translang.specs.Tree.{statements};
ghost use Rattle.mls_certcheck.specs.Secure.{Secure};
ghost use Rattle.mls_certcheck.specs.Sharp.{Sharp};
ghost use Rattle.mls_certcheck.specs.Lines.{body_lines, tx_lines, within_ends};
ghost use Rattle.mls_certcheck.specs.Rules.{Rules, claim, var_rows};
ghost use Rattle.mls_certcheck.specs.Checks.{First, count_verdict, counts, holds, verdict};
ghost use Rattle.mls_certcheck.specs.Walk.{claim_of, Says};

use crate::Certificate;
use crate::checker::Checker;
use crate::refusal::{Refusal, Rule};
use crate::walking::walk;
use mls_lattice::{LabelNo, Policy, declared, flows};
use mls_translang::{Tx, statements};

impl Checker<'_> {
    fn rows_count(&self) -> bool
        ensures { result ≡ list_all (λ row. nat_eq (length row) (length self.now.tx.now.vars))
            (var_rows self.now.cert.now) }
    {
        let count = self.tx.vars().len();
        match self.cert {
            Certificate::One(cert) => cert.var_labels.len() == count,
            Certificate::Two(cert) => {
                let rows = cert.rows.as_slice();
                rows.iter().all(|row| row.len() == count)
            }
        }
    }

    fn stmts_count(&self) -> bool
        ensures { result ≡ counts (statements self.now.tx.now.body) self.now.cert.now }
    {
        let count = statements(self.tx);
        match self.cert {
            Certificate::One(cert) => cert.pc_labels.len() == count,
            Certificate::Two(cert) => cert.rows.len() == count && cert.pc_labels.len() == count,
        }
    }

    fn parameter_holds(&self, label: LabelNo) -> bool
        ensures { result ≡ list_all (holds (claim_of self.now)) (within_ends label) }
    {
        let label = declared(self.policy, label);
        flows(self.pc(0), label) && flows(label, self.hi())
    }

    fn parameters_hold(&self) -> bool
        ensures { result ≡ list_all (λ p. list_all (holds (claim_of self.now)) (within_ends p.1.label))
            self.now.tx.now.params }
    {
        let params = self.tx.params();
        for place in 0..params.len() {
            if !self.parameter_holds(params.get(place).label) {
                return false;
            }
        }
        true
    }

    /// As many labels as it takes.
    fn counted(&self) -> Result<(), Refusal>
        ensures { Says result (count_verdict (claim_of self.now)) }
    {
        Refusal::unless(self.rows_count(), 0, Rule::VarCount)?;
        Refusal::unless(self.stmts_count(), 0, Rule::StmtCount)
    }

    /// The rules of the transaction itself.
    #[tactic(auto, using(crate::proofs::CheckLemmas::parameters_told))]
    fn heads(&self) -> Result<(), Refusal>
        ensures { Says result (verdict (claim_of self.now) (tx_lines self.now.tx.now)) }
    {
        let under = flows(self.variables(0, self.tx.vars().len()), self.hi());
        Refusal::unless(under, 0, Rule::AboveCeiling)?;
        Refusal::unless(self.parameters_hold(), 0, Rule::Context)
    }

    /// The rules of all statements.
    fn body(&self) -> Result<(), Refusal>
        ensures { Says result (verdict (claim_of self.now) (body_lines self.now.tx.now)) }
    {
        let mut visitor = *self;
        walk(self.tx, &mut visitor)
    }

    #[tactic(auto, using(crate::proofs::CheckLemmas::verdict_more))]
    fn verdict(&self) -> Result<(), Refusal>
        ensures { Says result (First (claim_of self.now)) }
    {
        self.counted()?;
        self.heads()?;
        self.body()
    }
}

/// Whether a certificate of a transaction holds under a policy: else the first rule that is broken, in the
/// order of `First`. It takes no memory. Each statement is tested once, and counted a few times for each
/// statement around it. A number that is no label counts as the lowest, in the rules too; that labels are
/// distinct is known of the policy: so it has no condition.
pub fn check(policy: &Policy, tx: &Tx, cert: &Certificate) -> Result<(), Refusal>
    // Ok exactly where the rules hold.
    ensures rules { result ≡ Ok tt ↔ Rules (claim policy.now tx.now cert.now) }
    // Which rule it is else.
    ensures first { Says result (First (claim policy.now tx.now cert.now)) }
    // So the transaction tells no level more than it may see, but for what it releases to it.
    ensures secure { IfOk result (λ _. Secure policy.now tx.now) }
    // And by a release only of what the level may not read.
    ensures sharp { IfOk result (λ _. Sharp policy.now tx.now cert.now) }
{
    policy.use_invariant();
    let checker = Checker { policy, tx, cert };
    checker.verdict()
}
