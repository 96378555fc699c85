//! Calls of certified transactions.
ghost use Rattle.std.specs.Prelude.{false};
ghost use Rattle.mls_lattice.specs.Policy.{labels_of};
ghost use Rattle.mls_filterview.specs.Calls.{IsStep, IsOutside, NoWriteDown};
ghost use Rattle.mls_filterview.specs.Content.{committed};
ghost use Rattle.mls_certcheck.specs.declared.cert.Certificate.{Certificate};
ghost use Rattle.mls_certcheck.specs.Rules.{Rules, claim};
ghost use Rattle.mls_queries.specs.Views.{AreViews};
ghost use Rattle.mls_trusted.specs.Runs.{MayCall, MayCallInside, IsCalled};

use crate::block::run_block;
use crate::call::Call;
use crate::frame::Frame;
use mls_certcheck::{Certified, Run};
use mls_filterview::{Base, BaseFault, settle};
use mls_lattice::Policy;
use mls_queries::Views;
use mls_scheme::{Schemes, Value};
use std::alloc::Global;

/// Runs a transaction inside a change, with an argument for each parameter.
///
/// Under a certificate that holds it reads below the upper end of the transaction, and changes at labels that dominate
/// its lower end.
/// A write that is refused changes nothing, and the run goes on. A view that is kept is not resolved again. After
/// `Store` or
/// `Memory` the change has ended, and no view is kept.
pub fn evaluate_in<B: Base>(
    alloc: Global,
    base: &mut B,
    policy: &Policy,
    schemes: &Schemes,
    views: &mut Views,
    certified: &Certified,
    args: &[Option<Value>],
) -> Result<Run, BaseFault>
    requires { MayCallInside B.seen policy.now schemes.now certified.now.tx args.now views.old base.old }
    ensures step { IsStep B.seen base.old base.new result }
    ensures access { (cert : Certificate) → Rules (claim policy.now certified.now.tx cert)
        → NoWriteDown B.seen (labels_of policy.now) certified.now.tx.hi certified.now.tx.lo base.old base.new }
    ensures called { IsCalled B.seen policy.now schemes.now certified.now.tx args.now (λ s. s) base.old
        base.new result }
    ensures views { AreViews policy.now B.seen base.new views.new }
{
    let call = Call {
        alloc,
        policy,
        schemes,
        tx: certified.tx(),
        args,
    };
    let mut frame = settle(base, Frame::new(&call, views.take_all()))?;
    run_block(&call, base, &mut frame, call.tx.body())?;
    let (run, kept) = frame.into_parts();
    *views = kept;
    Ok(run)
}

/// Runs a transaction as a change of its own, with an argument for each parameter.
///
/// `Begun` where a change is begun. After `Store` or `Memory` the content is that before the call.
pub fn evaluate<B: Base>(
    alloc: Global,
    base: &mut B,
    policy: &Policy,
    schemes: &Schemes,
    certified: &Certified,
    args: &[Option<Value>],
) -> Result<Run, BaseFault>
    requires { MayCall B.seen policy.now schemes.now certified.now.tx args.now base.old }
    ensures outside { IsOutside B.seen false base.old base.new result }
    ensures access { (cert : Certificate) → Rules (claim policy.now certified.now.tx cert)
        → NoWriteDown B.seen (labels_of policy.now) certified.now.tx.hi certified.now.tx.lo base.old base.new }
    ensures called { IsCalled B.seen policy.now schemes.now certified.now.tx args.now committed base.old
        base.new result }
{
    let mut views = Views::new();
    base.begin()?;
    let run = evaluate_in(alloc, base, policy, schemes, &mut views, certified, args)?;
    base.commit()?;
    Ok(run)
}
