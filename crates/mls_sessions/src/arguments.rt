//! The arguments of calls, as transactions take them.
ghost use Rattle.std.specs.Prelude.{◌≡◌, ◌&&◌, ◌||◌, not, nat_eq, length, IfOk, None, if◌then◌else◌};
ghost use Rattle.mls_scheme.specs.Value.{fits_kind};
ghost use Rattle.mls_machine.specs.Denying.{are_wrong_at, fitted};

use mls_scheme::{Kind, Value, fits_kind};
use mls_translang::{Parameter, Tx};
use mls_updates::copy_value;
use std::alloc::{AllocError, Global};

/// Whether an argument has the wrong kind, at a parameter of the lowest label.
fn is_misfit(tx: &Tx, parameter: &Parameter, arg: &Option<Value>) -> bool
    ensures { result ≡ (nat_eq parameter.now.label tx.now.lo && not (fits_kind arg.now parameter.now.kind)) }
{
    parameter.label == tx.lo() && !fits_kind(arg, parameter.kind)
}

/// Whether an argument at a parameter of the lowest label has the wrong kind.
fn has_misfit(tx: &Tx, args: &[Option<Value>]) -> bool
    requires { length args.now ≡ length tx.now.params }
    ensures { result ≡ are_wrong_at tx.now.lo tx.now.params args.now }
{
    for (place, arg) in args.iter().enumerate() {
        if is_misfit(tx, tx.params().get(place), arg) {
            return true;
        }
    }
    false
}

/// Whether a transaction is not called with these arguments.
pub(crate) fn are_wrong(tx: &Tx, args: &[Option<Value>]) -> bool
    ensures { result ≡ (not (nat_eq (length args.now) (length tx.now.params)) || are_wrong_at tx.now.lo tx.now.params
        args.now) }
{
    args.len() != tx.params().len() || has_misfit(tx, args)
}

/// An argument for a parameter of a kind: null where it has another one.
fn fitted_to(kind: Kind, arg: &Option<Value>) -> Result<Option<Value>, AllocError>
    ensures { IfOk result (λ v. v ≡ (if fits_kind arg.now kind then arg.now else None)) }
{
    if fits_kind(arg, kind) {
        copy_value(arg)
    } else {
        Ok(None)
    }
}

/// The arguments that a transaction takes, each of the kind of its parameter or null.
pub(crate) fn fitted(
    alloc: Global,
    tx: &Tx,
    args: &[Option<Value>],
) -> Result<Vec<Option<Value>>, AllocError>
    requires { length args.now ≡ length tx.now.params }
    ensures { IfOk result (λ v. v.items ≡ fitted tx.now.params args.now) }
{
    let mut values = Vec::new(alloc);
    for (place, arg) in args.iter().enumerate() {
        let value = fitted_to(tx.params().get(place).kind, arg)?;
        values.push(value)?;
    }
    Ok(values)
}
