//! Values of expressions, copied.
ghost use Rattle.std.specs.Prelude.{◌≡◌, map, IfOk};
ghost use Rattle.mls_translang.specs.Expressions.{value_in};
ghost use Rattle.mls_certcheck.specs.Meaning.{values_set, write_in};
ghost use Rattle.mls_trusted.specs.Environment.{env_of};

use crate::environment::Environment;
use mls_lattice::Items;
use mls_scheme::{Value, Write};
use mls_translang::Expr;
use std::alloc::{AllocError, Global};

/// The value of an expression.
pub(crate) fn value_of(env: &Environment<'_>, expr: &Expr) -> Result<Option<Value>, AllocError>
    ensures { IfOk result (λ v. v ≡ value_in (env_of env.now) expr.now) }
{
    env.eval(expr).copied()
}

/// The values of expressions.
fn values_of(
    alloc: Global,
    env: &Environment<'_>,
    exprs: &[Expr],
) -> Result<Items<Option<Value>>, AllocError>
    ensures { IfOk result (λ v. v ≡ map (value_in (env_of env.now)) exprs.now) }
{
    let mut values = Vec::new(alloc);
    for expr in exprs {
        values.push(value_of(env, expr)?)?;
    }
    Ok(Items::from(values))
}

/// The values that attributes are to get.
fn sets_of(
    alloc: Global,
    env: &Environment<'_>,
    sets: &[(usize, Expr)],
) -> Result<Items<(usize, Option<Value>)>, AllocError>
    ensures { IfOk result (λ v. v ≡ values_set (env_of env.now) sets.now) }
{
    let mut values = Vec::new(alloc);
    for (attribute, expr) in sets {
        values.push((*attribute, value_of(env, expr)?))?;
    }
    Ok(Items::from(values))
}

/// The write whose operands have these values.
pub(crate) fn write_of(
    alloc: Global,
    env: &Environment<'_>,
    write: &Write<Expr>,
) -> Result<Write<Option<Value>>, AllocError>
    ensures { IfOk result (λ w. w ≡ write_in (env_of env.now) write.now) }
{
    let key = values_of(alloc, env, write.key())?;
    match write {
        Write::Insert { values, .. } => {
            let values = values_of(alloc, env, values)?;
            Ok(Write::Insert { key, values })
        }
        Write::Update {
            key_class,
            from,
            sets,
            ..
        } => Ok(Write::Update {
            key,
            key_class: *key_class,
            from: *from,
            sets: sets_of(alloc, env, sets)?,
        }),
        Write::Delete { key_class, .. } => Ok(Write::Delete {
            key,
            key_class: *key_class,
        }),
    }
}
