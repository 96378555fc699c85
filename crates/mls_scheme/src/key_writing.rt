//! Keys and values as bytes.
ghost use Rattle.std.specs.Prelude.{◌≡◌, ◌++◌, OnOk, IfOk};
ghost use Rattle.std.specs.List.{AllByRecursion};
ghost use Rattle.mls_scheme.specs.Spelling.{value_spelling, key_spelling, IsValue, IsShort, IsKey};

use crate::value::Value;
use std::alloc::{AllocError, Global};

fn put_value(out: &mut Vec<u8>, value: &Value) -> Result<(), AllocError>
    requires { IsShort value.now }
    ensures writes { OnOk result (out.new.items ≡ out.old.items ++ value_spelling value.now) }
    ensures whole { OnOk result (IsValue value.now) }
{
    match value {
        Value::Int(number) => {
            out.push(1)?;
            out.extend_from_slice(&number.to_be_bytes())?;
        }
        Value::Text(text) => {
            let bytes = text.as_str().as_bytes();
            out.push(2)?;
            out.extend_from_slice(&(bytes.len() as u32).to_be_bytes())?;
            out.extend_from_slice(bytes)?;
        }
    }
    Ok(())
}

/// The bytes of a value.
pub fn value_bytes(alloc: Global, value: &Value) -> Result<Vec<u8>, AllocError>
    requires { IsShort value.now }
    ensures writes { IfOk result (λ v. v.items ≡ value_spelling value.now) }
    ensures whole { OnOk result (IsValue value.now) }
{
    let mut bytes = Vec::new(alloc);
    put_value(&mut bytes, value)?;
    Ok(bytes)
}

/// The bytes of a key: its number of values, and the values.
pub fn key_bytes(alloc: Global, key: &[Value]) -> Result<Vec<u8>, AllocError>
    requires count { IsKey key.now }
    requires short { AllByRecursion IsShort key.now }
    ensures writes { IfOk result (λ v. v.items ≡ key_spelling key.now) }
    ensures whole { OnOk result (AllByRecursion IsValue key.now) }
{
    let mut out = Vec::new(alloc);
    out.push(key.len() as u8)?;
    for value in key {
        put_value(&mut out, value)?;
    }
    Ok(out)
}
