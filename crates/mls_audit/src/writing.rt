//! An entry is a tag, a label, a time if there is one, two names, and what it tells: a name, a code or a value.
ghost use Rattle.std.specs.Prelude.{◌≡◌, ◌++◌, OnOk, IfOk, IsUtf8, IfSome};
ghost use Rattle.mls_scheme.specs.Spelling.{IsValue, IsShort as IsShortValue};
ghost use Rattle.mls_audit.specs.Spelling.{name_spelling, time_spelling, nullable_spelling, deed_spelling};
ghost use Rattle.mls_audit.specs.Spelling.{deed_number, tag_of, head_spelling, entry_spelling};
ghost use Rattle.mls_audit.specs.Spelling.{IsShortName, IsShortDeed, IsHead, IsDeed, IsEntry, IsShort};

use crate::entry::{Deed, Entry};
use mls_lattice::Str;
use mls_scheme::{Value, value_bytes};
use std::alloc::{AllocError, Global};

fn put_name(out: &mut Vec<u8>, name: &Str) -> Result<(), AllocError>
    requires { IsShortName name.now }
    ensures writes { OnOk result (out.new.items ≡ out.old.items ++ name_spelling name.now) }
    ensures whole { OnOk result (IsUtf8 name.now) }
{
    let bytes = name.as_str().as_bytes();
    out.push(bytes.len() as u8)?;
    out.extend_from_slice(bytes)?;
    Ok(())
}

fn put_time(out: &mut Vec<u8>, time: &Option<Str>) -> Result<(), AllocError>
    ensures writes { OnOk result (out.new.items ≡ out.old.items ++ time_spelling time.now) }
    ensures whole { OnOk result (IfSome time.now IsUtf8) }
{
    if let Some(time) = time {
        out.extend_from_slice(time.as_str().as_bytes())?;
    }
    Ok(())
}

fn put_head(out: &mut Vec<u8>, entry: &Entry) -> Result<(), AllocError>
    requires { IsShort entry.now }
    ensures writes { OnOk result (out.new.items ≡ out.old.items
        ++ head_spelling entry.now.label entry.now.time entry.now.user entry.now.session) }
    ensures whole { OnOk result (IsHead entry.now.label entry.now.time entry.now.user entry.now.session) }
{
    out.push(entry.label.byte())?;
    put_time(out, &entry.time)?;
    put_name(out, &entry.user)?;
    put_name(out, &entry.session)?;
    Ok(())
}

fn put_nullable(alloc: Global, out: &mut Vec<u8>, value: &Option<Value>) -> Result<(), AllocError>
    requires { IfSome value.now IsShortValue }
    ensures writes { OnOk result (out.new.items ≡ out.old.items ++ nullable_spelling value.now) }
    ensures whole { OnOk result (IfSome value.now IsValue) }
{
    match value {
        None => out.push(0)?,
        Some(value) => out.append(&mut value_bytes(alloc, value)?)?,
    }
    Ok(())
}

fn put_deed(alloc: Global, out: &mut Vec<u8>, deed: &Deed) -> Result<(), AllocError>
    requires { IsShortDeed deed.now }
    ensures writes { OnOk result (out.new.items ≡ out.old.items ++ deed_spelling deed.now) }
    ensures whole { OnOk result (IsDeed deed.now) }
{
    match deed {
        Deed::Called(transaction) => put_name(out, transaction)?,
        Deed::Denied(code) => out.push(*code)?,
        Deed::Released(value) => put_nullable(alloc, out, value)?,
    }
    Ok(())
}

/// The tag of an entry: 1 to 3 without a time, 4 to 6 with one.
fn tag_of(entry: &Entry) -> u8
    ensures { result ≡ tag_of entry.now.time (deed_number entry.now.deed) }
{
    let number = match &entry.deed {
        Deed::Called(_) => 1,
        Deed::Denied(_) => 2,
        Deed::Released(_) => 3,
    };
    match &entry.time {
        Some(_) => 3 + number,
        None => number,
    }
}

/// The bytes of an entry.
pub fn entry_bytes(alloc: Global, entry: &Entry) -> Result<Vec<u8>, AllocError>
    requires { IsShort entry.now }
    ensures writes { IfOk result (λ v. v.items ≡ entry_spelling entry.now) }
    ensures whole { OnOk result (IsEntry entry.now) }
{
    let mut out = Vec::new(alloc);
    out.push(tag_of(entry))?;
    put_head(&mut out, entry)?;
    put_deed(alloc, &mut out, &entry.deed)?;
    Ok(out)
}
