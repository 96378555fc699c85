//! The fields of the policy and the schemes of a job that nobody reads, and what is drawn and explained beside them.
ghost use Rattle.std.specs.Prelude.{◌≡◌, [], string_bytes, IfOk, IfErr};
ghost use Rattle.std.specs.List.{AllByRecursion};
ghost use Rattle.mls_translang.specs.Fits.{IsReadUnder};
ghost use Rattle.mls_host.specs.Words.{named};
ghost use Rattle.mls_command.specs.Explaining.{IsExplained, IsUnexplained};
ghost use Rattle.mls_command.specs.Showing.{IsPictured};

use crate::explaining::explained;
use crate::listing::Listing;
use crate::showing::pictured;
use mls_advice::{ignored_in_policy, ignored_in_schemes};
use mls_host::{Documents, Host, Reason, Setting};
use mls_runs::{Advice, Explains, MemoryHost};
use mls_translang::Tx;
use std::alloc::{AllocError, Global};

/// A host whose files are looked through for fields that nobody reads, and whose shells explain what they refuse.
/// Contracts see what it says of such fields, as they see what it gives: no contract of this program tells which these
/// are.
pub trait Advises: Host {
    /// What explains that.
    type Advice: Explains;

    /// The fields of the policy and the schemes of a job that nobody reads, a line for each.
    fn ignored(&self, alloc: Global, documents: Option<Documents>) -> Result<String, AllocError>
        ensures { IfOk result (λ text. (Self.hosting self.now).ignores documents.entry (string_bytes text)) };
}

impl<'a> Advises for MemoryHost<'a> {
    type Advice = Advice;

    fn ignored(&self, alloc: Global, documents: Option<Documents>) -> Result<String, AllocError> {
        ignored_of(alloc, self, documents)
    }
}

/// The fields of the file of a policy that nobody reads, a line for each; none, where the host no longer gives it.
fn ignored_of_policy<H: Host>(alloc: Global, host: &H, path: &str) -> Result<String, AllocError> {
    match host.file(alloc, path) {
        Ok(bytes) => ignored_in_policy(alloc, path, &bytes),
        Err(_) => Ok(String::new(alloc)),
    }
}

/// The same of schemes.
fn ignored_of_schemes<H: Host>(alloc: Global, host: &H, path: &str) -> Result<String, AllocError> {
    match host.file(alloc, path) {
        Ok(bytes) => ignored_in_schemes(alloc, path, &bytes),
        Err(_) => Ok(String::new(alloc)),
    }
}

/// The fields of the two files that nobody reads, a line for each; of a file that the host no longer gives, none.
pub fn ignored_of<H: Host>(
    alloc: Global,
    host: &H,
    documents: Option<Documents>,
) -> Result<String, AllocError> {
    let Some(files) = documents else {
        return Ok(String::new(alloc));
    };
    let mut text = ignored_of_policy(alloc, host, files.policy)?;
    text.push_str(&ignored_of_schemes(alloc, host, files.schemes)?)?;
    Ok(text)
}

/// The policy and the schemes, drawn, and the fields of their files that nobody reads.
pub(crate) fn picture_of<H: Advises>(
    alloc: Global,
    host: &H,
    setting: &Setting,
    documents: Option<Documents>,
) -> Result<Listing, AllocError>
    ensures text { IfOk result (λ l. IsPictured ((H.hosting host.now).ignores documents.entry) l.text.items l.ending) }
    ensures told { IfOk result (λ l. string_bytes l.told ≡ []) }
{
    let ignored = host.ignored(alloc, documents)?;
    pictured(alloc, setting, &ignored)
}

/// Transactions, or the one of a name, explained, and the fields of the files that nobody reads. `Name` where none has
/// the name.
pub(crate) fn explanation_of<H: Advises>(
    alloc: Global,
    host: &H,
    setting: &Setting,
    txs: &[Tx],
    name: Option<&str>,
    documents: Option<Documents>,
) -> Result<Listing, Reason>
    requires { AllByRecursion (IsReadUnder setting.now.policy setting.now.file.schemes) txs.now }
    ensures listing { IfOk result (λ l. IsExplained setting.now.policy setting.now.file.schemes txs.now
        (named name.entry)
        ((H.hosting host.now).ignores documents.entry) l.text.items (string_bytes l.told) l.ending) }
    ensures refused { IfErr result (IsUnexplained txs.now (named name.entry)) }
{
    let ignored = host.ignored(alloc, documents)?;
    explained(
        alloc,
        &setting.policy,
        &setting.file.schemes,
        txs,
        name,
        &ignored,
    )
}
