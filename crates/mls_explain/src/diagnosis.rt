//! What opening a store comes to.
ghost use Rattle.std.specs.Prelude.{◌≢◌, length, IfOk, IfSome};
ghost use Rattle.mls_scheme.specs.Scheme.{AreUnder};
ghost use Rattle.mls_tokens.specs.Screen.{IsHarmless};
ghost use Rattle.mls_explain.specs.Diagnosis.{IsDiagnosis};

use crate::copies::{connection, verdict};
use crate::rows::tell_bad;
use crate::teller::Told;
use mls_advice::{difference_to, relations_to};
use mls_fragments::{Design, OpenFault, let_go, texts_of};
use mls_lattice::Policy;
use mls_scheme::SchemesFile;
use mls_tables::read_description;
use mls_tokens::escape;
use sqlite::{Alter, Connection};
use std::alloc::{AllocError, Global};

const DAMAGED: &str =
    "  The file is no database, or a damaged one.\n  Name another, or take the last copy of the store that was sound.\n";

const OF_OTHERS: &str =
    "  The store is of another policy or of other schemes.\n  Name its own, or files of version 2 that only add labels, relations or attributes, behind those of the store.\n  Any other change needs a new store: `dump` what this one has, and load that where no file is (docs/running.md, A store moved).\n";

const CHANGED: &str =
    "  Something other than mldb has changed the store.\n  Take the last copy of it that was sound.\n";

/// Why a store is not opened, if it is not, and lines that say more of that.
#[derive(Drop)]
pub struct Diagnosis {
    pub fault: Option<OpenFault>,
    pub text: Vec<u8>,
}

/// Appends how the texts of a connection's store differ from those of the files: the labels, or else the relations,
/// or else the schemes.
fn tell_others<S: Alter>(
    alloc: Global,
    text: &mut String,
    design: &Design<'_>,
    conn: &mut Connection<S>,
) -> Told {
    let (labels, schemes) = texts_of(alloc, design)?;
    let Ok(found) = read_description(conn, alloc) else {
        return Err(AllocError);
    };
    if found.lattice.as_str() != labels.as_str() {
        return difference_to(text, "labels", found.lattice.as_str(), &labels);
    }
    relations_to(text, found.schemes.as_str(), &schemes)?;
    if text.is_empty() {
        difference_to(text, "schemes", found.schemes.as_str(), &schemes)?;
    }
    Ok(())
}

/// Appends what is found over a connection to a store that is of others, or has bad rows. One generic function takes
/// the connection, since each call and each drop over files in memory costs its caller as much proof as all of this.
fn tell_over<S: Alter>(
    alloc: Global,
    text: &mut String,
    design: &Design<'_>,
    fault: OpenFault,
    conn: &mut Connection<S>,
) -> Told {
    match fault {
        OpenFault::OtherPolicy => tell_others(alloc, text, design, conn),
        _ => tell_bad(alloc, text, design, conn),
    }
}

/// Appends what is found in a store that is of others, or has bad rows. It was opened before, so that only memory can
/// lack.
fn tell_found(
    alloc: Global,
    text: &mut String,
    log: &[u8],
    db: &[u8],
    design: &Design<'_>,
    fault: OpenFault,
) -> Told {
    match fault {
        OpenFault::OtherPolicy | OpenFault::BadRows => {}
        _ => return Ok(()),
    }
    match connection(alloc, log, db) {
        Ok(mut conn) => {
            let told = tell_over(alloc, text, design, fault, &mut conn);
            let _files = let_go(conn);
            told
        }
        Err(_) => Err(AllocError),
    }
}

/// What to do where a store is not opened; nothing for want of memory.
fn advice_of(fault: OpenFault) -> Option<&'static str>
    ensures { IfSome result (λ _. fault ≢ OpenFault.Memory) }
{
    match fault {
        OpenFault::Store => Some(DAMAGED),
        OpenFault::OtherPolicy => Some(OF_OTHERS),
        OpenFault::BadRows => Some(CHANGED),
        OpenFault::Memory => None,
    }
}

/// What is told of a store that is not opened, and what to do.
fn lines_of(
    alloc: Global,
    log: &[u8],
    db: &[u8],
    design: &Design<'_>,
    fault: OpenFault,
) -> Result<Vec<u8>, AllocError>
    ensures fault { IfOk result (λ _. fault ≢ OpenFault.Memory) }
    ensures lines { IfOk result (λ text. IsHarmless text.items) }
{
    let Some(advice) = advice_of(fault) else {
        return Err(AllocError);
    };
    let mut text = String::new(alloc);
    tell_found(alloc, &mut text, log, db, design, fault)?;
    text.push_str(advice)?;
    Ok(escape(alloc, text.as_bytes())?)
}

/// What opening a store comes to whose log and database file have these bytes, under a policy and schemes. All is done
/// over copies of
/// them, one after another.
pub fn diagnosis_of(
    alloc: Global,
    log: &[u8],
    db: &[u8],
    policy: &Policy,
    file: &SchemesFile,
) -> Result<Diagnosis, AllocError>
    requires under { AreUnder (length policy.now.labels) file.now.schemes }
    ensures fault { IfOk result (λ d. IsDiagnosis policy.now file.now log.now db.now d.fault) }
    // What a screen is told has no control characters but line feeds, and none that is invisible or turns a line round.
    ensures text { IfOk result (λ d. IsHarmless d.text.items) }
{
    let design = Design { policy, file };
    match verdict(alloc, log, db, &design) {
        Ok(()) => Ok(Diagnosis {
            fault: None,
            text: Vec::new(alloc),
        }),
        Err(fault) => Ok(Diagnosis {
            fault: Some(fault),
            text: lines_of(alloc, log, db, &design, fault)?,
        }),
    }
}
