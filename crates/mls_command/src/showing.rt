//! The canonical texts of a policy and its schemes, and what is told of them.
ghost use Rattle.std.specs.Prelude.{◌≡◌, ◌++◌, [], string_bytes, IfOk};
ghost use Rattle.mls_lattice.specs.Canon as lattice;
ghost use Rattle.mls_scheme.specs.Canon as scheme;
ghost use Rattle.mls_command.specs.Showing.{IsPictured};
ghost use Rattle.mls_host.specs.declared.ending.Ending.TheVariants.{Well};

use crate::listing::Listing;
use mls_advice::picture;
use mls_host::{Ending, Setting, ending_if};
use std::alloc::{AllocError, Global};

/// The canonical texts of a policy and its schemes.
fn texts_of(alloc: Global, setting: &Setting) -> Result<Vec<u8>, AllocError>
    ensures { IfOk result (λ text. text.items ≡ lattice.canon_of setting.now.policy
        ++ scheme.canon_of setting.now.policy setting.now.file.version setting.now.file.schemes) }
{
    let mut text = setting.policy.canon(alloc)?;
    text.append(&mut setting.file.canon(alloc, &setting.policy)?)?;
    Ok(text)
}

/// The canonical texts, as they are printed.
pub(crate) fn texts(alloc: Global, setting: &Setting) -> Result<Listing, AllocError>
    ensures text { IfOk result (λ l. l.text.items ≡ lattice.canon_of setting.now.policy
        ++ scheme.canon_of setting.now.policy setting.now.file.version setting.now.file.schemes) }
    ensures told { IfOk result (λ l. string_bytes l.told ≡ []) }
    ensures end { IfOk result (λ l. l.ending ≡ Well) }
{
    let text = texts_of(alloc, setting)?;
    Ok(Listing {
        text,
        told: String::new(alloc),
        ending: Ending::Well,
    })
}

/// The labels, the users, their rights and the relations, as they are printed, and behind them the fields of their
/// files that nobody
/// reads, which end the command with 1.
pub(crate) fn pictured(
    alloc: Global,
    setting: &Setting,
    ignored: &str,
) -> Result<Listing, AllocError>
    ensures text { IfOk result (λ l. IsPictured (λ text. text ≡ ignored.now) l.text.items l.ending) }
    ensures told { IfOk result (λ l. string_bytes l.told ≡ []) }
{
    let mut text = picture(alloc, &setting.policy, &setting.file.schemes)?;
    text.push_str(ignored)?;
    Ok(Listing {
        text: text.into_bytes(),
        told: String::new(alloc),
        ending: ending_if(!ignored.is_empty()),
    })
}
