//! Files of schemes.
ghost use Rattle.std.specs.Prelude.{◌≡◌, ◌≢◌, ◌↔◌, ◌++◌, List, length, string_bytes, Err, IfOk, IfErr, IsUtf8, OnOk};
ghost use Rattle.toml.specs.Data.{Members};
ghost use Rattle.mls_lattice.specs.ReadsPolicy.{IsDocument};
ghost use Rattle.mls_lattice.specs.Policy.{labels_of};
ghost use Rattle.mls_lattice.specs.declared.version.Version.{Version as FileVersion};
ghost use Rattle.mls_scheme.specs.Scheme.{Scheme as Relation, AreUnder, HaveIntervals};
ghost use Rattle.mls_scheme.specs.Reading.{schemes_at};
ghost use Rattle.mls_scheme.specs.Document.{ReadsSchemes};
ghost use Rattle.mls_scheme.specs.Canon.{first_line, canon_of};

use crate::canon::relations_to;
use crate::fault::SchemeFault;
use crate::reading::schemes_of;
use crate::scheme::Schemes;
use mls_lattice::{Policy, Refused, Trail, Version};
use std::alloc::{AllocError, Global};

/// What a file of schemes says: its version, for which only an opening asks, and its relations. That no
/// interval is empty takes the policy's labels, so `read` promises it.
#[derive(Drop)]
pub struct SchemesFile {
    pub version: Version,
    pub schemes: Schemes,
}

impl SchemesFile {
    /// Reads the schemes of a TOML document, whose labels are those of a policy.
    ///
    /// `NotToml` where the bytes are no document or not UTF-8, else the first fault in the order of the fields. `Memory` may
    /// stand in place of any answer. Beside the fault stands where in the document the reader stopped.
    pub fn read_at(
        alloc: Global,
        policy: &Policy,
        bytes: &[u8],
    ) -> Result<SchemesFile, Refused<SchemeFault>>
        // What is read is what the bytes say.
        ensures found { IfOk result (λ f. ReadsSchemes policy.now bytes.now f.version f.schemes) }
        ensures under { IfOk result (λ f. AreUnder (length policy.now.labels) f.schemes) }
        ensures intervals { IfOk result (λ f. HaveIntervals (labels_of policy.now) f.schemes) }
        // Unless memory runs out, nothing that says schemes is refused, and the fault is the first of the document.
        ensures refused { IfErr result (λ e. e.fault ≢ SchemeFault.Memory → (v : FileVersion) (s : List Relation)
            → ReadsSchemes policy.now bytes.now v s → ⊥) }
        ensures first { IfErr result (λ e. e.fault ≢ SchemeFault.Memory → (document : Members)
            → IsDocument bytes.now document → schemes_at policy.now document ≡ Err e.fault) }
        ensures not_toml { IfErr result (λ e. e.fault ≢ SchemeFault.Memory
            → (e.fault ≡ SchemeFault.NotToml) ↔ ((document : Members) → IsDocument bytes.now document → ⊥)) }
    {
        let mut at = Trail::new();
        match toml::table_from_slice(alloc, bytes) {
            Ok(document) => match schemes_of(alloc, policy, &document, &mut at) {
                Ok(file) => Ok(file),
                Err(failed) => Err(Refused {
                    fault: SchemeFault::from(failed),
                    at,
                }),
            },
            Err(e) if e.is_memory() => Err(Refused {
                fault: SchemeFault::Memory,
                at,
            }),
            Err(_) => Err(Refused {
                fault: SchemeFault::NotToml,
                at,
            }),
        }
    }

    /// The same, with the fault alone.
    pub fn read(alloc: Global, policy: &Policy, bytes: &[u8]) -> Result<SchemesFile, SchemeFault>
        ensures found { IfOk result (λ f. ReadsSchemes policy.now bytes.now f.version f.schemes) }
        ensures under { IfOk result (λ f. AreUnder (length policy.now.labels) f.schemes) }
        ensures intervals { IfOk result (λ f. HaveIntervals (labels_of policy.now) f.schemes) }
        ensures refused { IfErr result (λ e. e ≢ SchemeFault.Memory → (v : FileVersion) (s : List Relation)
            → ReadsSchemes policy.now bytes.now v s → ⊥) }
        ensures first { IfErr result (λ e. e ≢ SchemeFault.Memory → (document : Members)
            → IsDocument bytes.now document → schemes_at policy.now document ≡ Err e) }
        ensures not_toml { IfErr result (λ e. e ≢ SchemeFault.Memory
            → (e ≡ SchemeFault.NotToml) ↔ ((document : Members) → IsDocument bytes.now document → ⊥)) }
    {
        match SchemesFile::read_at(alloc, policy, bytes) {
            Ok(file) => Ok(file),
            Err(refused) => Err(refused.fault),
        }
    }

    /// The canonical text, whose labels are those of a policy. It is no TOML document.
    pub fn canon(&self, alloc: Global, policy: &Policy) -> Result<Vec<u8>, AllocError>
        requires { AreUnder (length policy.now.labels) self.now.schemes }
        ensures text { IfOk result (λ text. text.items ≡ canon_of policy.now self.now.version self.now.schemes) }
        ensures unicode { IfOk result (λ text. IsUtf8 text.items) }
    {
        let mut text = String::new(alloc);
        version_to(&mut text, self.version)?;
        relations_to(&mut text, policy, self.schemes.relations())?;
        Ok(text.into_bytes())
    }
}

/// Writes the first line, which has the version.
fn version_to(text: &mut String, version: Version) -> Result<(), AllocError>
    ensures { OnOk result (string_bytes text.new ≡ string_bytes text.old ++ first_line version) }
{
    let word = version.word();
    writeln!(text, "schemes {word}")
}
