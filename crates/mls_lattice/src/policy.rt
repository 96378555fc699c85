//! Policies, and what is asked of them.
ghost use Rattle.std.specs.Prelude.{◌≡◌, true, ◌≢◌, ◌↔◌, ◌<◌, ◌≤◌, ℕ, IsTrue, length, map, position, slice_get, Some};
ghost use Rattle.std.specs.Prelude.{None, IfSome, IfOk, IfErr, option_map, IsUtf8, bytes_eq};
ghost use Rattle.mls_lattice.specs.Lattice.{pair_of};
ghost use Rattle.mls_lattice.specs.Labels.{label_of, below, AreDistinct};
ghost use Rattle.mls_lattice.specs.Name.{is_name};
ghost use Rattle.mls_lattice.specs.Policy.{Policy, labels_of, granted_modes, IsPolicy};
ghost use Rattle.mls_lattice.specs.Canon.{label_name, user_name, canon_of, lattice_of};
ghost use Rattle.mls_lattice.specs.Extending.{Extends};
ghost use Rattle.mls_lattice.specs.Reading.{Gives};
ghost use Rattle.mls_lattice.specs.PolicyReading.{levels_at, categories_at, policy_at};
ghost use Rattle.mls_lattice.specs.ReadsPolicy.{IsDocument, ReadsPolicy, HasFault};
ghost use Rattle.toml.specs.Data.{Members};
ghost use Rattle.toml.specs.View.{table_view};

use crate::canon::{
    categories_to, label_name, labels_to, levels_to, matrix_to, user_name, users_to, version_to,
};
use crate::document::{bounded, optional_texts, some_of, texts_of, version_of, wanted};
use crate::extending::{labels_before, names_before};
use crate::failed::Failed;
use crate::fault::{FieldFault, PolicyFault};
use crate::items::Items;
use crate::label::Label;
use crate::labels::{labels_of, position_of_label};
use crate::matrix::{granted_modes, matrix_of};
use crate::modes::Modes;
use crate::names::names_of;
use crate::number::{LabelNo, UserNo};
use crate::tables::{NamedLabel, Right, User};
use crate::text::Str;
use crate::trail::{Refused, Trail};
use crate::users::{position_of_user, users_of};
use crate::version::Version;
use std::alloc::{AllocError, Global};
use std::marker::Model;
use toml::Table;

/// Version, levels, categories, labels, users and rights, as a policy file declares them: a policy is the whole
/// file.
#[derive(Drop)]
pub struct Policy {
    version: Version,
    levels: Items<Str>,
    categories: Items<Str>,
    labels: Items<NamedLabel>,
    users: Items<User>,
    matrix: Items<Right>,
}

impl Model for Policy {
    ghost use Rattle.std.specs.Prelude.{map};
    ghost use Rattle.std.specs.Coded.{codes};
    ghost use Rattle.mls_lattice.specs.Lattice.{pair_code};
    ghost use Rattle.mls_lattice.specs.Policy.{Policy, named, IsPolicy};

    ghost Value = { Policy };

    ghost coded = { Prim.hlevel (codes, pair_code) };

    ghost view = { λ a. record {
      version = a.version;
      levels = a.levels;
      categories = a.categories;
      labels =
          map named a.labels;
      users = a.users;
      matrix = a.matrix;
    } };

    ghost invariant = { λ a. IsPolicy (record {
      version = a.version;
      levels = a.levels;
      categories = a.categories;
      labels = map named a.labels;
      users = a.users;
      matrix = a.matrix;
    }) };
}

impl Policy {
    /// Reads the bytes of a TOML document. NotToml is the answer where they are none, and also where they are not
    /// UTF-8;
    /// the other faults come in the order of the fields, as `policy_at` has them. Memory may stand in place of any
    /// answer.
    /// Beside the fault stands where in the document the reader stopped.
    pub fn read_at(alloc: Global, bytes: &[u8]) -> Result<Policy, Refused<PolicyFault>>
        // What is read is what the bytes say.
        ensures found { IfOk result (ReadsPolicy bytes.now) }
        // Nothing that says a policy is refused, unless memory runs out.
        ensures refused { IfErr result (λ e. e.fault ≢ PolicyFault.Memory → (p : Policy) → ReadsPolicy bytes.now p
            → ⊥) }
        // Another fault of a document is its first.
        ensures first { IfErr result (λ e. e.fault ≢ PolicyFault.Memory → e.fault ≢ PolicyFault.NotToml
            → HasFault bytes.now e.fault) }
        // NotToml is the answer exactly where the bytes are no document.
        ensures not_toml { IfErr result (λ e. e.fault ≢ PolicyFault.Memory
            → (e.fault ≡ PolicyFault.NotToml) ↔ ((document : Members) → IsDocument bytes.now document → ⊥)) }
    {
        let mut at = Trail::new();
        match toml::table_from_slice(alloc, bytes) {
            Ok(document) => match policy_of(alloc, &document, &mut at) {
                Ok(policy) => Ok(policy),
                Err(failed) => Err(Refused {
                    fault: PolicyFault::from(failed),
                    at,
                }),
            },
            Err(e) if e.is_memory() => Err(Refused {
                fault: PolicyFault::Memory,
                at,
            }),
            Err(_) => Err(Refused {
                fault: PolicyFault::NotToml,
                at,
            }),
        }
    }

    /// The same, with the fault alone.
    pub fn read(alloc: Global, bytes: &[u8]) -> Result<Policy, PolicyFault>
        ensures found { IfOk result (ReadsPolicy bytes.now) }
        ensures refused { IfErr result (λ e. e ≢ PolicyFault.Memory → (p : Policy) → ReadsPolicy bytes.now p → ⊥) }
        ensures first { IfErr result (λ e. e ≢ PolicyFault.Memory → e ≢ PolicyFault.NotToml → HasFault bytes.now e) }
        ensures not_toml { IfErr result (λ e. e ≢ PolicyFault.Memory
            → (e ≡ PolicyFault.NotToml) ↔ ((document : Members) → IsDocument bytes.now document → ⊥)) }
    {
        match Policy::read_at(alloc, bytes) {
            Ok(policy) => Ok(policy),
            Err(refused) => Err(refused.fault),
        }
    }

    /// The version of the file.
    pub fn version(&self) -> Version
        ensures { result ≡ self.now.version }
    {
        self.version
    }

    /// The canonical text: the form in which policies are compared, which is no TOML document.
    pub fn canon(&self, alloc: Global) -> Result<Vec<u8>, AllocError>
        ensures { IfOk result (λ text. text.items ≡ canon_of self.now) }
    {
        let mut text = String::new(alloc);
        version_to(&mut text, self.version)?;
        levels_to(&mut text, &self.levels)?;
        categories_to(&mut text, &self.categories)?;
        labels_to(&mut text, &self.levels, &self.categories, &self.labels)?;
        users_to(&mut text, &self.labels, &self.users)?;
        matrix_to(&mut text, &self.users, &self.matrix)?;
        Ok(text.into_bytes())
    }

    /// The lines of the canonical text for levels, categories and labels: a store keeps them, since its rows rest on
    /// them.
    pub fn lattice_text(&self, alloc: Global) -> Result<Vec<u8>, AllocError>
        ensures text { IfOk result (λ text. text.items ≡ lattice_of self.now) }
        ensures unicode { IfOk result (λ text. IsUtf8 text.items) }
    {
        let mut text = String::new(alloc);
        levels_to(&mut text, &self.levels)?;
        categories_to(&mut text, &self.categories)?;
        labels_to(&mut text, &self.levels, &self.categories, &self.labels)?;
        Ok(text.into_bytes())
    }

    /// How many labels the old lattice of a text has, if this one extends it: they are the first labels here.
    pub fn labels_before(&self, alloc: Global, old: &[u8]) -> Result<Option<usize>, AllocError>
        ensures found { IfOk result (λ o. IfSome o (Extends self.now old.now)) }
        ensures none { IfOk result (λ o. o ≡ None → (k : ℕ) → Extends self.now old.now k → ⊥) }
    {
        let (levels, rest) = names_before(alloc, "level ", &self.levels, old)?;
        let (_, rest) = names_before(alloc, "category ", &self.categories, rest)?;
        let (labels, rest) = labels_before(
            alloc,
            &self.levels,
            &self.categories,
            &self.labels,
            rest,
        )?;
        if levels > 0 && labels > 0 && rest.is_empty() {
            Ok(Some(labels))
        } else {
            Ok(None)
        }
    }

    /// Whether this policy extends the lattice of an old text.
    pub fn extends(&self, alloc: Global, old: &[u8]) -> Result<bool, AllocError>
        ensures { IfOk result (λ b. IsTrue b ↔ ((k : ℕ) × Extends self.now old.now k)) }
    {
        Ok(self.labels_before(alloc, old)?.is_some())
    }

    /// What holds of every policy. A caller sees of a value what its getters tell, and not its invariant.
    pub fn use_invariant(&self)
        ensures { IsPolicy self.now }
    {
        let _labels = &self.labels;
    }

    /// How many labels are declared.
    pub fn label_count(&self) -> usize
        ensures count { result ≡ length self.now.labels }
        ensures few { length self.now.labels ≤ 64 }
    {
        self.labels.len()
    }

    /// The number of the label of a name.
    pub fn label(&self, name: &str) -> Option<LabelNo>
        ensures { result ≡ position (λ l. bytes_eq l.name name.now) self.now.labels }
    {
        match position_of_label(&self.labels, name) {
            Some(place) => Some(LabelNo::new(place as u8)),
            None => None,
        }
    }

    /// The name of a label.
    pub fn name(&self, label: LabelNo) -> &str
        requires { label < length self.now.labels }
        ensures { result.now ≡ label_name self.now.labels label }
    {
        label_name(&self.labels, label)
    }

    /// The rank and the categories that a number stands for.
    pub fn value(&self, label: LabelNo) -> Label
        requires { label < length self.now.labels }
        ensures { pair_of result ≡ label_of (labels_of self.now) label }
    {
        self.labels[label.index()].label
    }

    /// Whether the first label dominates the second.
    pub fn dominates(&self, high: LabelNo, low: LabelNo) -> bool
        requires high { high < length self.now.labels }
        requires low { low < length self.now.labels }
        ensures order { result ≡ below (labels_of self.now) low high }
        ensures distinct { AreDistinct (labels_of self.now) }
    {
        // A promise of every policy: labels are distinct.
        let _labels = &self.labels;
        self.value(high).dominates(self.value(low))
    }

    /// The number of the user of a name.
    pub fn user(&self, name: &str) -> Option<UserNo>
        ensures { result ≡ position (λ u. bytes_eq u.name name.now) self.now.users }
    {
        match position_of_user(&self.users, name) {
            Some(place) => Some(UserNo::new(place as u16)),
            None => None,
        }
    }

    /// The name of a user.
    pub fn user_name(&self, user: UserNo) -> &str
        requires { user < length self.now.users }
        ensures same { result.now ≡ user_name self.now.users user }
        ensures name { is_name result.now ≡ true }
    {
        user_name(&self.users, user)
    }

    /// How many users are declared.
    pub fn user_count(&self) -> usize
        ensures { result ≡ length self.now.users }
    {
        self.users.len()
    }

    /// How many rights are declared.
    pub fn right_count(&self) -> usize
        ensures { result ≡ length self.now.matrix }
    {
        self.matrix.len()
    }

    /// The object of a right, by its place among the rights.
    pub fn object(&self, right: usize) -> &str
        requires { right < length self.now.matrix }
        ensures { option_map (λ r. r.object) (slice_get self.now.matrix right) ≡ Some result.now }
    {
        self.matrix[right].object.as_str()
    }

    /// The label up to which a user may open sessions and look.
    pub fn clearance(&self, user: UserNo) -> LabelNo
        requires { user < length self.now.users }
        ensures row { option_map (λ u. u.clearance) (slice_get self.now.users user) ≡ Some result }
        ensures declared { result < length self.now.labels }
    {
        self.users[user.index()].clearance
    }

    /// The interval in which a user may run transactions that release, if there is one; its second label dominates its
    /// first.
    pub fn trusted(&self, user: UserNo) -> Option<(LabelNo, LabelNo)>
        requires { user < length self.now.users }
        ensures row { option_map (λ u. u.trusted) (slice_get self.now.users user) ≡ Some result }
        ensures declared { IfSome result (λ i. (i.0 < length self.now.labels) × (i.1 < length self.now.labels)) }
        ensures ordered { IfSome result (λ i. below (labels_of self.now) i.0 i.1 ≡ true) }
    {
        self.users[user.index()].trusted
    }

    /// What a user may do with an object: nothing where the matrix has no entry.
    pub fn modes(&self, user: UserNo, object: &str) -> Modes
        ensures { result.0 ≡ granted_modes self.now.matrix user object.now }
    {
        granted_modes(&self.matrix, user, object)
    }
}

/// The most levels of a policy.
const MAX_LEVELS: usize = 16;

/// The most categories of a policy: `Label` has a bit for each.
const MAX_CATEGORIES: usize = 32;

#[tactic(auto, using(crate::proofs::ReadingLemmas::counts), unfolding(crate::specs::PolicyReading::levels_at))]
fn levels_of(
    alloc: Global,
    document: &Table,
    at: &mut Trail,
) -> Result<Vec<Str>, Failed<FieldFault>>
    ensures reads { Gives (λ v. v.items) result (levels_at (table_view document.now)) }
    ensures count { IfOk result (λ v. length v.items ≤ 16) }
{
    let all = texts_of(wanted(document, at.field(0, "levels"))?)?;
    let items = some_of(all, MAX_LEVELS)?;
    names_of(alloc, items, at, 0)
}

#[tactic(auto, using(crate::proofs::ReadingLemmas::counts), unfolding(crate::specs::PolicyReading::categories_at))]
fn categories_of(
    alloc: Global,
    document: &Table,
    at: &mut Trail,
) -> Result<Vec<Str>, Failed<FieldFault>>
    ensures reads { Gives (λ v. v.items) result (categories_at (table_view document.now)) }
    ensures count { IfOk result (λ v. length v.items ≤ 32) }
{
    let all = optional_texts(document, at.field(0, "categories"))?;
    let items = bounded(all, MAX_CATEGORIES)?;
    names_of(alloc, items, at, 0)
}

#[tactic(auto, unfolding(crate::specs::PolicyReading::policy_at))]
fn policy_of(alloc: Global, document: &Table, at: &mut Trail) -> Result<Policy, Failed<FieldFault>>
    ensures { Gives (λ p. p) result (policy_at (table_view document.now)) }
{
    let version = version_of(document, at)?;
    let levels = levels_of(alloc, document, at)?;
    let categories = categories_of(alloc, document, at)?;
    let labels = labels_of(alloc, &levels, &categories, document, at)?;
    let users = users_of(alloc, &labels, document, at)?;
    let matrix = matrix_of(alloc, &users, document, at)?;
    Ok(Policy {
        version,
        levels: Items::from(levels),
        categories: Items::from(categories),
        labels: Items::from(labels),
        users: Items::from(users),
        matrix: Items::from(matrix),
    })
}
