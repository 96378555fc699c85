//! Which transaction a call names.
ghost use Rattle.std.specs.Prelude.{◌≡◌, option_map, Some};
ghost use Rattle.mls_certcheck.specs.declared.certified.Certified.{Certified as Checked};
ghost use Rattle.mls_certcheck.specs.declared.stored.Stored.TheVariants as variants;
ghost use Rattle.mls_machine.specs.Denying.{stored_named};

use mls_certcheck::{Certified, Stored};

/// The first of some transactions that has a name.
pub(crate) fn stored_named<'a>(stored: &'a [Stored], name: &str) -> Option<&'a Stored>
    ensures { option_map (λ s. s.now) result ≡ stored_named stored.now name.now }
{
    for one in stored {
        if one.tx().name() == name {
            return Some(one);
        }
    }
    None
}

/// The transaction with a certificate that is stored by a name.
pub(crate) fn certified_named<'a>(stored: &'a [Stored], name: &str) -> &'a Certified
    requires { (k : Checked) × (stored_named stored.now name.now ≡ Some (variants.Certified k)) }
    ensures { stored_named stored.now name.now ≡ Some (variants.Certified result.now) }
{
    match stored_named(stored, name) {
        Some(Stored::Certified(certified)) => certified,
        _ => unreachable!(),
    }
}
