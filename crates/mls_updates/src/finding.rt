//! Whether a place has a tuple. Nothing is read but the node there: no outcome and no change of a write depends
//! on more of a tuple than its classes.
ghost use Rattle.std.specs.Prelude.{◌≡◌, is_some, IfOk};
ghost use Rattle.std.specs.FinMap.{get};
ghost use Rattle.mls_scheme.specs.Spelling.{IsSpelledKey};
ghost use Rattle.mls_filterview.specs.Calls.{IsRead, ReadsAt};

use mls_filterview::{Base, BaseFault};
use mls_scheme::{Place, RelNo};

/// Whether there is a tuple at a place.
#[tactic(auto, using(crate::proofs::PatternLemmas::some_found))]
pub(crate) fn has_tuple<B: Base>(
    base: &mut B,
    relation: RelNo,
    place: &Place,
) -> Result<bool, BaseFault>
    requires key { IsSpelledKey place.now.key }
    ensures read { IsRead B.seen base.old base.new result }
    ensures access { ReadsAt B.seen place.now.class base.old base.new }
    ensures found { (B.seen base.new).is_clean → IfOk result (λ has. has
        ≡ is_some (get ((B.seen base.old).state.now.db relation) place.now)) }
{
    let pattern = base.pattern(relation, place)?;
    Ok(pattern.is_some())
}
