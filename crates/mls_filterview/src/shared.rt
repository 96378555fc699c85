//! Views that several own.
ghost use Rattle.std.specs.Prelude.{◌≡◌, ◌<◌, List, [], length, slice_index_or, IfOk};
ghost use Rattle.std.specs.Option.{option_map_or};
ghost use Rattle.mls_scheme.specs.declared.tuple.Tuple.{Tuple as SpecTuple};
ghost use Rattle.mls_scheme.specs.Tuple.{no_tuple};

use mls_lattice::Items;
use mls_scheme::Tuple;
use std::alloc::{AllocError, Global};
use std::marker::Model;
use std::rc::Rc;

/// The tuples of a view. Several may own them: they are copied for none.
#[derive(Drop)]
pub struct SharedView {
    /// A view without tuples may have none.
    tuples: Option<Rc<Items<Tuple>, Global>>,
}

impl Model for SharedView {
    ghost Value = { List SpecTuple };

    ghost view = { λ v. option_map_or (λ r. r.value) v.tuples [] };
}

/// A tuple of a view, which keeps the view.
#[derive(Drop)]
pub struct SharedTuple {
    view: SharedView,
    place: usize,
}

impl Model for SharedTuple {
    ghost Value = { SpecTuple };

    ghost view = { λ t. slice_index_or t.view t.place no_tuple };

    ghost invariant = { λ t. t.place < length t.view };
}

impl SharedView {
    /// No tuples. It takes no memory.
    pub fn none() -> SharedView
        ensures { result ≡ [] }
    {
        SharedView { tuples: None }
    }

    /// A view of these tuples.
    pub fn new(alloc: Global, tuples: Vec<Tuple>) -> Result<SharedView, AllocError>
        ensures { IfOk result (λ v. v ≡ tuples.items) }
    {
        let tuples = Rc::new(alloc, Items::from(tuples))?;
        Ok(SharedView {
            tuples: Some(tuples),
        })
    }

    /// The tuples, to change them. They are copied where there is another owner.
    pub fn into_tuples(self, alloc: Global) -> Result<Vec<Tuple>, AllocError>
        ensures { IfOk result (λ v. v.items ≡ self) }
    {
        match self.tuples {
            None => Ok(Vec::new(alloc)),
            Some(tuples) => match Rc::try_unwrap(tuples) {
                Ok(tuples) => Ok(tuples.into_vec()),
                Err(shared) => copy_tuples(shared.as_ref()),
            },
        }
    }

    /// The same view, for one owner more. It fails only where there are as many as can be counted.
    pub fn share(&self) -> Result<SharedView, AllocError>
        ensures { IfOk result (λ v. v ≡ self.now) }
    {
        match &self.tuples {
            None => Ok(SharedView::none()),
            Some(tuples) => Ok(SharedView {
                tuples: Some(tuples.clone()?),
            }),
        }
    }

    /// The tuples, lent.
    pub fn as_slice(&self) -> &[Tuple]
        ensures { result.now ≡ self.now }
    {
        match &self.tuples {
            None => &[],
            Some(tuples) => tuples.as_ref().as_slice(),
        }
    }

    /// The tuple at a place. It fails as [`SharedView::share`] does.
    pub fn tuple(&self, place: usize) -> Result<SharedTuple, AllocError>
        requires { place < length self.now }
        ensures { IfOk result (λ t. t ≡ slice_index_or self.now place no_tuple) }
    {
        let view = self.share()?;
        Ok(SharedTuple { view, place })
    }
}

/// The same tuples.
fn copy_tuples(tuples: &Items<Tuple>) -> Result<Vec<Tuple>, AllocError>
    ensures { IfOk result (λ v. v.items ≡ tuples.now) }
{
    Ok(tuples.clone()?.into_vec())
}

impl SharedTuple {
    /// The tuple, lent.
    pub fn as_tuple(&self) -> &Tuple
        ensures { result.now ≡ self.now }
    {
        &self.view.as_slice()[self.place]
    }
}
