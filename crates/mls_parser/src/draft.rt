use mls_lattice::{LabelNo, Str};
use mls_scheme::{Kind, Named};
use mls_translang::{Block, Parameter};

/// A transaction that was read, with what its names stand for; some may be unknown.
#[derive(Drop)]
pub(crate) struct Draft {
    pub name: Str,
    pub lo: LabelNo,
    pub hi: LabelNo,
    pub params: Named<Parameter>,
    pub vars: Named<Kind>,
    pub body: Block,
}
