//! The event that lines of a reply answer.
ghost use Rattle.std.specs.Prelude.{◌<◌, length};

use mls_lattice::Policy;
use mls_scheme::Schemes;
use mls_translang::Event;
use std::alloc::Global;

/// An event, and what has the names of its numbers. Each line of a reply to it begins with its session, whose level is
/// declared.
#[derive(Clone, Copy)]
pub(crate) struct Answered<'a> {
    pub alloc: Global,
    pub policy: &'a Policy,
    pub schemes: &'a Schemes,
    pub event: &'a Event,
    ghost level: { event.now.level < length policy.now.labels },
}
