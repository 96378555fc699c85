//! Standard error, and whether it failed.
ghost use Rattle.std.specs.Prelude.{◌≡◌, None};
ghost use Rattle.mls_host.specs.Hosting.{IsTold};
ghost use Rattle.mls_host.specs.Stop.{stop_text};
ghost use Rattle.mls_host.specs.Words.{usage_text};

use crate::stop::Stop;
use crate::usage::Usage;
use mls_tokens::{WriteFault, write_bytes};
use std::io::Write;

/// Where a command tells what it refuses. A failure of the writer changes nothing but what is promised of it: what was
/// told is
/// written whole unless a write failed, and a fault of this writer stands for that, which nothing but a write makes.
/// No contract of a writer tells a refused write from one that was never made. It names the type of its writer, so no
/// fault comes from another that always fails. A text is handed over in parts, since what can be shown may fail by
/// itself.
#[derive(Drop)]
pub struct Errors<E: Write> {
    pub(crate) writer: E,
    pub(crate) failed: Option<WriteFault<E>>,
}

impl<E: Write> Errors<E> {
    /// Over a writer that has not failed.
    pub fn new(writer: E) -> Errors<E>
        ensures { result ≡ record { writer = writer; failed = None } }
    {
        Errors {
            writer,
            failed: None,
        }
    }

    /// The writer.
    pub fn into_writer(self) -> E
        ensures { result ≡ self.writer }
    {
        let Errors { writer, failed: _ } = self;
        writer
    }

    /// Tells a text.
    pub fn tell(&mut self, text: &[u8])
        ensures { IsTold E.contents self.old self.new text.now }
    {
        if let Err(fault) = write_bytes(&mut self.writer, text) {
            self.failed = Some(fault);
        }
    }

    /// Tells a stop.
    pub fn tell_stop(&mut self, stop: &Stop)
        ensures { IsTold E.contents self.old self.new (stop_text stop.now) }
    {
        if let Err(fault) = stop.tell(&mut self.writer) {
            self.failed = Some(fault);
        }
    }

    /// Tells what is said of a command line.
    pub fn tell_usage(&mut self, usage: &Usage)
        ensures { IsTold E.contents self.old self.new (usage_text usage.now) }
    {
        if let Err(fault) = usage.tell(&mut self.writer) {
            self.failed = Some(fault);
        }
    }
}
