//! How a command ends that is not refused.
ghost use Rattle.std.specs.Prelude.{◌≡◌};
ghost use Rattle.mls_host.specs.Ending.{ending_status, ending_if};

/// What is said of the transactions that a command looks at.
#[derive(Clone, Copy)]
pub enum Ending {
    /// None is refused.
    Well,
    /// One at least is.
    Refused,
}

impl Ending {
    /// The exit status.
    pub fn status(self) -> u8
        ensures { result ≡ ending_status self }
    {
        match self {
            Ending::Well => 0,
            Ending::Refused => 1,
        }
    }
}

/// How a command ends that refused something, or nothing.
pub fn ending_if(refused: bool) -> Ending
    ensures { result ≡ ending_if refused }
{
    if refused {
        Ending::Refused
    } else {
        Ending::Well
    }
}
