//! Versions of files.
ghost use Rattle.std.specs.Prelude.{◌≡◌, max};
ghost use Rattle.mls_lattice.specs.Version.{version_number, version_text, later};

/// The version of a file: only files of the second version may extend what older ones say.
#[derive(Clone, Copy, PartialEq, Eq, PartialOrd, Ord, Debug)]
pub enum Version {
    One,
    Two,
}

impl Version {
    /// The number that files write.
    pub fn number(self) -> u8
        ensures { result ≡ version_number self }
    {
        match self {
            Version::One => 1,
            Version::Two => 2,
        }
    }

    /// The number as a text.
    pub fn word(self) -> &'static str
        ensures { result.now ≡ version_text self }
    {
        match self {
            Version::One => "1",
            Version::Two => "2",
        }
    }

    /// The greater of two versions.
    pub fn later(self, other: Version) -> Version
        ensures same { result ≡ later self other }
        ensures greater { version_number result ≡ max (version_number self) (version_number other) }
    {
        match self {
            Version::One => other,
            Version::Two => Version::Two,
        }
    }
}
