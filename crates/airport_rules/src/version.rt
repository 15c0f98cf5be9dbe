//! The versions of the airport file.
ghost use Rattle.std.specs.Prelude.{◌≡◌};
ghost use Rattle.airport_rules.specs.Versions.{version_named, gives_clearances};

/// A version of the airport file. The second may give each class its clearance.
#[derive(Clone, Copy, Debug, PartialEq, Eq)]
pub enum Version {
    One,
    Two,
}

impl Version {
    /// The version of this number, as the first record writes it; none where there is no such version.
    pub fn named(number: &[u8]) -> Option<Version>
        ensures { result ≡ version_named number.now }
    {
        if number == b"1".as_slice() {
            Some(Version::One)
        } else if number == b"2".as_slice() {
            Some(Version::Two)
        } else {
            None
        }
    }

    /// Whether a record may give a class its clearance.
    pub fn gives_clearances(self) -> bool
        ensures { result ≡ gives_clearances self }
    {
        match self {
            Version::One => false,
            Version::Two => true,
        }
    }
}
