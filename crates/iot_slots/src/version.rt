//! The two versions of the format.
ghost use Rattle.std.specs.Prelude.{◌≡◌, ◌<◌, ◌^◌};
ghost use Rattle.iot_slots.specs.Cells.{naming, place_named, version_named, is_old, number_of};

/// What is added to a place in a cell of version 2.
const VERSION_MARK: u64 = 1 << 63;

/// In which version of the format a checkpoint and the records after it are spelled.
#[derive(Clone, Copy, Debug, PartialEq, Eq)]
pub enum Version {
    /// Files have no modes, and contents are of at most 8,192 bytes. It is only read.
    One,
    /// The version that is written.
    Two,
}

impl Version {
    /// The version that a cell marks with this number.
    pub fn named(number: u64) -> Version
        ensures { result ≡ version_named number }
    {
        if number >= VERSION_MARK {
            Version::Two
        } else {
            Version::One
        }
    }

    /// Whether it is one that is only read.
    pub fn is_old(self) -> bool
        ensures { result ≡ is_old self }
    {
        match self {
            Version::One => true,
            Version::Two => false,
        }
    }

    /// Its number.
    pub fn number(self) -> u8
        ensures { result ≡ number_of self }
    {
        match self {
            Version::One => 1,
            Version::Two => 2,
        }
    }
}

/// The number with which a cell of version 2 names the checkpoint at this place.
pub fn naming(place: u64) -> u64
    requires { place < 2 ^ 63 }
    ensures { result ≡ naming Version.Two place }
{
    place + VERSION_MARK
}

/// The place that a cell names with this number.
pub fn place_named(number: u64) -> u64
    ensures { result ≡ place_named number }
{
    number % VERSION_MARK
}
