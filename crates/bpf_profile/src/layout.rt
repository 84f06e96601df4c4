//! The layouts of a record that a program may be written for.
ghost use Rattle.std.specs.Prelude.{◌≡◌, ◌≤◌};
ghost use Rattle.bpf_profile.specs.Limits.{record_size};
ghost use Rattle.bpf_profile.specs.Layouts.{context_size, number_of};

/// How much of an outcome's record a program sees. Both layouts have each field at the same offset; they differ in how
/// much of the body's front there is.
#[derive(Clone, Copy, Debug, PartialEq, Eq)]
pub enum Layout {
    /// A context of 128 bytes, which ends with the body's first 64.
    One,
    /// A context of 192 bytes, which ends with the body's first 128.
    Two,
}

impl Layout {
    /// The size of the context in bytes.
    pub fn context_size(self) -> u64
        ensures size { result ≡ context_size self }
        ensures within { result ≤ record_size }
    {
        match self {
            Layout::One => 128,
            Layout::Two => 192,
        }
    }

    /// The layout's number, 1 or 2.
    pub fn number(self) -> u64
        ensures { result ≡ number_of self }
    {
        match self {
            Layout::One => 1,
            Layout::Two => 2,
        }
    }
}
