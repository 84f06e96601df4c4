//! The helper functions that a program may call (RFC 9669, section 4.3.1).
ghost use Rattle.std.specs.Prelude.{◌≡◌};
ghost use Rattle.bpf_profile.specs.Helpers.{helper_of};

/// A helper function. Its arguments are in R1 and R2, its answer is in R0.
#[derive(Clone, Copy)]
pub enum Helper {
    /// Helper 1: the fact with the index R1, from 0 to 15.
    Fact,
    /// Helper 2: the byte of the body's front with the index R1, from 0 on: there are
    /// 64 in a context of layout 1, and 128 in one of layout 2.
    FrontByte,
    /// Helper 3: writes the first R2 bytes of the tag, 1 to 32, to the stack at R1, zeros past the tag's
    /// end. The answer is the tag's length.
    CopyTag,
    /// Helper 4: 1 where the tag begins with the R2 bytes, 1 to 32, that are on the stack at R1, else 0.
    TagStarts,
}

impl Helper {
    /// The helper function with this number, which a call has as its immediate.
    pub fn with_number(number: u32) -> Option<Helper>
        ensures { result ≡ helper_of number }
    {
        match number {
            1 => Some(Helper::Fact),
            2 => Some(Helper::FrontByte),
            3 => Some(Helper::CopyTag),
            4 => Some(Helper::TagStarts),
            _ => None,
        }
    }
}
