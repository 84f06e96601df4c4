//! The operations, the relations and the answers of a domain, as plain types.

/// A binary operation other than a shift (RFC 9669, section 4.1).
#[derive(Clone, Copy, Debug)]
pub enum Binary {
    Add,
    Subtract,
    Multiply,
    Divide,
    SignedDivide,
    Modulo,
    SignedModulo,
    And,
    Or,
    Xor,
}

/// A shift of a word by a count (RFC 9669, section 4.1).
#[derive(Clone, Copy, Debug)]
pub enum Shift {
    Left,
    Right,
    ArithmeticRight,
}

/// A conversion of the low bytes of a word, as many as a size says (RFC 9669, sections 4.1 and 4.2).
#[derive(Clone, Copy, Debug)]
pub enum Conversion {
    /// Zero extension: the bytes above them become 0.
    Low,
    /// Sign extension: the bits above them become copies of their highest bit.
    SignExtended,
    /// Byte swap: they are reversed, and the bytes above them become 0.
    Swapped,
}

/// A relation between two words, which a comparison establishes (RFC 9669, section 4.3).
#[derive(Clone, Copy, Debug)]
pub enum Relation {
    Equal,
    NotEqual,
    /// The first is greater, as an unsigned number.
    Greater,
    /// The first is greater, as an unsigned number, or they are equal.
    GreaterOrEqual,
    /// The bitwise and is 0.
    Disjoint,
    /// The bitwise and is not 0.
    Overlapping,
}

/// Unsigned bounds of words, both inclusive.
#[derive(Clone, Copy, Debug, PartialEq, Eq)]
pub struct Bounds {
    pub low: u64,
    pub high: u64,
}

/// Known bits of words: where a bit of `unknown` is 0, each word has the bit of `value`; where it is 1,
/// nothing is known of that bit.
#[derive(Clone, Copy, Debug, PartialEq, Eq)]
pub struct Bits {
    pub value: u64,
    pub unknown: u64,
}
