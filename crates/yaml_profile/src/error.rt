//! Why a text is no tree, and where.

/// What YAML has and the profile leaves out.
#[derive(Clone, Copy, Debug, PartialEq, Eq)]
pub enum Feature {
    /// `&` where a node or a key is due.
    Anchor,
    /// `*` where a node or a key is due.
    Alias,
    /// `!` where a node or a key is due.
    Tag,
    /// `%` at the start of the line where the first node is due.
    Directive,
    /// A second line `---`, or a line `...`.
    Documents,
    /// `|` or `>` where a node or a key is due.
    BlockScalar,
    /// A line's end inside quotes.
    ManyLines,
    /// `?` and white where a node or a key is due.
    ExplicitKey,
    /// A block sequence or a block mapping on the line of a `-`.
    Compact,
}

/// Why a text is no tree. `at` is the place of a byte, counted from 0 at the text's start. The whole text is tried for
/// `TooLong` and then for `NotUtf8`; after that the first item from the left that no rule admits is the refusal.
#[derive(Clone, Copy, Debug, PartialEq, Eq)]
pub enum YamlError {
    /// The text has more than 67,108,864 bytes.
    TooLong,
    /// The first byte of the first sequence that is not UTF-8.
    NotUtf8 { at: u64 },
    /// The first byte of what the profile leaves out.
    LeftOut { feature: Feature, at: u64 },
    /// A tab before a block line, or a line at a column that no open block collection has.
    Indent { at: u64 },
    /// The first byte of a collection that lies in 64 others.
    TooDeep { at: u64 },
    /// The first byte of a key that its mapping has.
    RepeatedKey { at: u64 },
    /// The first byte of an item that no rule admits, or the text's length where the text ends inside an item.
    Syntax { at: u64 },
    /// No memory was left.
    NoMemory,
}
