//! The groups of rules that a command may name beyond those that every package is tested for. Called by
//! judging; it knows no rule.

/// A group of rules of the third hundred or a later one. Those of single files, of the classes together and of what
/// instructions name are tested always.
#[derive(Clone, Copy)]
pub enum Group {
    /// 303: an instruction that is not converted.
    Unsupported,
    /// 301, 302, 304 to 307, 309 and 310: the language of the card.
    Language,
    /// 308: initialisers and first values of static fields.
    Initialisers,
    /// 401 to 409, and with them those of the language.
    Limits,
    /// 413: the tokens of classes and members.
    Tokens,
    /// 501 to 503: types of operands.
    Types,
    /// 601 to 609: ranges of operands, and with them types.
    Ranges,
}
