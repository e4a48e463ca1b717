//! The header of a method (Java Card Virtual Machine Specification 2.2.2, section 6.9.2). Whoever reads methods
//! calls it.

ghost use Rattle.std.specs.Prelude.{◌≡◌, ◌≤◌, IfSome, length, option_map};
ghost use Rattle.cjc_capread.specs.MethodHeader.{is_abstract, is_extended, method_header};
ghost use Rattle.cjc_capread.specs.Decoder.Decoded.{header_of};

/// What a header says.
#[derive(Clone, Copy)]
pub struct Header {
    pub max_stack: u8,
    /// The words of the arguments, the receiver counted.
    pub nargs: u8,
    /// The further cells of locals.
    pub max_locals: u8,
    pub is_abstract: bool,
    /// In bytes.
    pub size: usize,
}

/// Whether a header has four bytes.
fn is_extended(first: u8) -> bool
    ensures { result ≡ is_extended first }
{
    first / 0x80 % 2 == 1
}

/// Whether no code follows.
fn is_abstract(first: u8) -> bool
    ensures { result ≡ is_abstract first }
{
    first / 0x40 % 2 == 1
}

/// The header at the front of bytes; `None` exactly where they end in it.
pub fn method_header(bytes: &[u8]) -> Option<Header>
    ensures is { option_map header_of result ≡ method_header bytes.now }
    ensures within { IfSome result (λ h. h.size ≤ length bytes.now) }
{
    match bytes {
        [first, max_stack, nargs, max_locals, ..] if is_extended(*first) => Some(Header {
            max_stack: *max_stack,
            nargs: *nargs,
            max_locals: *max_locals,
            is_abstract: is_abstract(*first),
            size: 4,
        }),
        [first, second, ..] if !is_extended(*first) => Some(Header {
            max_stack: *first % 16,
            nargs: *second / 16,
            max_locals: *second % 16,
            is_abstract: is_abstract(*first),
            size: 2,
        }),
        _ => None,
    }
}
