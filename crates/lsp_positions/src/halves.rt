//! A text in two parts, read byte by byte.
ghost use Rattle.std.specs.Prelude.{◌≡◌, ◌<◌, ◌≤◌, length, slice_index};
ghost use Rattle.lsp_model.specs.Positions.{text_limit};
ghost use Rattle.lsp_positions.specs.Texts.{whole};

/// A text in two parts, the second of which may be empty.
#[derive(Clone, Copy)]
pub struct Halves<'a> {
    pub left: &'a [u8],
    pub right: &'a [u8],
}

/// How many bytes the text has.
pub fn len_of(text: Halves<'_>) -> usize
    requires { length (whole text) ≤ text_limit }
    ensures { result ≡ length (whole text.entry) }
{
    text.left.len() + text.right.len()
}

/// The byte at an offset.
pub fn byte_at(text: Halves<'_>, at: usize) -> u8
    requires { at < length (whole text) }
    ensures { result ≡ slice_index (whole text.entry) at }
{
    if at < text.left.len() {
        text.left[at]
    } else {
        text.right[at - text.left.len()]
    }
}
