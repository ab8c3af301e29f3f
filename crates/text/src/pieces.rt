//! Cuts bytes at a separator: a text at its line feeds, a line at its spaces.
ghost use Rattle.std.specs.Prelude.{◌≡◌, ◌≤◌, ◌∷◌, length};
ghost use Rattle.text.specs.Pieces.{pieces, pieces_in, length_left};

/// The bytes before the first separator, and those after it: `None` where there is no separator.
#[derive(Clone, Copy)]
pub struct Cut<'a> {
    pub first: &'a [u8],
    pub rest: Option<&'a [u8]>,
}

/// Cuts the first piece off. What is left is shorter, so a loop that goes on with it ends.
pub fn cut_at<'a>(bytes: &'a [u8], separator: u8) -> Cut<'a>
    ensures pieces { pieces separator bytes.now ≡ result.first.now ∷ pieces_in separator result.rest }
    ensures shorter { length_left result.rest ≤ length bytes.now }
{
    match bytes.iter().position(|byte| *byte == separator) {
        Some(offset) => Cut {
            first: &bytes[..offset],
            rest: Some(&bytes[offset + 1..]),
        },
        None => Cut {
            first: bytes,
            rest: None,
        },
    }
}
