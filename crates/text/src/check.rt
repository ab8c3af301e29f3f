//! The checks of a text as a whole.
ghost use Rattle.std.specs.Prelude.{◌≡◌, not, position};
ghost use Rattle.text.specs.Bytes.{allowed};
ghost use Rattle.text.specs.Texts.{text_check};

use fault::text::TextFault;

/// The longest text.
const MOST_BYTES: usize = 16384;

/// Whether a text may hold the byte.
fn is_allowed(byte: u8) -> bool
    ensures { result ≡ allowed byte }
{
    match byte as char {
        'a'..='z' | '0'..='9' | ' ' | '<' | '=' | '>' | '-' | '\n' => true,
        _ => false,
    }
}

/// The offset of the first byte that is not allowed.
fn first_bad(text: &[u8]) -> Option<usize>
    ensures { result ≡ position (λ b. not (allowed b)) text.now }
{
    text.iter().position(|byte| !is_allowed(*byte))
}

/// Refuses bytes that are no text, for the first of the reasons that holds.
#[tactic(auto, using(crate::proofs::Scans::scans))]
pub fn check_text(text: &[u8]) -> Result<(), TextFault>
    ensures { result ≡ text_check text.now }
{
    if text.is_empty() || text.len() > MOST_BYTES {
        return Err(TextFault::Size);
    }
    if let Some(offset) = first_bad(text) {
        return Err(TextFault::Byte { offset });
    }
    match text {
        [.., b'\n'] => Ok(()),
        _ => Err(TextFault::Ending { length: text.len() }),
    }
}
