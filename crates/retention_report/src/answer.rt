//! What a command answers.
ghost use Rattle.std.specs.Prelude.{◌≡◌, true, string_bytes, IfOk};
ghost use Rattle.retention_report.specs.Explained.{missing_text};

use std::alloc::{AllocError, Global};
use text_pieces::push_labelled;

/// A text, and whether it says that an object isn't there.
#[derive(Drop)]
pub struct Answer {
    pub text: String,
    pub is_missing: bool,
}

/// The line that says that an object isn't there.
pub fn no_object(alloc: Global, object: u32) -> Result<Answer, AllocError>
    ensures text { IfOk result (λ a. string_bytes a.text ≡ missing_text object) }
    ensures missing { IfOk result (λ a. a.is_missing ≡ true) }
{
    let mut text = String::new(alloc);
    push_labelled(&mut text, "no object ", object as u64)?;
    text.push_str("\n")?;
    Ok(Answer {
        text,
        is_missing: true,
    })
}
