//! The digits of a number, alone and behind a label.
ghost use Rattle.std.specs.Prelude.{◌≡◌, ◌⊎◌, ◌++◌, decimal, string_bytes, OnOk, OnErr};
ghost use Rattle.text_pieces.specs.Pieces.{Adds};

use itoa::Buffer;
use std::alloc::AllocError;

/// Adds a number as `{}` writes it. May take memory for the text.
// Most counts, threads and fields are below 10: they take no buffer and no call.
#[inline(always)]
#[tactic(auto, using(std::proofs::lemmas::Fmt::decimal_digit))]
pub fn push_decimal(text: &mut String, number: u64) -> Result<(), AllocError>
    ensures digits { OnOk result (Adds text.old text.new (decimal number)) }
    ensures unchanged { OnErr result (string_bytes text.new ≡ string_bytes text.old) }
{
    if number < 10 {
        return text.push((b'0' + number as u8) as char);
    }
    push_long(text, number)
}

/// Adds a label and the number that it tells of. May take memory for the text.
///
/// Where that runs out, the label may have been added.
// Inlined, so that a label that is known where it is added is stored there at once: a text of any length is copied by a call.
#[inline(always)]
pub fn push_labelled(text: &mut String, label: &str, number: u64) -> Result<(), AllocError>
    ensures both { OnOk result (Adds text.old text.new (label.now ++ decimal number)) }
    ensures front { OnErr result
        ((string_bytes text.new ≡ string_bytes text.old) ⊎ Adds text.old text.new label.now) }
{
    text.push_str(label)?;
    push_decimal(text, number)
}

#[inline(never)]
fn push_long(text: &mut String, number: u64) -> Result<(), AllocError>
    ensures digits { OnOk result (Adds text.old text.new (decimal number)) }
    ensures unchanged { OnErr result (string_bytes text.new ≡ string_bytes text.old) }
{
    let mut buffer = Buffer::new();
    text.push_str(buffer.format(number))
}
