//! Texts without escapes, and what stands between values.
ghost use Rattle.std.specs.Prelude.{◌≡◌, ◌⊎◌, ◌<◌, ◌≤◌, ◌++◌, ◌∷◌, length, take, get_or, true, IfSome, IsTrue};
ghost use Rattle.std.specs.List.{list_all};
ghost use Rattle.trace_reader.specs.Plain.{IsAfterSpaces, IsDelimited, is_unescaped_byte};
ghost use Rattle.trace_reader.specs.Plain as Plain;

// So many bytes are looked at together, by vectors.
const BLOCK: usize = 128;

/// What stands before the closing quote, and what comes after it, where a text is of ASCII and stands for itself between quotes.
pub fn unescaped(text: &[u8]) -> Option<(&[u8], &[u8])>
    ensures quoted { IfSome result (λ found. text.now ≡ found.0.now ++ 34 ∷ found.1.now) }
    ensures plain { IfSome result (λ found. list_all is_unescaped_byte found.0.now ≡ true) }
{
    // Most names and texts end in their first block.
    match closed_behind(text, 0) {
        Some(found) => Some(found),
        None => long_unescaped(text),
    }
}

// Apart, since it is rare.
#[inline(never)]
fn long_unescaped(text: &[u8]) -> Option<(&[u8], &[u8])>
    ensures quoted { IfSome result (λ found. text.now ≡ found.0.now ++ 34 ∷ found.1.now) }
    ensures plain { IfSome result (λ found. list_all is_unescaped_byte found.0.now ≡ true) }
{
    closed_behind(text, unescaped_blocks(text))
}

// The same, where the closing quote stands in the block behind so many bytes that stand for themselves.
#[inline(always)]
fn closed_behind(text: &[u8], whole: usize) -> Option<(&[u8], &[u8])>
    requires within { whole ≤ length text.now }
    requires plain { list_all is_unescaped_byte (take whole text.now) ≡ true }
    ensures quoted { IfSome result (λ found. text.now ≡ found.0.now ++ 34 ∷ found.1.now) }
    ensures plain { IfSome result (λ found. list_all is_unescaped_byte found.0.now ≡ true) }
{
    let last = &text[whole..text.len().min(whole.saturating_add(BLOCK))];
    let len = quote(last)?;
    if !is_unescaped(&last[..len]) {
        return None;
    }
    Some((&text[..whole + len], &text[whole + len + 1..]))
}

// How many bytes the blocks at the front have, up to the first block that has another byte.
#[inline(always)]
fn unescaped_blocks(text: &[u8]) -> usize
    ensures within { result ≤ length text.now }
    ensures plain { list_all is_unescaped_byte (take result text.now) ≡ true }
{
    let mut end = 0;
    'ends: while text.len() - end >= BLOCK {
        if !is_unescaped(&text[end..end + BLOCK]) {
            return end;
        }
        end += BLOCK;
    }
    end
}

// Where the first quote stands.
#[inline(always)]
fn quote(text: &[u8]) -> Option<usize>
    ensures { IfSome result (λ at. (at < length text.now) × (get_or text.now at 0 ≡ 34)) }
{
    memchr::memchr(b'"', text)
}

// Whether a text is of ASCII, and stands for itself between quotes. It goes on behind a byte that isn't so, since vectors can't stop.
#[inline(always)]
fn is_unescaped(text: &[u8]) -> bool
    ensures { result ≡ list_all is_unescaped_byte text.now }
{
    let mut is_unescaped = true;
    'bytes: for byte in text {
        is_unescaped &= is_unescaped_byte(*byte);
    }
    is_unescaped
}

#[inline(always)]
fn is_unescaped_byte(byte: u8) -> bool
    ensures { result ≡ Plain.is_unescaped_byte byte }
{
    (byte.wrapping_sub(b' ') < 96) & (byte != b'"') & (byte != b'\\')
}

/// Whether a comma or a closing bracket comes next, the bracket behind a space at most.
#[inline(always)]
pub fn is_delimited(text: &[u8]) -> bool
    ensures { IsTrue result → IsDelimited text.now }
{
    let [first, after @ ..] = text else {
        return false;
    };
    match *first {
        b',' | b'}' | b']' => true,
        b' ' => closes(after),
        _ => false,
    }
}

// Apart, since few write a space there.
#[inline(never)]
fn closes(text: &[u8]) -> bool
    ensures { IsTrue result → (0 < length text.now)
        × ((get_or text.now 0 0 ≡ 93) ⊎ (get_or text.now 0 0 ≡ 125)) }
{
    let [first, _after @ ..] = text else {
        return false;
    };
    matches!(*first, b'}' | b']')
}

/// What comes after the spaces that come first.
#[inline(always)]
pub fn after_spaces(text: &[u8]) -> &[u8]
    ensures { IsAfterSpaces text.now result.now }
{
    let [b' ', rest @ ..] = text else {
        return text;
    };
    if let [b' ', ..] = rest {
        return after_many_spaces(text);
    }
    rest
}

// Apart, since most have one at most.
#[inline(never)]
fn after_many_spaces(text: &[u8]) -> &[u8]
    ensures { IsAfterSpaces text.now result.now }
{
    let mut rest = text;
    'spaces: while let [b' ', next @ ..] = rest {
        rest = next;
    }
    rest
}
