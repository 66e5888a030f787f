// Where white space, words and strings end.
ghost use Rattle.std.specs.Prelude.{◌≡◌, ◌≢◌, ℕ, ◌&&◌, not, ◌==◌, ◌+◌, ◌<◌, ◌≤◌, true, false, length, slice_index, IfSome, IfNone};
ghost use Rattle.sexpr_text.specs.Grammar.{is_space, is_word, IsWhite, IsWord, IsString};
ghost use Rattle.sexpr_text.specs.Inner.Run.{Stops};

/// Whether a byte is white space.
pub fn is_space_byte(byte: u8) -> bool
    ensures { result ≡ is_space byte }
{
    byte == b' ' || byte == b'\t' || byte == b'\r' || byte == b'\n'
}

pub fn is_word_byte(byte: u8) -> bool
    ensures { result ≡ is_word byte }
{
    !(is_space_byte(byte) || byte == b'(' || byte == b')' || byte == b'"')
}

/// The place behind the white space at a place.
pub fn space_end(bytes: &[u8], at: usize) -> usize
    requires { at ≤ length bytes.now }
    ensures white { IsWhite bytes.now at result }
    ensures longest { is_space (slice_index bytes.now result) ≡ false }
{
    let mut end = at;
    while end < bytes.len() && is_space_byte(bytes[end]) {
        end += 1;
    }
    end
}

/// The place behind the word at a place.
pub fn word_end(bytes: &[u8], at: usize) -> usize
    requires within { at < length bytes.now }
    requires word { is_word (slice_index bytes.now at) ≡ true }
    ensures { IsWord bytes.now at result }
{
    let mut end = at + 1;
    while end < bytes.len() && is_word_byte(bytes[end]) {
        end += 1;
    }
    end
}

/// Whether a list or the text ends at a place behind white space.
pub fn is_end(bytes: &[u8], at: usize) -> bool
    requires { at ≤ length bytes.now }
    ensures ends { result ≡ true → Stops bytes.now at }
    ensures inside { result ≡ false → at < length bytes.now }
    ensures not_closing { result ≡ false → slice_index bytes.now at ≢ 41 }
{
    at == bytes.len() || bytes[at] == b')'
}

/// Whether a byte ends a string.
fn closes(escaped: bool, byte: u8) -> bool
    ensures { result ≡ (not escaped && byte == 34) }
{
    !escaped && byte == b'"'
}

/// Whether a byte takes the next one with it.
fn escapes(escaped: bool, byte: u8) -> bool
    ensures { result ≡ (not escaped && byte == 92) }
{
    !escaped && byte == b'\\'
}

/// The place behind the string at a place, or nothing if the string has no end.
pub fn string_end(bytes: &[u8], at: usize) -> Option<usize>
    requires within { at < length bytes.now }
    requires quote { slice_index bytes.now at ≡ 34 }
    ensures found { IfSome result (IsString bytes.now at) }
    ensures none { IfNone result ((to : ℕ) → IsString bytes.now at to → ⊥) }
{
    let mut escaped = false;
    let mut end = at + 1;
    while end < bytes.len() {
        if closes(escaped, bytes[end]) {
            return Some(end + 1);
        }
        escaped = escapes(escaped, bytes[end]);
        end += 1;
    }
    None
}
