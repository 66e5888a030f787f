// The content of strings.
ghost use Rattle.std.specs.Prelude.{◌≡◌, false, IfOk};
ghost use Rattle.sexpr_text.specs.Items.{meaning, unescaped};

use grid_num::Memory;
use std::alloc::Global;

/// What a backslash and this byte stand for.
fn meaning_of(byte: u8) -> u8
    ensures { result ≡ meaning byte }
{
    match byte {
        b'n' => b'\n',
        b'r' => b'\r',
        b't' => b'\t',
        other => other,
    }
}

/// The content of a string, of the bytes between its quotes.
pub fn unescape(alloc: Global, inside: &[u8]) -> Result<Vec<u8>, Memory>
    ensures { IfOk result (λ v. v.items ≡ unescaped false inside.now) }
{
    let mut content = Vec::new(alloc);
    let mut escaped = false;
    'each: for byte in inside {
        if escaped {
            content.push(meaning_of(*byte))?;
            escaped = false;
        } else if *byte == b'\\' {
            escaped = true;
        } else {
            content.push(*byte)?;
        }
    }
    Ok(content)
}
