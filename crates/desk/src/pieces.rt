// What a call takes of a piece, and what it puts into one.
ghost use Rattle.std.specs.Prelude.{◌≡◌, ◌≤◌, ◌-◌, ◌+◌, ◌++◌, min, take, drop, length, vec_len, vec_capacity};

/// The first bytes of a piece that a call takes.
pub fn first_of(bytes: &[u8], step: usize) -> &[u8]
    ensures same { result.now ≡ take (length result.now) bytes.now }
    ensures count { length result.now ≡ min step (length bytes.now) }
{
    let count = bytes.len().min(step);
    &bytes[..count]
}

/// Copies some bytes, from a place on, to the front of a piece.
pub fn copy_some(bytes: &[u8], from: u64, step: usize, into: &mut [u8]) -> usize
    ensures count { result ≡ min (min step (length into.old)) (length bytes.now - from) }
    ensures filled { into.new ≡ take result (drop from bytes.now) ++ drop result into.old }
{
    if from >= bytes.len() as u64 {
        return 0;
    }
    let rest = &bytes[from as usize..];
    let count = step.min(into.len()).min(rest.len());
    into[..count].copy_from_slice(&rest[..count]);
    count
}

/// Adds bytes to a vector that has capacity for them, so it takes no memory.
pub fn push_all(all: &mut Vec<u8>, bytes: &[u8])
    requires { vec_len all.old + length bytes.now ≤ vec_capacity all.old }
    ensures items { all.new.items ≡ all.old.items ++ bytes.now }
    ensures len { vec_len all.new ≡ vec_len all.old + length bytes.now }
    ensures capacity { vec_capacity all.old ≤ vec_capacity all.new }
{
    let _ = all.extend_from_slice(bytes);
}

/// Puts bytes in place of some that are there, in a vector that has capacity for them, so it takes no memory.
pub fn splice(all: &mut Vec<u8>, at: usize, gone: usize, bytes: &[u8])
    requires within { at + gone ≤ vec_len all.old }
    requires fits { vec_len all.old + length bytes.now ≤ vec_capacity all.old + gone }
    ensures items { all.new.items ≡ take at all.old.items
        ++ (bytes.now ++ drop (at + gone) all.old.items) }
    ensures len { vec_len all.new + gone ≡ vec_len all.old + length bytes.now }
    ensures capacity { vec_capacity all.old ≤ vec_capacity all.new }
{
    take_out(all, at, gone);
    put_in(all, at, bytes);
}

/// Takes out some bytes.
fn take_out(all: &mut Vec<u8>, at: usize, gone: usize)
    requires { at + gone ≤ vec_len all.old }
    ensures items { all.new.items ≡ take at all.old.items ++ drop (at + gone) all.old.items }
    ensures len { vec_len all.new + gone ≡ vec_len all.old }
    ensures capacity { vec_capacity all.new ≡ vec_capacity all.old }
{
    all[at..].rotate_left(gone);
    let left = all.len() - gone;
    all.truncate(left);
}

/// Puts in some bytes, within the capacity.
fn put_in(all: &mut Vec<u8>, at: usize, bytes: &[u8])
    requires within { at ≤ vec_len all.old }
    requires fits { vec_len all.old + length bytes.now ≤ vec_capacity all.old }
    ensures items { all.new.items ≡ take at all.old.items ++ (bytes.now ++ drop at all.old.items) }
    ensures len { vec_len all.new ≡ vec_len all.old + length bytes.now }
    ensures capacity { vec_capacity all.old ≤ vec_capacity all.new }
{
    push_all(all, bytes);
    all[at..].rotate_right(bytes.len());
}
