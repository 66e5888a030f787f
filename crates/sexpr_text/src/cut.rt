// Where the walk to a fault stands in a character of UTF-8.
ghost use Rattle.std.specs.Prelude.{◌≡◌, ◌≢◌, true, false};
ghost use Rattle.sexpr_text.specs.Inner.Cut.{lead, follows, cut_step};
ghost use Rattle.sexpr_text.specs.Inner.Cut.Cut.{Next, Broken};
ghost use Rattle.sexpr_text.specs.Inner.Seen.{seen_cut};

/// Where a reader stands in a character.
#[derive(Clone, Copy, Debug, PartialEq, Eq)]
pub enum Cutting {
    /// Between characters.
    Whole,
    /// The next byte is one from the first number to the second, and the third number of bytes follow it.
    Wants(u8, u8, u8),
    /// No UTF-8 begins so.
    Bad,
}

/// Behind the first byte of a character.
fn lead_cut(byte: u8) -> Cutting
    ensures { seen_cut result ≡ lead byte }
{
    if byte < 128 {
        Cutting::Whole
    } else if byte < 194 {
        Cutting::Bad
    } else if byte < 224 {
        Cutting::Wants(128, 191, 0)
    } else if byte == 224 {
        Cutting::Wants(160, 191, 1)
    } else if byte == 237 {
        Cutting::Wants(128, 159, 1)
    } else if byte < 240 {
        Cutting::Wants(128, 191, 1)
    } else if byte == 240 {
        Cutting::Wants(144, 191, 2)
    } else if byte < 244 {
        Cutting::Wants(128, 191, 2)
    } else if byte == 244 {
        Cutting::Wants(128, 143, 2)
    } else {
        Cutting::Bad
    }
}

/// Behind a byte which so many bytes of the character follow.
fn rest_cut(left: u8) -> Cutting
    ensures { seen_cut result ≡ follows left }
{
    if left == 0 {
        Cutting::Whole
    } else {
        Cutting::Wants(128, 191, left - 1)
    }
}

/// Behind a further byte of a character.
fn next_cut(low: u8, high: u8, left: u8, byte: u8) -> Cutting
    ensures { seen_cut result ≡ cut_step (Next low high left) byte }
{
    if low <= byte && byte <= high {
        rest_cut(left)
    } else {
        Cutting::Bad
    }
}

/// Where a byte leads.
pub fn follow_cut(cut: Cutting, byte: u8) -> Cutting
    ensures { seen_cut result ≡ cut_step (seen_cut cut) byte }
{
    match cut {
        Cutting::Whole => lead_cut(byte),
        Cutting::Wants(low, high, left) => next_cut(low, high, left, byte),
        Cutting::Bad => Cutting::Bad,
    }
}

pub fn is_bad(cut: Cutting) -> bool
    ensures yes { result ≡ true → seen_cut cut ≡ Broken }
    ensures no { result ≡ false → seen_cut cut ≢ Broken }
{
    match cut {
        Cutting::Bad => true,
        _ => false,
    }
}
