// Lengths and sizes, in nanometres.
ghost use Rattle.std.specs.Prelude.{◌≡◌};
ghost use Rattle.grid_num.specs.Length.{IsInRange};
ghost use Rattle.board_text.specs.Items.{size_of, is_no_length, is_no_size};

/// A length that isn't negative; 0 for one that is.
pub fn size_of(nm: i64) -> u32
    requires { IsInRange nm }
    ensures { result ≡ size_of nm }
{
    if nm < 0 { 0 } else { nm as u32 }
}

/// Whether it is negative, or above 100 mm.
pub fn is_no_length(nm: i64) -> bool
    requires { IsInRange nm }
    ensures { result ≡ is_no_length nm }
{
    nm < 0 || nm > 100_000_000
}

/// Whether it is below 1 nm, or above 100 mm.
pub fn is_no_size(nm: i64) -> bool
    requires { IsInRange nm }
    ensures { result ≡ is_no_size nm }
{
    is_no_length(nm) || nm == 0
}
