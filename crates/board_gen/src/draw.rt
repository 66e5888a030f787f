// The numbers that are drawn for the cells, one after another.
ghost use Rattle.std.specs.Prelude.{◌≡◌, ◌≤◌};
ghost use Rattle.board_gen.specs.Generated as g;

/// The state after one more draw.
pub fn next(state: u64) -> u64
    ensures { result ≡ g.next state }
{
    ((state as u128 * 6364136223846793005 + 1442695040888963407) % 18446744073709551616) as u64
}

/// The number that a state gives.
pub fn drawn(state: u64) -> u64
    ensures { result ≡ g.drawn state }
{
    state / 8589934592
}

/// Where a cell's thing is along a row or column, in nanometres: its centre, moved.
pub fn place(cell: u64, moved: u64) -> u64
    requires { cell ≤ 200 }
    ensures value { result ≡ g.place cell moved }
    ensures least { 800000 ≤ result }
    ensures most { result ≤ 402000000 }
{
    2_000_000 * cell + 1_000_000 + 4_000 * (moved % 101) - 200_000
}
