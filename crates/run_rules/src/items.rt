// How many vias and tracks a board has that is made of a seed: the draws of its cells are walked once more, and nothing is made.
ghost use Rattle.std.specs.Prelude.{◌≡◌, ◌+◌, ◌*◌, ◌≤◌};
ghost use Rattle.board_gen.specs.Generated as g;
ghost use Rattle.run_rules.specs.Words.{IsBoardSize};
ghost use Rattle.run_rules.specs.Items.{items_in};

/// The state after one more draw.
fn next(state: u64) -> u64
    ensures { result ≡ g.next state }
{
    ((state as u128 * 6364136223846793005 + 1442695040888963407) % 18446744073709551616) as u64
}

/// The number of items with a cell more, for which the draws came to this state.
fn counted(state: u64, items: u64) -> u64
    requires { items ≤ 1000000 }
    ensures value { result ≡ g.number_behind (g.drawn state) items }
    ensures most { result ≤ items + 1 }
{
    if state / 8589934592 % 4 == 3 {
        items
    } else {
        items + 1
    }
}

/// Where the walk over the cells stands.
#[derive(Clone, Copy, Drop)]
struct Walk {
    /// The state of the draws.
    state: u64,
    /// How many items there were so far.
    items: u64,
}

/// Where it stands behind a row of so many cells.
fn behind_row(walk: Walk, size: u64) -> Walk
    requires size { size ≤ 200 }
    requires items { walk.items ≤ 100000 }
    ensures state { result.state ≡ g.state_after walk.state size }
    ensures items { result.items ≡ g.number_after_cells walk.state walk.items size }
    ensures most { result.items ≤ walk.items + size }
{
    let mut state = walk.state;
    let mut items = walk.items;
    'cells: for _column in 0..size {
        state = next(state);
        items = counted(state, items);
    }
    Walk { state, items }
}

/// How many vias and tracks the board of this seed has, of `size` by `size` cells.
pub fn items_in(seed: u64, size: u32) -> u32
    requires { IsBoardSize size }
    ensures { result ≡ items_in seed size }
{
    let mut walk = Walk {
        state: seed,
        items: 0,
    };
    'rows: for _row in 0..size {
        walk = behind_row(walk, size as u64);
    }
    walk.items as u32
}
