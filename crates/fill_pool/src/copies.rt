// The fills that were handed in, one slot a task.
ghost use Rattle.std.specs.Prelude.{◌≡◌, ℕ, ◌+◌, ◌≤◌, List, ◌++◌, length, get_or, map, Some, None, IfOk, vec_capacity};
ghost use Rattle.std.specs.List.{All};
ghost use Rattle.std.specs.Arc.{arc_value};
ghost use Rattle.fill_pool.specs.Inner.Slots.{filled, IsFull, made_at};

use fills::Fill;
use grid_num::Memory;
use std::alloc::Global;
use std::sync::Arc;

/// Slots without fills.
pub fn no_fills(alloc: Global, count: usize) -> Result<Vec<Option<Arc<Fill>>>, Memory>
    ensures { IfOk result (λ slots. length slots.items ≡ count) }
{
    let mut slots = Vec::with_capacity(alloc, count)?;
    'each: for _i in 0..count {
        slots.push(None)?;
    }
    Ok(slots)
}

/// The fill in the slot.
fn fill_at(fills: &[Option<Arc<Fill>>], i: usize) -> &Arc<Fill>
    requires { IsFull (get_or (map filled fills.now) i None) }
    ensures { arc_value result.now ≡ made_at (map filled fills.now) i }
{
    match &fills[i] {
        Some(fill) => fill,
        None => unreachable!(),
    }
}

/// Puts the fills in the slots of the row behind those of the list. Refuses for want of memory alone.
pub fn copy_row(
    fills: &[Option<Arc<Fill>>],
    row: &[u32],
    into: &mut Vec<Arc<Fill>>,
) -> Result<(), Memory>
    requires { All (λ j. IsFull (get_or (map filled fills.now) j None)) row.now }
    ensures { IfOk result (λ _. map arc_value into.new.items
        ≡ map arc_value into.old.items ++ map (made_at (map filled fills.now)) row.now) }
{
    'each: for j in row {
        let fill = Arc::try_clone(fill_at(fills, *j as usize))?;
        into.push(fill)?;
    }
    Ok(())
}

/// The fills of all slots, in the list that has room for them.
pub fn into_all(fills: Vec<Option<Arc<Fill>>>, all: Vec<Arc<Fill>>) -> Vec<Arc<Fill>>
    requires full { All IsFull (map filled fills.items) }
    requires room { length all.items + length fills.items ≤ vec_capacity all }
    ensures { map Some (map arc_value result.items)
        ≡ map Some (map arc_value all.items) ++ map filled fills.items }
{
    let mut all = all;
    'each: for fill in fills {
        match fill {
            Some(fill) => {
                let _pushed = all.push(fill);
            }
            None => unreachable!(),
        }
    }
    all
}
