// Boards made by rule as they are before they are filled, and the line before a refill's report.
ghost use Rattle.std.specs.Prelude.{◌≤◌};

use board_gen::generate;
use desk::MemoryDesk;
use grid_num::Memory;
use output_rules::refilled_text;
use std::alloc::Global;
use std::str;

/// What a board is made of: a seed, and from 1 to 200 cells along each side.
#[derive(Clone, Copy)]
struct Recipe {
    seed: u64,
    size: u32,
    ghost least: { 1 ≤ size },
    ghost most: { size ≤ 200 },
}

/// The recipe of the words, and the file's name behind them.
fn recipe_of(words: &str) -> Option<(Recipe, &str)> {
    let (seed, rest) = words.split_once(' ')?;
    let (size, name) = rest.split_once(' ')?;
    let seed = seed.parse::<u64>().ok()?;
    let size = size.parse::<u32>().ok()?;
    if size < 1 || size > 200 {
        return None;
    }
    Some((Recipe { seed, size }, name))
}

/// Puts the board of a seed and a size into a file, before it is filled.
pub fn make_shown(alloc: Global, words: &str, desk: &mut MemoryDesk) -> Result<String, Memory> {
    let Some((recipe, name)) = recipe_of(words) else {
        return Ok(format!(in alloc; "make {words} isn't understood\n")?);
    };
    let board = generate(alloc, recipe.seed, recipe.size)?;
    desk.put(name, &board)?;
    Ok(format!(in alloc; "make {words}\n")?)
}

/// The line before the report of a board of which so many tasks were filled again.
pub fn refilled_shown(alloc: Global, tasks: &str) -> Result<String, Memory> {
    let Ok(tasks) = tasks.parse::<u32>() else {
        return Ok(format!(in alloc; "refilled {tasks} isn't understood\n")?);
    };
    let line = refilled_text(alloc, tasks)?;
    Ok(String::from_str(alloc, str::from_utf8(&line).unwrap_or("no text"))?)
}
