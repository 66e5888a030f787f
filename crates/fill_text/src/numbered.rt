// The parts of fills, counted.
ghost use Rattle.std.specs.Prelude.{◌≡◌, ◌+◌, ◌<◌, ◌-◌, min, cond, length, map, get_or, IfOk, OnOk};
ghost use Rattle.std.specs.Arc.{arc_value};
ghost use Rattle.fill_rules.specs.Made.{no_fill};
ghost use Rattle.fill_rules.specs.Nodes.{firsts_from};
ghost use Rattle.fill_text.specs.Inner.Numbers.{AreNumbers, IsNumbered, number_of_part};

use clusters::{fill_at, parts_of};
use fills::Fill;
use grid_num::Memory;
use std::alloc::Global;
use std::sync::Arc;

/// The parts of one fill, told by its rank: at the place of a piece that begins a part stands the part's number, from 1.
#[derive(Drop)]
pub struct Numbered {
    fill: u32,
    numbers: Vec<u32>,
}

impl Numbered {
    /// The parts of the fill of that rank; past the last fill there are none.
    pub fn of(alloc: Global, fills: &[Arc<Fill>], fill: u32) -> Result<Numbered, Memory>
        ensures { IfOk result (λ n. IsNumbered (map arc_value fills.now) n.fill n.numbers.items) }
    {
        let numbers = numbers_of(alloc, parts_at(fills, fill))?;
        Ok(Numbered { fill, numbers })
    }

    /// The number of the part of a fill that begins with a piece. It is counted anew where the fill is another than before.
    pub fn number(
        &mut self,
        alloc: Global,
        fills: &[Arc<Fill>],
        fill: u32,
        first: u32,
    ) -> Result<u32, Memory>
        requires { IsNumbered (map arc_value fills.now) self.old.fill self.old.numbers.items }
        ensures number { IfOk result (λ n. n ≡ number_of_part (get_or (map arc_value fills.now) fill no_fill).parts first) }
        ensures kept { OnOk result (IsNumbered (map arc_value fills.now) self.new.fill self.new.numbers.items) }
    {
        self.turn_to(alloc, fills, fill)?;
        Ok(number_in(&self.numbers, first))
    }

    fn turn_to(&mut self, alloc: Global, fills: &[Arc<Fill>], fill: u32) -> Result<(), Memory>
        requires { IsNumbered (map arc_value fills.now) self.old.fill self.old.numbers.items }
        ensures fill { OnOk result (self.new.fill ≡ fill) }
        ensures kept { OnOk result (IsNumbered (map arc_value fills.now) self.new.fill self.new.numbers.items) }
    {
        if self.fill == fill {
            return Ok(());
        }
        let numbers = numbers_of(alloc, parts_at(fills, fill))?;
        self.numbers = numbers;
        self.fill = fill;
        Ok(())
    }
}

// The labels of the pieces of a fill; none past the last fill.
fn parts_at(fills: &[Arc<Fill>], fill: u32) -> &[u32]
    ensures { result.now ≡ (get_or (map arc_value fills.now) fill no_fill).parts }
{
    if fill as usize >= fills.len() {
        return &[];
    }
    parts_of(fill_at(fills, fill as usize))
}

// At each place one more than the parts that begin before it.
fn numbers_of(alloc: Global, parts: &[u32]) -> Result<Vec<u32>, Memory>
    ensures { IfOk result (λ numbers. AreNumbers parts.now numbers.items) }
{
    let mut next = 1;
    let mut numbers = Vec::new(alloc);
    numbers.push(next)?;
    'each: for k in 0..parts.len() {
        next = one_more_if(next, parts[k] as usize == k)?;
        numbers.push(next)?;
    }
    Ok(numbers)
}

// The number at the place, or at the last one.
fn number_in(numbers: &[u32], first: u32) -> u32
    requires { 0 < length numbers.now }
    ensures { result ≡ get_or numbers.now (min first (length numbers.now - 1)) 0 }
{
    let place = (first as usize).min(numbers.len() - 1);
    numbers[place]
}

/// One more where it is wanted; more than 32 bits hold are want of memory.
pub fn one_more_if(count: u32, wanted: bool) -> Result<u32, Memory>
    ensures { IfOk result (λ n. n ≡ cond wanted (count + 1) count) }
{
    if wanted {
        count.checked_add(1).ok_or(Memory)
    } else {
        Ok(count)
    }
}

/// How many parts there are: each begins with the piece that is the first of its own.
pub fn part_count(parts: &[u32]) -> Result<u32, Memory>
    ensures { IfOk result (λ n. n ≡ length (firsts_from 0 parts.now)) }
{
    let mut count = 0;
    'each: for k in 0..parts.len() {
        count = one_more_if(count, parts[k] as usize == k)?;
    }
    Ok(count)
}
