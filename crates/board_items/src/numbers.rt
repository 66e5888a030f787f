// Numbers, to be looked up.
ghost use Rattle.std.specs.Prelude.{◌≡◌, ◌++◌, ◌∷◌, [], length, OnOk, OnErr};
ghost use Rattle.board_text.specs.Items.{has_number};

use grid_num::Memory;
use indexmap::IndexSet;
use std::alloc::Global;
use std::marker::Model;

/// Numbers in their order, each found by its hash. Contracts see the list.
#[derive(Drop)]
pub struct Numbers {
    numbers: Vec<u32>,
    found: IndexSet<u32>,
}

impl Model for Numbers {
    ghost use Rattle.std.specs.Prelude.{ℕ, List};
    ghost use Rattle.board_items.specs.Found.{AreFound};

    ghost Value = { List ℕ };

    ghost view = { λ n. n.numbers.items };

    ghost invariant = { λ n. AreFound n.found.keys n.numbers.items };
}

impl Numbers {
    /// No numbers.
    pub fn new(alloc: Global) -> Numbers
        ensures { result ≡ [] }
    {
        Numbers {
            numbers: Vec::new(alloc),
            found: IndexSet::new(alloc),
        }
    }

    /// Puts a number behind the others.
    ///
    /// # Errors
    ///
    /// Want of memory; the numbers are as they were.
    pub fn push(&mut self, number: u32) -> Result<(), Memory>
        ensures ok { OnOk result (self.new ≡ self.old ++ number ∷ []) }
        ensures err { OnErr result (self.new ≡ self.old) }
    {
        self.numbers.reserve(1)?;
        self.found.insert(number)?;
        self.numbers.push(number)?;
        Ok(())
    }

    /// Whether this is one of them.
    pub fn has(&self, number: u32) -> bool
        ensures { result ≡ has_number self.now number }
    {
        self.found.contains(&number)
    }

    /// All of them, in their order.
    pub fn numbers(&self) -> &[u32]
        ensures { result.now ≡ self.now }
    {
        self.numbers.as_slice()
    }
}
