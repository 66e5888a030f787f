// Names that were seen, to tell one that comes again.
ghost use Rattle.std.specs.Prelude.{◌≡◌, ℕ, List, [], ◌||◌, not, OnOk, IfOk};
ghost use Rattle.std.specs.Str.{bytes_eq};
ghost use Rattle.board_text.specs.Layers.{is_among};

use grid_num::Memory;
use indexmap::IndexSet;
use std::alloc::Global;
use std::marker::Model;

/// Names, each once, and found by its hash. Contracts see the list of them.
#[derive(Drop)]
pub struct Seen {
    names: IndexSet<Vec<u8>>,
}

impl Model for Seen {
    ghost use Rattle.std.specs.Prelude.{ℕ, List, map};

    ghost Value = { List (List ℕ) };

    ghost view = { λ s. map (λ v. v.items) s.names.keys };
}

impl Seen {
    /// No names.
    pub fn new(alloc: Global) -> Seen
        ensures { result ≡ [] }
    {
        Seen {
            names: IndexSet::new(alloc),
        }
    }

    /// Puts a name to the others. Whether it is new is answered.
    ///
    /// # Errors
    ///
    /// Want of memory.
    pub fn put(&mut self, name: Vec<u8>) -> Result<bool, Memory>
        ensures first { IfOk result (λ new. new ≡ not (is_among self.old name.items)) }
        ensures kept { OnOk result ((other : List ℕ) → is_among self.new other ≡ (bytes_eq name.items other || is_among self.old other)) }
    {
        let new = self.names.insert(name)?;
        Ok(new)
    }
}
