// Stamps, each with the thing that it belongs to.
ghost use Rattle.std.specs.Prelude.{◌≡◌, ℕ, List, [], ◌||◌, OnOk, OnErr};
ghost use Rattle.std.specs.Option.{option_or};
ghost use Rattle.board_text.specs.Layers.{is_among};
ghost use Rattle.board_items.specs.Stamps.{Table, stamped, stamps_of, with_stamp, with_stamps};

use board_text::Stamped;
use grid_num::Memory;
use indexmap::IndexMap;
use std::alloc::Global;
use std::marker::Model;

/// Stamps in their order, each once, with the first thing that has it, and found by its hash. Contracts see the list of
/// pairs.
#[derive(Drop)]
pub struct Stamps {
    things: IndexMap<Vec<u8>, Stamped>,
}

impl Model for Stamps {
    ghost use Rattle.std.specs.Prelude.{ℕ, List, map};
    ghost use Rattle.board_text.specs.declared.stamped.Stamped.{Stamped};

    ghost Value = { List (List ℕ × Stamped) };

    ghost view = { λ s. map (λ e. (e.0.items, e.1)) s.things.entries };
}

impl Stamps {
    /// No stamps.
    pub fn new(alloc: Global) -> Stamps
        ensures { result ≡ [] }
    {
        Stamps {
            things: IndexMap::new(alloc),
        }
    }

    /// Puts a stamp behind the others, where it isn't one of them; else the first thing with the stamp stays.
    ///
    /// # Errors
    ///
    /// Want of memory; the stamps are as they were.
    pub fn put(&mut self, stamp: Vec<u8>, thing: Stamped) -> Result<(), Memory>
        ensures ok { OnOk result (self.new ≡ with_stamp self.old stamp.items thing) }
        ensures err { OnErr result (self.new ≡ self.old) }
    {
        if !self.has(stamp.as_slice()) {
            self.things.insert(stamp, thing)?;
        }
        Ok(())
    }

    /// Whether this is one of the stamps.
    pub fn has(&self, stamp: &[u8]) -> bool
        ensures { result ≡ is_among (stamps_of self.now) stamp.now }
    {
        self.things.contains_key(stamp)
    }

    /// The first thing with this stamp.
    pub fn find(&self, stamp: &[u8]) -> Option<Stamped>
        ensures { result ≡ stamped self.now stamp.now }
    {
        match self.things.get(stamp) {
            Some(thing) => Some(*thing),
            None => None,
        }
    }
}

/// After several things are put in, one after another, a stamp is there where it was before or one of them has it, and
/// belongs to what it belonged to before, else to the first of them that has it.
pub fn stamps_law()
    ensures there { (table more : Table) (stamp : List ℕ) → is_among (stamps_of (with_stamps table more)) stamp ≡ (is_among (stamps_of table) stamp || is_among (stamps_of more) stamp) }
    ensures first { (table more : Table) (stamp : List ℕ) → stamped (with_stamps table more) stamp ≡ option_or (stamped table stamp) (stamped more stamp) }
{}
