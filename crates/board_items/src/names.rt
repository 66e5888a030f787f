// LayerNames in their order, to be looked up.
ghost use Rattle.std.specs.Prelude.{◌≡◌, ◌≤◌, ◌++◌, ◌∷◌, [], length, map, OnOk, OnErr};
ghost use Rattle.board_text.specs.Layers.{is_among, layer_number};

use board_text::has_text;
use grid_num::Memory;
use std::alloc::Global;
use std::marker::Model;

/// LayerNames in their order. Contracts see the list.
#[derive(Drop)]
pub struct LayerNames {
    names: Vec<Vec<u8>>,
}

impl Model for LayerNames {
    ghost use Rattle.std.specs.Prelude.{ℕ, List, map};

    ghost Value = { List (List ℕ) };

    ghost view = { λ n. map (λ v. v.items) n.names.items };
}

impl LayerNames {
    /// No names.
    pub fn new(alloc: Global) -> LayerNames
        ensures { result ≡ [] }
    {
        LayerNames {
            names: Vec::new(alloc),
        }
    }

    /// Puts a name behind the others.
    ///
    /// # Errors
    ///
    /// Want of memory; the names are as they were.
    pub fn push(&mut self, name: Vec<u8>) -> Result<(), Memory>
        ensures ok { OnOk result (self.new ≡ self.old ++ name.items ∷ []) }
        ensures err { OnErr result (self.new ≡ self.old) }
    {
        self.names.push(name)?;
        Ok(())
    }

    /// How many there are.
    pub fn len(&self) -> usize
        ensures { result ≡ length self.now }
    {
        self.names.len()
    }

    /// All of them, in their order.
    pub fn names(&self) -> &[Vec<u8>]
        ensures { map (λ v. v.items) result.now ≡ self.now }
    {
        self.names.as_slice()
    }

    /// Whether this is one of them.
    pub fn has(&self, name: &[u8]) -> bool
        ensures { result ≡ is_among self.now name.now }
    {
        has_text(&self.names, name)
    }

    /// How many of them stand before a name; all where it isn't one of them.
    pub fn number(&self, name: &[u8]) -> u8
        requires { length self.now ≤ 32 }
        ensures { result ≡ layer_number self.now name.now }
    {
        place_of(&self.names, name) as u8
    }
}

fn place_of(names: &[Vec<u8>], name: &[u8]) -> usize
    ensures value { result ≡ layer_number (map (λ v. v.items) names.now) name.now }
    ensures within { result ≤ length names.now }
{
    let mut place = 0;
    'each: for other in names {
        if other.as_slice() == name {
            return place;
        }
        place += 1;
    }
    place
}
