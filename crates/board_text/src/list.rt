// Numbers in the first list with a head, where there is such a list.
ghost use Rattle.std.specs.Prelude.{◌≡◌, ℕ, ℤ, pos, not, IfOk};
ghost use Rattle.grid_num.specs.Length.{IsInRange};
ghost use Rattle.board_text.specs.Fields.{list_of, has_list, list_in};
ghost use Rattle.board_text.specs.Numbers.{length_fault_at, whole_fault_at, point_fault, is_short, length_at, value_at, whole_number};
ghost use Rattle.board_text.specs.Items.{point_at, point_in, length_in, whole_in};

use crate::Part;
use grid_num::{Memory, NumFault, Point};
use std::alloc::Global;

impl<'a> Part<'a> {
    /// Whether there is a child list with this head.
    pub fn has(&self, name: &[u8]) -> bool
        ensures { result ≡ has_list self.now.bytes name.now self.now.item }
    {
        self.list(name).is_some()
    }

    /// What is wrong with the length in the list with this head.
    ///
    /// # Errors
    ///
    /// Want of memory.
    pub fn length_fault_in(&self, alloc: Global, name: &[u8]) -> Result<Option<NumFault>, Memory>
        ensures { IfOk result (λ f. f ≡ length_fault_at self.now.bytes 0 (list_of self.now.bytes name.now self.now.item)) }
    {
        match self.list(name) {
            Some(list) => list.length_fault_at(alloc, 0),
            None => Ok(None),
        }
    }

    /// What is wrong with the whole number in the list with this head.
    ///
    /// # Errors
    ///
    /// Want of memory.
    pub fn whole_fault_in(&self, alloc: Global, name: &[u8]) -> Result<Option<NumFault>, Memory>
        ensures { IfOk result (λ f. f ≡ whole_fault_at self.now.bytes 0 (list_of self.now.bytes name.now self.now.item)) }
    {
        match self.list(name) {
            Some(list) => list.whole_fault_at(alloc, 0),
            None => Ok(None),
        }
    }

    /// What is wrong with the point in the list with this head.
    ///
    /// # Errors
    ///
    /// Want of memory.
    pub fn point_fault_in(&self, alloc: Global, name: &[u8]) -> Result<Option<NumFault>, Memory>
        ensures { IfOk result (λ f. f ≡ point_fault self.now.bytes (list_of self.now.bytes name.now self.now.item)) }
    {
        match self.list(name) {
            Some(list) => list.point_fault(alloc),
            None => Ok(None),
        }
    }

    /// The length in the list with this head, in nanometres; 0 where there is none.
    ///
    /// # Errors
    ///
    /// Want of memory.
    pub fn length_in(&self, alloc: Global, name: &[u8]) -> Result<i64, Memory>
        ensures value { IfOk result (λ nm. nm ≡ length_in self.now.bytes name.now self.now.item) }
        ensures range { IfOk result IsInRange }
    {
        match self.list(name) {
            Some(list) => list.length_at(alloc, 0),
            None => Ok(0),
        }
    }

    /// The whole number in the list with this head; 0 where there is none.
    ///
    /// # Errors
    ///
    /// Want of memory.
    pub fn whole_in(&self, alloc: Global, name: &[u8]) -> Result<u32, Memory>
        ensures { IfOk result (λ n. n ≡ whole_in self.now.bytes name.now self.now.item) }
    {
        match self.list(name) {
            Some(list) => list.whole_at(alloc, 0),
            None => Ok(0),
        }
    }

    /// The point in the list with this head, in nanometres.
    ///
    /// # Errors
    ///
    /// Want of memory.
    pub fn point_in(&self, alloc: Global, name: &[u8]) -> Result<Point, Memory>
        ensures value { IfOk result (λ p. p ≡ point_in self.now.bytes name.now self.now.item) }
        ensures range { IfOk result (λ p. IsInRange p.x × IsInRange p.y) }
    {
        match self.list(name) {
            Some(list) => list.point(alloc),
            None => Ok(Point { x: 0, y: 0 }),
        }
    }

    /// Whether the list with this head is there, with fewer than n items behind its head.
    pub fn is_short_in(&self, name: &[u8], n: usize) -> bool
        ensures { result ≡ is_short n (list_of self.now.bytes name.now self.now.item) }
    {
        match self.list(name) {
            Some(list) => list.is_short(n),
            None => false,
        }
    }
}
