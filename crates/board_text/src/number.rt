// Numbers: what a text spells, and what is wrong with one that spells none.
ghost use Rattle.std.specs.Prelude.{◌≡◌, ℕ, ℤ, pos, ◌+◌, ◌*◌, ◌-◌, ◌<◌, ◌≤◌, ◌^◌, ◌↔◌, List, length, min, map, option_map, slice_get, IfOk, IsTrue, Some, None};
ghost use Rattle.std.specs.List.{All, list_all};
ghost use Rattle.std.specs.Char.{IsAsciiDigit, is_ascii_digit};
ghost use Rattle.grid_num.specs.Spelling.{number};
ghost use Rattle.grid_num.specs.Length.{IsInRange, IsLength};
ghost use Rattle.grid_num.specs.Area.{HasAreaFault, IsArea};
ghost use Rattle.grid_num.specs.Faults.{HasFault};
ghost use Rattle.grid_num.specs.declared.read.NumFault.{NumFault};
ghost use Rattle.board_text.specs.Numbers.{length_fault, length_of, area_fault, area_number, whole_fault, whole_number, text_fault, item_fault, if_there, fault_at, length_fault_at, area_fault_at, whole_fault_at, point_fault, first_of, is_short, length_at, value_at};
ghost use Rattle.board_text.specs.Items.{point_at};

use crate::Part;
use grid_num::{Memory, NumFault, Point, read_area, read_mm};
use std::alloc::Global;

/// What is wrong with a text from which a length is wanted.
pub fn length_fault(text: &[u8]) -> Option<NumFault>
    ensures { result ≡ length_fault text.now }
{
    match read_mm(text) {
        Ok(_) => None,
        Err(fault) => Some(fault),
    }
}

/// The length that a text spells, in nanometres; 0 where it spells none.
pub fn length_of(text: &[u8]) -> i64
    ensures value { result ≡ length_of text.now }
    ensures range { IsInRange result }
{
    match read_mm(text) {
        Ok(length) => length.get(),
        Err(_) => 0,
    }
}

/// What is wrong with a text from which an area is wanted.
pub fn area_fault(text: &[u8]) -> Option<NumFault>
    ensures { result ≡ area_fault text.now }
{
    match read_area(text) {
        Ok(_) => None,
        Err(fault) => Some(fault),
    }
}

/// The area that a text spells, in millionths of a square millimetre; 0 where it spells none.
pub fn area_number(text: &[u8]) -> u64
    ensures { result ≡ area_number text.now }
{
    match read_area(text) {
        Ok(area) => area,
        Err(_) => 0,
    }
}

/// Whether all bytes are digits.
pub fn are_digits(text: &[u8]) -> bool
    ensures value { result ≡ list_all is_ascii_digit text.now }
    ensures all { IsTrue result ↔ All IsAsciiDigit text.now }
{
    text.iter().all(|byte| byte.is_ascii_digit())
}

/// The number of some digits, where all from 2 ^ 32 on count as one.
fn capped_number(digits: &[u8]) -> u64
    requires { All IsAsciiDigit digits.now }
    ensures { result ≡ min 4294967296 (number digits.now) }
{
    let mut sum = 0;
    for digit in digits {
        sum = (10 * sum + u64::from(*digit - b'0')).min(1 << 32);
    }
    sum
}

/// What is wrong with a text from which a whole number is wanted.
pub fn whole_fault(text: &[u8]) -> Option<NumFault>
    ensures { result ≡ whole_fault text.now }
{
    if !are_digits(text) || text.is_empty() {
        return Some(NumFault::NotANumber);
    }
    if capped_number(text) < 1 << 32 {
        None
    } else {
        Some(NumFault::OutOfRange)
    }
}

/// The whole number that a text spells; 0 where it spells none.
pub fn whole_number(text: &[u8]) -> u32
    ensures { result ≡ whole_number text.now }
{
    if !are_digits(text) || text.is_empty() {
        return 0;
    }
    let number = capped_number(text);
    if number < 1 << 32 { number as u32 } else { 0 }
}

/// The first of some faults, if there is one.
pub fn first_of(faults: &[Option<NumFault>]) -> Option<NumFault>
    ensures { result ≡ first_of faults.now }
{
    'each: for fault in faults {
        if fault.is_some() {
            return *fault;
        }
    }
    None
}

impl<'a> Part<'a> {
    /// What is wrong with an item from which a length is wanted.
    ///
    /// # Errors
    ///
    /// Want of memory.
    pub fn length_fault(&self, alloc: Global) -> Result<Option<NumFault>, Memory>
        ensures { IfOk result (λ f. f ≡ item_fault length_fault self.now.bytes self.now.item) }
    {
        match self.text(alloc)? {
            Some(text) => Ok(length_fault(&text)),
            None => Ok(Some(NumFault::NotANumber)),
        }
    }

    /// What is wrong with an item from which an area is wanted.
    ///
    /// # Errors
    ///
    /// Want of memory.
    pub fn area_fault(&self, alloc: Global) -> Result<Option<NumFault>, Memory>
        ensures { IfOk result (λ f. f ≡ item_fault area_fault self.now.bytes self.now.item) }
    {
        match self.text(alloc)? {
            Some(text) => Ok(area_fault(&text)),
            None => Ok(Some(NumFault::NotANumber)),
        }
    }

    /// What is wrong with an item from which a whole number is wanted.
    ///
    /// # Errors
    ///
    /// Want of memory.
    pub fn whole_fault(&self, alloc: Global) -> Result<Option<NumFault>, Memory>
        ensures { IfOk result (λ f. f ≡ item_fault whole_fault self.now.bytes self.now.item) }
    {
        match self.text(alloc)? {
            Some(text) => Ok(whole_fault(&text)),
            None => Ok(Some(NumFault::NotANumber)),
        }
    }

    /// What is wrong with the length at a place behind the head.
    ///
    /// # Errors
    ///
    /// Want of memory.
    pub fn length_fault_at(&self, alloc: Global, place: usize) -> Result<Option<NumFault>, Memory>
        ensures { IfOk result (λ f. f ≡ length_fault_at self.now.bytes place (Some self.now.item)) }
    {
        match self.behind(place) {
            Some(item) => item.length_fault(alloc),
            None => Ok(None),
        }
    }

    /// What is wrong with the area at a place behind the head.
    ///
    /// # Errors
    ///
    /// Want of memory.
    pub fn area_fault_at(&self, alloc: Global, place: usize) -> Result<Option<NumFault>, Memory>
        ensures { IfOk result (λ f. f ≡ area_fault_at self.now.bytes place (Some self.now.item)) }
    {
        match self.behind(place) {
            Some(item) => item.area_fault(alloc),
            None => Ok(None),
        }
    }

    /// What is wrong with the whole number at a place behind the head.
    ///
    /// # Errors
    ///
    /// Want of memory.
    pub fn whole_fault_at(&self, alloc: Global, place: usize) -> Result<Option<NumFault>, Memory>
        ensures { IfOk result (λ f. f ≡ whole_fault_at self.now.bytes place (Some self.now.item)) }
    {
        match self.behind(place) {
            Some(item) => item.whole_fault(alloc),
            None => Ok(None),
        }
    }

    /// What is wrong with the point behind the head.
    ///
    /// # Errors
    ///
    /// Want of memory.
    pub fn point_fault(&self, alloc: Global) -> Result<Option<NumFault>, Memory>
        ensures { IfOk result (λ f. f ≡ point_fault self.now.bytes (Some self.now.item)) }
    {
        let x = self.length_fault_at(alloc, 0)?;
        let y = self.length_fault_at(alloc, 1)?;
        Ok(first_of(&[x, y]))
    }

    /// The length at a place behind the head, in nanometres; 0 where none stands there.
    ///
    /// # Errors
    ///
    /// Want of memory.
    pub fn length_at(&self, alloc: Global, place: usize) -> Result<i64, Memory>
        ensures value { IfOk result (λ nm. nm ≡ length_at self.now.bytes place (Some self.now.item)) }
        ensures range { IfOk result IsInRange }
    {
        match self.text_at(alloc, place)? {
            Some(text) => Ok(length_of(&text)),
            None => Ok(0),
        }
    }

    /// The whole number at a place behind the head; 0 where none stands there.
    ///
    /// # Errors
    ///
    /// Want of memory.
    pub fn whole_at(&self, alloc: Global, place: usize) -> Result<u32, Memory>
        ensures { IfOk result (λ n. n ≡ value_at whole_number self.now.bytes place 0 (Some self.now.item)) }
    {
        match self.text_at(alloc, place)? {
            Some(text) => Ok(whole_number(&text)),
            None => Ok(0),
        }
    }

    /// The point behind the head, in nanometres.
    ///
    /// # Errors
    ///
    /// Want of memory.
    pub fn point(&self, alloc: Global) -> Result<Point, Memory>
        ensures value { IfOk result (λ p. p ≡ point_at self.now.bytes (Some self.now.item)) }
        ensures range { IfOk result (λ p. IsInRange p.x × IsInRange p.y) }
    {
        let x = self.length_at(alloc, 0)?;
        let y = self.length_at(alloc, 1)?;
        Ok(Point { x, y })
    }

    /// Whether fewer than n items stand behind the head.
    pub fn is_short(&self, n: usize) -> bool
        ensures { result ≡ is_short n (Some self.now.item) }
    {
        let len = self.len();
        if len > 0 { len - 1 < n } else { 0 < n }
    }
}

/// An area is read here as `grid_num` reads it: the same areas, and the same faults.
pub fn area_law()
    ensures area { (text : List ℕ) (area : ℕ) → IsArea text area → (area_fault text ≡ None) × (area ≡ area_number text) }
    ensures fault { (text : List ℕ) (fault : NumFault) → HasAreaFault text fault → (area_fault text ≡ Some fault) × (0 ≡ area_number text) }
{}

/// A length is read here as `grid_num` reads it: the same lengths, and the same faults.
pub fn length_law()
    ensures length { (text : List ℕ) (nm : ℤ) → IsLength text nm → (length_fault text ≡ None) × (nm ≡ length_of text) }
    ensures fault { (text : List ℕ) (fault : NumFault) → HasFault text fault → (length_fault text ≡ Some fault) × (pos 0 ≡ length_of text) }
{}
