// The words and strings behind the head of a list.
ghost use Rattle.std.specs.Prelude.{◌≡◌, List, map, option_map, IfOk};
ghost use Rattle.std.specs.List.{list_any};
ghost use Rattle.std.specs.Str.{bytes_eq};
ghost use Rattle.board_text.specs.Fields.{is_text, says, says_at, text_at, texts_of};

use crate::Part;
use grid_num::Memory;
use std::alloc::Global;

impl<'a> Part<'a> {
    /// The content of the word or string at a place behind the head.
    ///
    /// # Errors
    ///
    /// Want of memory.
    pub fn text_at(&self, alloc: Global, place: usize) -> Result<Option<Vec<u8>>, Memory>
        ensures { IfOk result (λ t. option_map (λ v. v.items) t ≡ text_at self.now.bytes place self.now.item) }
    {
        match self.behind(place) {
            Some(part) => part.text(alloc),
            None => Ok(None),
        }
    }

    /// Whether this text stands at a place behind the head.
    ///
    /// # Errors
    ///
    /// Want of memory.
    pub fn says_at(&self, alloc: Global, place: usize, text: &[u8]) -> Result<bool, Memory>
        ensures { IfOk result (λ yes. yes ≡ says_at self.now.bytes place text.now self.now.item) }
    {
        let found = self.text_at(alloc, place)?;
        Ok(is_text(&found, text))
    }

    /// The contents of all words and strings behind the head, in order.
    ///
    /// # Errors
    ///
    /// Want of memory.
    pub fn texts(&self, alloc: Global) -> Result<Vec<Vec<u8>>, Memory>
        ensures { IfOk result (λ v. map (λ t. t.items) v.items ≡ texts_of self.now.bytes self.now.item) }
    {
        let mut texts = Vec::new(alloc);
        'each: for place in 1..self.len() {
            if let Some(text) = self.child(place).text(alloc)? {
                texts.push(text)?;
            }
        }
        Ok(texts)
    }

    /// Whether this text stands anywhere behind the head.
    ///
    /// # Errors
    ///
    /// Want of memory.
    pub fn says(&self, alloc: Global, text: &[u8]) -> Result<bool, Memory>
        ensures { IfOk result (λ yes. yes ≡ says self.now.bytes text.now self.now.item) }
    {
        let texts = self.texts(alloc)?;
        Ok(has_text(&texts, text))
    }
}

/// Whether the text that was found is this one.
pub fn is_text(found: &Option<Vec<u8>>, text: &[u8]) -> bool
    ensures { result ≡ is_text text.now (option_map (λ v. v.items) found.now) }
{
    match found {
        Some(other) => other.as_slice() == text,
        None => false,
    }
}

/// Whether one of the texts is this one.
pub fn has_text(texts: &[Vec<u8>], text: &[u8]) -> bool
    ensures { result ≡ list_any (λ other. bytes_eq other text.now) (map (λ t. t.items) texts.now) }
{
    'each: for other in texts {
        if other.as_slice() == text {
            return true;
        }
    }
    false
}
