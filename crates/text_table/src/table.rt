//! Texts, numbered in the order in which they were first seen.
ghost use Rattle.std.specs.Prelude.{◌≡◌, ◌<◌, ◌≤◌, [], length, slice_get, option_map, IfOk, IfSome, OnOk, OnErr};
ghost use Rattle.text_table.specs.Tables.{index_of, number_of, texts_of, with_text};

use indexmap::IndexSet;
use std::alloc::{AllocError, Global};
use std::marker::Model;

/// Texts, none twice. Contracts see the list of them, in the order in which they were added; a text's number is its
/// index there, from 0.
#[derive(Drop)]
pub struct TextTable {
    set: IndexSet<Vec<u8>>,
}

impl Model for TextTable {
    ghost use Rattle.std.specs.Prelude.{List, ℕ};
    ghost use Rattle.text_table.specs.Tables.{texts_of};

    ghost Value = { List (List ℕ) };

    ghost view = { λ table. texts_of table.set.keys };
}

impl TextTable {
    /// The table of no texts. It takes no memory.
    pub fn new(alloc: Global) -> TextTable
        ensures { result ≡ [] }
    {
        TextTable {
            set: IndexSet::new(alloc),
        }
    }

    /// The table of no texts, with room for as many.
    pub fn with_capacity(alloc: Global, count: usize) -> Result<TextTable, AllocError>
        ensures { IfOk result (λ table. table ≡ []) }
    {
        Ok(TextTable {
            set: IndexSet::with_capacity(alloc, count)?,
        })
    }

    /// How many texts it has.
    pub fn len(&self) -> usize
        ensures { result ≡ length self.now }
    {
        self.set.len()
    }

    /// Adds the text where it is not there yet, and answers its number. A text that is there takes no memory.
    pub fn add(&mut self, alloc: Global, text: &[u8]) -> Result<usize, AllocError>
        ensures ok { OnOk result (self.new ≡ with_text self.old text.now) }
        ensures number { IfOk result (λ number. number ≡ index_of self.old text.now) }
        ensures err { OnErr result (self.new ≡ self.old) }
    {
        if let Some(number) = self.number_of(text) {
            return Ok(number);
        }
        let (number, _) = self.set.insert_full(Vec::from_slice(alloc, text)?)?;
        Ok(number)
    }

    /// The text's number.
    pub fn number_of(&self, text: &[u8]) -> Option<usize>
        ensures value { result ≡ number_of self.now text.now }
        ensures within { IfSome result (λ number. number < length self.now) }
    {
        self.set.get_index_of(text)
    }

    /// The text's number, or, where it is not there, the number that it would get.
    pub fn index_of(&self, text: &[u8]) -> usize
        ensures index { result ≡ index_of self.now text.now }
        ensures within { result ≤ length self.now }
    {
        match self.number_of(text) {
            Some(number) => number,
            None => self.len(),
        }
    }

    /// Its texts, by their numbers.
    pub fn texts(&self) -> &[Vec<u8>]
        ensures { texts_of result.now ≡ self.now }
    {
        self.set.as_slice()
    }

    /// The text of this number.
    pub fn text(&self, number: usize) -> Option<&[u8]>
        ensures { option_map (λ text. text.now) result ≡ slice_get self.now number }
    {
        let text = self.set.get_index(number)?;
        Some(text.as_slice())
    }
}
