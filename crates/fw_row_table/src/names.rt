//! Texts that are numbered.
ghost use Rattle.std.specs.Prelude.{◌≡◌, ◌^◌, ◌<◌, ◌≤◌, ◌+◌, ◌++◌, ◌↔◌, [], Some, length, map, slice_get, string_bytes, All, IfNone, IfOk, IfSome, IsSome, IsTrue, IsUtf8, OnOk, OnErr};

use crate::hashed::Hashed;
use crate::packed::Packed;
use indexmap::IndexSet;
use std::alloc::{AllocError, Global};
use std::marker::Model;

/// Texts, each once, numbered from 0 in the order in which they were first seen. The number of a text is its code.
///
/// While texts come, they are kept in a hash table. [`Names::shrink`] packs them into one buffer: a text then takes
/// 4 bytes beside its own, and looking one up takes a pass over all of them.
///
/// A contract sees the list of the texts in this order.
#[derive(Debug)]
pub struct Names {
    /// The first of the texts, packed.
    packed: Packed<u8>,
    /// The texts behind them, each with its hash.
    texts: IndexSet<Hashed<String>>,
}

impl Drop for Names {
    fn drop(self) {
        let Self {
            packed: _,
            texts: _,
        } = self;
    }
}

impl Model for Names {
    ghost use Rattle.std.specs.Prelude.{ℕ, ◌++◌, List, map, string_bytes};
    ghost use Rattle.fw_row_table.specs.Names.{AreKept};

    ghost Value = { List (List ℕ) };

    ghost view = { λ n. n.packed ++ map string_bytes n.texts.keys };

    ghost invariant = { λ n. AreKept n.packed (map string_bytes n.texts.keys) };
}

impl Names {
    ghost use Rattle.fw_row_table.specs.Names.{place_of, with_text, AreDistinct, AreNames};

    /// No text yet. It takes no memory.
    pub fn new(alloc: Global) -> Names
        ensures { result ≡ [] }
    {
        Names {
            packed: Packed::new(alloc),
            texts: IndexSet::new(alloc),
        }
    }

    /// How many texts there are. No text is there twice.
    pub fn len(&self) -> usize
        ensures count { result ≡ length self.now }
        ensures each_once { AreDistinct self.now }
        ensures few { result ≤ 2 ^ 30 }
    {
        self.packed.len() + self.texts.len()
    }

    /// The code of a text. A text that is new goes last. Where memory for it is refused, nothing changes.
    pub fn code(&mut self, text: &str) -> Result<u32, AllocError>
        requires { length self.old < 2 ^ 30 }
        ensures names { OnOk result (self.new ≡ with_text self.old text.now) }
        ensures place { IfOk result (λ code. code ≡ place_of self.new text.now) }
        ensures within { IfOk result (λ code. code < length self.new) }
        ensures few { length self.new ≤ length self.old + 1 }
        ensures refused { OnErr result (self.new ≡ self.old) }
    {
        let hashed = Hashed::new(text);
        match self.known(&hashed) {
            Some(code) => Ok(code),
            None => {
                let place = self.len();
                let kept = String::from_str(*self.texts.allocator(), text)?;
                self.texts.insert(hashed.with(kept))?;
                Ok(place as u32)
            }
        }
    }

    /// The code of a text, as [`Names::code`] has it, and what comes to be known is the same. Where the text has the code that it may have, it isn't
    /// looked up.
    pub fn code_near(&mut self, guess: Option<u32>, text: &str) -> Result<u32, AllocError>
        requires { length self.old < 2 ^ 30 }
        ensures names { OnOk result (self.new ≡ with_text self.old text.now) }
        ensures place { IfOk result (λ code. code ≡ place_of self.new text.now) }
        ensures within { IfOk result (λ code. code < length self.new) }
        ensures few { length self.new ≤ length self.old + 1 }
        ensures refused { OnErr result (self.new ≡ self.old) }
    {
        if let Some(place) = guess {
            if self.is_at(place, text) {
                return Ok(place);
            }
        }
        self.code(text)
    }

    // Whether a text is the one with this code.
    fn is_at(&self, code: u32, text: &str) -> bool
        ensures place { IsTrue result → code ≡ place_of self.now text.now }
        ensures within { IsTrue result → code < length self.now }
    {
        if code as usize >= self.len() {
            return false;
        }
        self.text(code) == text
    }

    /// Packs the texts, and gives back the memory that none needs. They stay in the hash table where memory is refused
    /// for that, or where they have 4 GiB or more together.
    pub fn shrink(&mut self)
        ensures { self.new ≡ self.old }
    {
        if self.texts.is_empty() {
            return;
        }
        let alloc = *self.texts.allocator();
        match pack(alloc, &self.packed, self.texts.as_slice()) {
            Ok(packed) => {
                self.packed = packed;
                self.texts = IndexSet::new(alloc);
            }
            Err(_) => self.texts.shrink_to_fit(),
        }
    }

    /// Texts as they stand. `None` exactly where a text is there twice, or where there are more than 2^30.
    pub fn of_texts(alloc: Global, texts: &[String]) -> Result<Option<Names>, AllocError>
        ensures some { IfOk result (λ made.
            IfSome made (λ names. names ≡ map string_bytes texts.now)) }
        ensures exactly { IfOk result (λ made.
            IsSome made ↔ AreNames (map string_bytes texts.now)) }
    {
        let count = texts.len();
        if count > 1 << 30 {
            return Ok(None);
        }
        let mut names = Names::new(alloc);
        for place in 0..count {
            let code = names.code(texts[place].as_str())?;
            if code as usize != place {
                return Ok(None);
            }
        }
        prove!(names.len() <= 1 << 30);
        Ok(Some(names))
    }

    /// The code that a text has, or would get as the next new one.
    pub fn place(&self, text: &str) -> u32
        ensures place { result ≡ place_of self.now text.now }
        ensures within { result ≤ 2 ^ 30 }
    {
        let count = self.len();
        match self.known(&Hashed::new(text)) {
            Some(code) => code,
            None => count as u32,
        }
    }

    // The code of a text that is there.
    fn known(&self, text: &Hashed<&str>) -> Option<u32>
        ensures place { IfSome result (λ code. code ≡ place_of self.now text.now.now) }
        ensures within { IfSome result (λ code. code < length self.now) }
        ensures new { IfNone result (place_of self.now text.now.now ≡ length self.now) }
    {
        if let Some(place) = self.packed.position(text.value().as_bytes()) {
            return Some(place as u32);
        }
        match self.texts.get_index_of(text) {
            Some(place) => Some((self.packed.len() + place) as u32),
            None => None,
        }
    }

    /// The text of a code.
    pub fn text(&self, code: u32) -> &str
        requires { code < length self.now }
        ensures { slice_get self.now code ≡ Some result.now }
    {
        let place = code as usize;
        let count = self.packed.len();
        if place < count {
            packed_text(&self.packed, place)
        } else {
            self.texts.as_slice()[place - count].value().as_str()
        }
    }
}

// The text at a place of packed ones. That each of them is text is known: no byte is looked at.
fn packed_text(packed: &Packed<u8>, place: usize) -> &str
    requires text { All IsUtf8 packed.now }
    requires within { place < length packed.now }
    ensures { slice_get packed.now place ≡ Some result.now }
{
    let bytes = packed.list(place);
    unsafe { str::from_utf8_unchecked(bytes) }
}

// Packed texts and further ones, packed.
fn pack(
    alloc: Global,
    packed: &Packed<u8>,
    texts: &[Hashed<String>],
) -> Result<Packed<u8>, AllocError>
    requires { All IsUtf8 packed.now }
    ensures texts { IfOk result (λ all. all ≡ packed.now ++ map string_bytes texts.now) }
    ensures text { IfOk result (λ all. All IsUtf8 all) }
{
    let mut all = packed.copy(alloc)?;
    for text in texts {
        all = all.with(text.value().as_str().as_bytes())?;
    }
    all.shrink();
    Ok(all)
}
