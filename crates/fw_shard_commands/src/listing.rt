//! What parts there are, as JSON.
use crate::output::Output;
use crate::piles::Piles;
use fw_calendar::{Step, hour_text};
use serde_json::Value;
use std::alloc::{AllocError, Global};

/// A document of a commitment, and the pile to which it is dealt.
struct Named {
    file: String,
    /// The id of the commitment, also where the document is a purchase that is added to it.
    id: String,
    is_commitment: bool,
    /// Counted from 1; none where the commitment of a purchase isn't named.
    pile: Option<usize>,
}

impl Drop for Named {
    fn drop(self) {
        let Self {
            file: _,
            id: _,
            is_commitment: _,
            pile: _,
        } = self;
    }
}

/// The documents of commitments, and the piles to which they are dealt.
pub(crate) struct Dealt {
    all: Vec<Named>,
}

impl Drop for Dealt {
    fn drop(self) {
        let Self { all: _ } = self;
    }
}

impl Dealt {
    /// No documents yet.
    pub(crate) fn new(alloc: Global) -> Dealt {
        Dealt {
            all: Vec::new(alloc),
        }
    }

    /// Adds the document of a file: a commitment, or a purchase that is added to one.
    pub(crate) fn add(
        &mut self,
        alloc: Global,
        file: &str,
        id: &str,
        is_commitment: bool,
    ) -> Result<(), AllocError> {
        let file = String::from_str(alloc, file)?;
        let id = String::from_str(alloc, id)?;
        self.all.push(Named {
            file,
            id,
            is_commitment,
            pile: None,
        })?;
        Ok(())
    }

    /// Finds the pile of each document, once all are there.
    pub(crate) fn find_piles(&mut self, piles: &Piles) {
        for place in 0..self.all.len() {
            let pile = self.pile_of(place, piles);
            if place < self.all.len() {
                self.all[place].pile = pile;
            }
        }
    }

    // The pile of the commitment of a document.
    fn pile_of(&self, place: usize, piles: &Piles) -> Option<usize> {
        let wanted = self.all.get(place)?;
        let mut number = 0usize;
        for named in &self.all {
            if named.is_commitment {
                if named.id.as_str() == wanted.id.as_str() {
                    return Some(piles.of_commitment(number).saturating_add(1));
                }
                number = number.saturating_add(1);
            }
        }
        None
    }
}

/// The parts as one object of JSON on a line of its own, ended by a line feed.
pub(crate) fn listing_text(
    alloc: Global,
    step: Step,
    piles: usize,
    rows: u64,
    parts: &[&Output],
    dealt: &Dealt,
) -> Result<String, AllocError> {
    let by = step.word();
    let mut text = format!(in alloc;
        "{{\"split\":1,\"by\":\"{by}\",\"into\":{piles},\"rows\":{rows},\"files\":["
    )?;
    for (place, part) in parts.iter().enumerate() {
        if place > 0 {
            text.push(',')?;
        }
        push_part(alloc, &mut text, part)?;
    }
    text.push_str("],\"commitments\":[")?;
    for (place, named) in dealt.all.as_slice().iter().enumerate() {
        if place > 0 {
            text.push(',')?;
        }
        push_named(alloc, &mut text, named)?;
    }
    text.push_str("]}\n")?;
    Ok(text)
}

// Adds the object of a part.
fn push_part(alloc: Global, text: &mut String, part: &Output) -> Result<(), AllocError> {
    let name = json_string(alloc, part.name.as_str())?;
    let from = hour_text(alloc, part.span.from)?;
    let to = hour_text(alloc, part.span.to)?;
    let (pile, rows, bytes) = (part.pile, part.rows, part.bytes);
    write!(
        text,
        "{{\"file\":{name},\"from\":\"{from}\",\"to\":\"{to}\",\"pile\":{pile},\"rows\":{rows},\"bytes\":{bytes}}}"
    )?;
    Ok(())
}

// Adds the object of a document.
fn push_named(alloc: Global, text: &mut String, named: &Named) -> Result<(), AllocError> {
    let file = json_string(alloc, named.file.as_str())?;
    let id = json_string(alloc, named.id.as_str())?;
    match named.pile {
        Some(pile) => write!(text, "{{\"file\":{file},\"id\":{id},\"pile\":{pile}}}")?,
        None => write!(text, "{{\"file\":{file},\"id\":{id},\"pile\":null}}")?,
    }
    Ok(())
}

// A text as a string of JSON, quotes and all.
fn json_string(alloc: Global, text: &str) -> Result<String, AllocError> {
    Value::String(String::from_str(alloc, text)?).to_string(alloc)
}
