//! One importer: it reads a file's text, and posts it.
use crate::board::{Outcome, Place};
use crate::posting::entry_of;
use fw_charge::Currency;
use fw_group::Answer;
use fw_serve::Reply;
use fw_threads::{Importer, Naming, Published};
use std::alloc::Global;
use std::sync::Wait;

/// A file, and who posts it. Dropped before it ran, as where no thread can be made, it answers `no memory` and leaves.
pub(crate) struct Seat<'a, J: Naming, R: Wait> {
    pub(crate) rt: &'a R,
    pub(crate) alloc: Global,
    pub(crate) importer: Importer<J>,
    pub(crate) place: &'a Place<Answer<Published<J>>>,
    pub(crate) currency: Currency,
    /// The prefix of the origin, and the number of the file, counted from 1.
    pub(crate) origin: &'a str,
    pub(crate) number: u64,
    pub(crate) text: Vec<u8>,
}

impl<J: Naming, R: Wait> Drop for Seat<'_, J, R> {
    fn drop(self) {
        let Self {
            rt,
            alloc: _,
            importer,
            place,
            currency: _,
            origin: _,
            number: _,
            text: _,
        } = self;
        place.put(rt, Outcome::NotPosted(Reply::NoMemory));
        importer.leave(rt);
    }
}

impl<J: Naming, R: Wait> Seat<'_, J, R> {
    /// Posts the file, and leaves.
    pub(crate) fn run(self) {
        let Self {
            rt,
            alloc,
            importer,
            place,
            currency,
            origin,
            number,
            text,
        } = self;
        let mut importer = importer;
        let outcome = match entry_of(alloc, currency, origin, number, text.as_slice()) {
            Ok(entry) => Outcome::Posted(importer.post(rt, entry)),
            Err(reply) => Outcome::NotPosted(reply),
        };
        place.put(rt, outcome);
        importer.leave(rt);
    }
}

/// A seat for each text, in their order. One that finds no room is dropped, which answers its file.
pub(crate) fn seats_of<'a, J: Naming, R: Wait>(
    rt: &'a R,
    alloc: Global,
    importers: Vec<Importer<J>>,
    texts: Vec<Vec<u8>>,
    places: &'a [Place<Answer<Published<J>>>],
    currency: Currency,
    origin: &'a str,
) -> Vec<Seat<'a, J, R>> {
    let mut importers = importers;
    let mut texts = texts;
    let mut seats = Vec::new(alloc);
    for index in (0..places.len()).rev() {
        if let (Some(importer), Some(text)) = (importers.pop(), texts.pop()) {
            let seat = Seat {
                rt,
                alloc,
                importer,
                place: &places[index],
                currency,
                origin,
                number: index as u64 + 1,
                text,
            };
            let _ = seats.push(seat);
        }
    }
    seats
}
