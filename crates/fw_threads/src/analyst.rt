//! Analysts.
ghost use Rattle.std.specs.Prelude.{◌≡◌, IfOk, OnErr};
ghost use Rattle.fw_group.specs.Laws.{Begins};
ghost use Rattle.fw_threads.specs.Told.{LearnsLonger};

use crate::mark::Mark;
use crate::naming::Naming;
use crate::published::{OfSplit, Page, Published};
use core::mem::replace_with;
use fw_group::Receipt;
use fw_snapshot::Snapshot;
use left_right::reader::Reader;
use std::marker::Model;
use thiserror::Error;

pub(crate) type End<J> = Reader<Page, Option<Snapshot>, OfSplit<J>>;

/// Nothing can be viewed: the flusher has ended, or the state has as many owners as can be counted.
#[derive(Clone, Copy, Debug, PartialEq, Eq, Error)]
#[error("nothing can be viewed any more")]
pub struct Gone;

/// It views what is published. Contracts see an analyst as the longest front that it viewed or learned.
pub struct Analyst<J: Naming> {
    reader: End<J>,
    mark: Mark,
}

impl<J: Naming> Drop for Analyst<J> {
    fn drop(self) {
        let Self { reader: _, mark: _ } = self;
    }
}

impl<J: Naming> Model for Analyst<J> {
    ghost use Rattle.std.specs.Prelude.{◌≡◌};
    ghost use Rattle.fw_snapshot.specs.History.{History};

    ghost Value = { History };

    ghost view = { λ a. a.mark.front };

    ghost invariant = { λ a. a.mark.of ≡ J.fronts };
}

impl<J: Naming> Analyst<J> {
    pub(crate) fn new(reader: End<J>, mark: Mark) -> Analyst<J>
        requires { mark.of ≡ J.fronts }
        ensures { result ≡ mark.front }
    {
        Analyst { reader, mark }
    }

    /// What is published. It begins with all that this analyst viewed or learned. It takes no lock and no memory, and waits for nobody.
    ///
    /// # Errors
    /// `Gone` where the flusher has ended, or the state has as many owners as can be counted.
    pub fn view(&mut self) -> Result<Snapshot, Gone>
        ensures viewed { IfOk result (λ s. Begins self.old s × (self.new ≡ s)) }
        ensures gone { OnErr result (self.new ≡ self.old) }
    {
        let Some(front) = replace_with(&mut self.reader, (), |reader, ()| entered(reader)) else {
            return Err(Gone);
        };
        let mark = front.mark();
        if mark.entries() < self.mark.entries() {
            return Err(Gone);
        }
        self.mark.meet(&mark);
        self.mark = mark;
        Ok(front.into_snapshot())
    }

    /// Learns of a receipt of the same split: later views have its front. It takes no lock and no memory.
    pub fn learn(&mut self, receipt: &Receipt<Published<J>>)
        ensures { LearnsLonger self.old receipt.now.front self.new }
    {
        let mark = receipt.front.mark();
        if self.mark.entries() < mark.entries() {
            self.mark.meet(&mark);
            self.mark = mark;
        } else {
            mark.meet(&self.mark);
        }
    }
}

// Enters once, and takes a copy of what is published.
fn entered<J: Naming>(reader: End<J>) -> (End<J>, Option<Published<J>>) {
    match reader.enter_as::<OfSplit<J>>() {
        Ok(reading) => {
            let front = reading.get().front().ok();
            (reading.leave(), front)
        }
        Err(reader) => (reader, None),
    }
}
