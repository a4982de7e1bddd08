//! The report by a tag, of all its groups.
use crate::ask::{query_of, say_charged};
use crate::hours_question::HoursQuestion;
use crate::policy::GivenPolicy;
use fw_calendar::Period;
use fw_console::Fault;
use fw_series::{ReportOptions, report_text};
use fw_snapshot::Snapshot;
use fw_what_if::under_policy;
use std::thread::Threads;

/// What each group of a tag cost is asked for, under the policy of the warehouse or under one that is given. The workers have threads of their own.
#[derive(Drop)]
pub(crate) struct Reporting<'q, R> {
    pub(crate) threads: &'q R,
    pub(crate) key: &'q str,
    pub(crate) options: ReportOptions,
    pub(crate) policy: Option<GivenPolicy<'q>>,
}

impl<'q, R: Threads + Sync> HoursQuestion for Reporting<'q, R> {
    ghost use Rattle.std.specs.Thread.{IsSync};

    ghost is_askable = { λ _. IsSync R.row };

    fn answer(
        &self,
        rt: &HostRuntime,
        snapshot: &Snapshot,
        hours: Period,
    ) -> Result<Vec<u8>, Fault> {
        match self.policy {
            Some(given) => {
                let under = under_policy(rt.alloc(), snapshot.state(), given.policy)?;
                self.answer_own(rt, &under, hours)
            }
            None => self.answer_own(rt, snapshot, hours),
        }
    }
}

impl<'q, R: Threads + Sync> Reporting<'q, R> {
    // The report under the policy of the warehouse; and what it leaves out is said.
    fn answer_own(
        &self,
        rt: &HostRuntime,
        snapshot: &Snapshot,
        hours: Period,
    ) -> Result<Vec<u8>, Fault> {
        let query = query_of(self.key, hours);
        let text = report_text(self.threads, rt.alloc(), snapshot, &query, &self.options)?;
        say_charged(rt, snapshot.state(), hours, self.key, self.policy)?;
        Ok(text)
    }
}
