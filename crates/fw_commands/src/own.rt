//! `focusd report --only`: what one group of a tag cost, for its owner, and nothing of other groups.
use crate::ask::say_charged;
use crate::hours_question::HoursQuestion;
use crate::policy::GivenPolicy;
use fw_calendar::{Period, Step};
use fw_console::{Fault, letters};
use fw_owner::{View, owned_of, written};
use fw_query::Query;
use fw_series::Format;
use fw_snapshot::Snapshot;
use fw_table::shown_text;
use fw_what_if::under_policy;
use std::alloc::AllocError;

/// What one group of a tag is asked for, under the policy of the warehouse or under one that is given.
#[derive(Clone, Copy, Debug)]
pub(crate) struct Owning<'q> {
    pub(crate) key: &'q str,
    pub(crate) group: &'q str,
    pub(crate) step: Option<Step>,
    pub(crate) format: Format,
    pub(crate) policy: Option<GivenPolicy<'q>>,
}

impl<'q> HoursQuestion for Owning<'q> {
    ghost is_askable = { λ _. Unit {0} };

    fn answer(
        &self,
        rt: &HostRuntime,
        snapshot: &Snapshot,
        hours: Period,
    ) -> Result<Vec<u8>, Fault> {
        match self.policy {
            Some(given) => {
                let under = under_policy(rt.alloc(), snapshot.state(), given.policy)?;
                self.answer_own(rt, &under, hours)
            }
            None => self.answer_own(rt, snapshot, hours),
        }
    }
}

impl<'q> Owning<'q> {
    // The text of the group under the policy of the warehouse; and what it leaves out is said.
    fn answer_own(
        &self,
        rt: &HostRuntime,
        snapshot: &Snapshot,
        hours: Period,
    ) -> Result<Vec<u8>, Fault> {
        let query = Query {
            key: self.key,
            from_hour: hours.from,
            to_hour: hours.to,
        };
        let owned = owned_of(rt.alloc(), snapshot, &query, self.step, self.group)?;
        say_charged(rt, snapshot.state(), hours, self.key, self.policy)?;
        if !owned.whole.is_there {
            say_no_group(rt, self.key, self.group)?;
        }
        let currency = snapshot.state().currency();
        let view = View {
            tag: self.key,
            group: self.group,
            currency: letters(&currency),
            step: self.step,
        };
        Ok(written(rt.alloc(), &owned, &view, self.format)?)
    }
}

// Says that the range has no costs of a group. Other groups aren't named.
fn say_no_group(rt: &HostRuntime, key: &str, group: &str) -> Result<(), AllocError> {
    let key = shown_text(rt.alloc(), key)?;
    if group.is_empty() {
        let _ = eprintln!(rt; "focusd: the range has no costs without the tag {key}");
        return Ok(());
    }
    let group = shown_text(rt.alloc(), group)?;
    let _ = eprintln!(rt; "focusd: the range has no costs whose tag {key} is {group}");
    Ok(())
}
