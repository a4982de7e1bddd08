//! `focusd policy`: which policies a warehouse accepted; and which policy a report applied.
ghost use Rattle.std.specs.Prelude.{◌≡◌, ◌<◌, IfOk, length};
ghost use Rattle.std.specs.Process.{exit_status};

use clap::ArgMatches;
use fw_command_line::DIR;
use fw_console::{Fault, advised, let_go, open_to_ask, print_answer};
use fw_snapshot::State;
use fw_table::shown_text;
use fw_terms::Policy;
use fw_views::{applied_policy, policies_text};
use std::alloc::{AllocError, Global};
use std::process::ExitCode;

/// Lists the policies that the warehouse accepted.
pub fn list_policies(rt: &HostRuntime, options: &ArgMatches<'_>) -> ExitCode {
    let folder = options.get_str(DIR).unwrap_or("");
    let listed = list_of(rt, folder).and_then(|text| print_answer(rt, text.as_bytes()));
    advised(rt, folder, listed)
}

// The list of the warehouse of a folder.
fn list_of(rt: &HostRuntime, folder: &str) -> Result<String, Fault> {
    let store = open_to_ask(rt, folder)?;
    let listed = policies_text(rt.alloc(), store.state().state());
    Ok(let_go(store, listed)?)
}

/// Says which policy a report of this key applied, where it did.
pub(crate) fn say_policy(rt: &HostRuntime, state: &State, key: &str) -> Result<(), AllocError> {
    match (applied_policy(state), state.policy()) {
        (Some(place), Some(policy)) if policy.key() == key && place < state.entries() => {
            let text = policy_text(rt.alloc(), state, place, key)?;
            let text = text.as_str();
            let _ = eprintln!(rt; "{text}");
            Ok(())
        }
        _ => Ok(()),
    }
}

// What is said of the policy at a place.
fn policy_text(alloc: Global, state: &State, place: usize, key: &str) -> Result<String, AllocError>
    requires { place < length state.now.entries }
{
    let head = state.head(place);
    let (origin, seq) = (head.origin(), head.seq());
    let entry = (place as u64).saturating_add(1);
    let key = shown_text(alloc, key)?;
    format!(in alloc;
        "costs are shared by the policy for the tag {key}: entry {entry}, {origin} {seq}"
    )
}

/// A policy that the command line gives, and the file that it comes from.
#[derive(Clone, Copy, Debug)]
pub struct GivenPolicy<'p> {
    /// The file, as the command line names it.
    pub file: &'p str,
    /// The policy.
    pub policy: &'p Policy,
}

impl<'p> GivenPolicy<'p> {
    /// Says that a report applied the policy of the file.
    pub fn say(self, rt: &HostRuntime) -> Result<(), AllocError> {
        let key = shown_text(rt.alloc(), self.policy.key())?;
        let file = self.shown_file(rt.alloc())?;
        let _ = eprintln!(rt;
            "costs are shared by the policy for the tag {key}: the one of {file}"
        );
        Ok(())
    }

    // What people see of the file.
    fn shown_file(self, alloc: Global) -> Result<String, AllocError> {
        if self.file == "-" {
            return String::from_str(alloc, "standard input");
        }
        let file = shown_text(alloc, self.file)?;
        format!(in alloc; "the file {file}")
    }

    /// Says that the policy is for another tag than the report is by.
    pub fn refuse(self, rt: &HostRuntime) -> Result<ExitCode, AllocError>
        ensures { IfOk result (λ status. exit_status status ≡ 1) }
    {
        let key = shown_text(rt.alloc(), self.policy.key())?;
        let file = shown_text(rt.alloc(), self.file)?;
        let _ = eprintln!(rt;
            "focusd: --policy: {file}: the policy is for the tag {key}, so it shares no costs of this report"
        );
        let _ = eprintln!(rt;
            "What to do: ask by --tag {key}, or name a policy for the tag that is asked for"
        );
        Ok(ExitCode::FAILURE)
    }
}
