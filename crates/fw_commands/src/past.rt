//! Questions as of the first entries of a warehouse: the option `--as-of`.
ghost use Rattle.std.specs.Prelude.{◌≡◌, ℕ, IfOk, None, Some, length, nat_le, true};
ghost use Rattle.std.specs.Process.{exit_status};
ghost use Rattle.fw_console.specs.Statuses.{wrong_use_status};
ghost use Rattle.fw_past.specs.Past.{as_of};

use clap::ArgMatches;
use fw_command_line::AS_OF;
use fw_console::WRONG_USE;
use fw_past::as_of;
use fw_snapshot::{Snapshot, State};
use fw_table::shown_text;
use std::alloc::{AllocError, Global};
use std::process::ExitCode;

/// The number of entries that `--as-of` says, where it is given, or its value where that is no number.
pub(crate) fn read_as_of<'o>(options: &'o ArgMatches<'_>) -> Result<Option<usize>, &'o str> {
    match options.get_str(AS_OF) {
        Some(text) => match text.parse::<usize>() {
            Ok(count) => Ok(Some(count)),
            Err(_) => Err(text),
        },
        None => Ok(None),
    }
}

/// Says that the value of `--as-of` is no number of entries.
pub(crate) fn wrong_as_of(rt: &HostRuntime, text: &str) -> ExitCode
    ensures { exit_status result ≡ wrong_use_status }
{
    let _ = eprintln!(rt; "focusd: --as-of: {text:?} is not a number of entries, as 1204");
    ExitCode::from(WRONG_USE)
}

/// Whether a warehouse has so many entries.
pub(crate) fn has_entries(state: &State, count: Option<usize>) -> bool
    ensures given { (n : ℕ) → count ≡ Some n → result ≡ nat_le n (length state.now.entries) }
    ensures none { count ≡ None → result ≡ true }
{
    match count {
        Some(count) => count <= state.entries(),
        None => true,
    }
}

/// The warehouse as it was after so many entries; as it is, where no number is given.
pub(crate) fn past_of(
    alloc: Global,
    snapshot: &Snapshot,
    count: Option<usize>,
) -> Result<Snapshot, AllocError>
    ensures given { (n : ℕ) → count ≡ Some n → IfOk result (λ past. past ≡ as_of n snapshot.now) }
    ensures none { count ≡ None → IfOk result (λ past. past ≡ snapshot.now) }
{
    match count {
        Some(count) => as_of(alloc, snapshot.state(), count),
        None => snapshot.copy(),
    }
}

/// Says that a warehouse has fewer entries than were asked for.
pub(crate) fn too_few(
    rt: &HostRuntime,
    folder: &str,
    entries: usize,
) -> Result<ExitCode, AllocError>
    ensures { IfOk result (λ status. exit_status status ≡ 1) }
{
    let folder = shown_text(rt.alloc(), folder)?;
    let word = if entries == 1 { "entry" } else { "entries" };
    let _ = eprintln!(rt;
        "focusd: --as-of: {folder}: the warehouse has {entries} {word}, and not so many"
    );
    let _ = eprintln!(rt; "What to do: ask as of {entries} entries at most, or leave --as-of out");
    Ok(ExitCode::FAILURE)
}
