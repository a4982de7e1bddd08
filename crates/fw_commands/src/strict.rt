//! Strict runs: they end with a status of their own where an entry was refused.
ghost use Rattle.std.specs.Prelude.{◌≡◌, ◌<◌, true, IfOk};
ghost use Rattle.std.specs.Process.{exit_status};

use crate::answers::Refusals;
use fw_console::Fault;
use std::io::{self, Write};
use std::process::ExitCode;

/// Where a strict run refused an entry.
const REFUSED: u8 = 3;

/// The status of a run that refused so many entries. Where it was to be strict that is another one, and how many they are is said. A fault
/// goes first.
pub fn strict_status(
    rt: &HostRuntime,
    is_strict: bool,
    refused: u64,
    done: Result<ExitCode, Fault>,
) -> Result<ExitCode, Fault>
    ensures strict { is_strict ≡ true → 0 < refused → IfOk result
        (λ status. exit_status status ≡ 3) }
    ensures other { refused ≡ 0 → result ≡ done }
{
    let status = done?;
    if !is_strict || refused == 0 {
        return Ok(status);
    }
    let (entries, were) = if refused == 1 {
        ("entry", "was")
    } else {
        ("entries", "were")
    };
    let _ = eprintln!(rt; "focusd: {refused} {entries} {were} refused");
    Ok(ExitCode::from(REFUSED))
}

/// A writer of answers, and how many of these refuse an entry.
#[derive(Drop)]
pub(crate) struct Watched<W> {
    pub(crate) stream: W,
    pub(crate) refusals: Refusals,
}

impl<W> Watched<W> {
    /// Nothing was written.
    pub(crate) fn new(stream: W) -> Watched<W>
        ensures { result.stream ≡ stream }
    {
        Watched {
            stream,
            refusals: Refusals::new(false),
        }
    }
}

impl<W: Write> Write for Watched<W> {
    ghost contents = { λ watched. W.contents watched.stream };

    fn write(&mut self, buf: &[u8]) -> io::Result<usize> {
        let count = self.stream.write(buf)?;
        self.refusals.see(&buf[..count]);
        Ok(count)
    }

    fn flush(&mut self) -> io::Result<()> {
        self.stream.flush()
    }
}
