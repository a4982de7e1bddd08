//! Standard output.
ghost use Rattle.std.specs.Prelude.{◌≡◌, IfOk, IsOk};
ghost use Rattle.std.specs.Process.{exit_status};

use crate::fault::Fault;
use std::io::{self, Write};
use std::process::ExitCode;

/// Writes an answer to standard output. A reader that has had enough, as `head`, is no fault.
pub fn print_answer(rt: &HostRuntime, answer: &[u8]) -> Result<ExitCode, Fault>
    ensures { IfOk result (λ status. exit_status status ≡ 0) }
{
    let mut output = rt.stdout();
    printed(output.write_all(answer).and_then(|()| output.flush()))?;
    Ok(ExitCode::SUCCESS)
}

/// What became of writing to standard output. A reader that has had enough, as `head`, is no fault.
pub fn printed(written: io::Result<()>) -> Result<(), Fault>
    ensures { IsOk written → IsOk result }
{
    match written {
        Ok(()) => Ok(()),
        Err(error) if error.kind() == io::ErrorKind::BrokenPipe => Ok(()),
        Err(error) => Err(Fault::Output(error)),
    }
}
