//! `fw_first_look` serves the script on standard input from an empty warehouse in memory, in US dollars, and prints the answers: what
//! `focusd run` does without options, and nothing else.
//!
//! It stands on half of the crates that `focusd` stands on, so it is built in half the time: `examples/run` builds it to show a first report.
//!
//! Exit status: 0 where the script was served, 1 where memory, reading or writing failed, with one line on standard error.
#![tactic(auto)]

use fw_disk::NullVolume;
use fw_recover::{Store, StoreFault};
use fw_rows::Currency;
use fw_serve::{ServeFault, serve};
use std::io::BufWriter;
use std::process::ExitCode;
use std::thread::Threads;

/// How many bytes of answers are written at once.
const OUTPUT_BUFFER: usize = 64 * 1024;

/// Why the script was not served to its end.
#[derive(Clone, Copy, Debug, Drop, thiserror::Error)]
enum Fault {
    /// The warehouse couldn't be made.
    #[error("{0}")]
    Store(StoreFault),
    /// Reading the script, running it or writing its answers failed.
    #[error("{0}")]
    Serve(ServeFault),
}

impl From<ServeFault> for Fault {
    fn from(fault: ServeFault) -> Fault {
        Fault::Serve(fault)
    }
}

fn main(rt: HostRuntime) -> ExitCode {
    match answer_script(&rt, &rt) {
        Ok(()) => ExitCode::SUCCESS,
        Err(fault) => {
            let _ = eprintln!(rt; "fw_first_look: {fault}");
            ExitCode::FAILURE
        }
    }
}

// Serves the script on standard input from an empty warehouse. No byte of its log is kept, since it can't be opened again.
fn answer_script(rt: &HostRuntime, threads: &(impl Threads + Sync)) -> Result<(), Fault> {
    let alloc = rt.alloc();
    let Ok(mut output) = BufWriter::with_capacity(alloc, OUTPUT_BUFFER, rt.stdout()) else {
        return Err(Fault::Serve(ServeFault::NoMemory));
    };
    let dollars = Currency::new(b"USD").unwrap();
    match Store::create(alloc, NullVolume::new(), dollars) {
        Ok(mut store) => {
            serve(threads, alloc, &mut rt.stdin(), &mut output, &mut store, 1)?;
            Ok(())
        }
        Err((_, fault)) => Err(Fault::Store(fault)),
    }
}
