//! Why the program ended with a status that isn't 0.
ghost use Rattle.std.specs.Prelude.{◌≡◌};
ghost use Rattle.std.specs.Process.{exit_status};
ghost use Rattle.fw_console.specs.Statuses.{status_of, wrong_use_status};

use fw_disk::{FolderFault, Side};
use fw_explain::explain_fault;
use fw_query::QueryFault;
use fw_recover::StoreFault;
use fw_serve::ServeFault;
use std::alloc::{AllocError, AllocFailed};
use std::io;
use std::process::ExitCode;

/// A write or a sync of a file of a warehouse that failed.
#[derive(Clone, Copy, Debug, Drop)]
pub struct FileFailure {
    /// Whose file it is.
    pub side: Side,
    /// What the system said.
    pub error: io::Error,
}

/// Why the program ended with a status that isn't 0. The text of each is its code and its name, or `NoMemory`, and fits on one line.
#[derive(Clone, Copy, Debug, Drop, thiserror::Error)]
pub enum Fault {
    /// The folder could not be opened.
    #[error("K1 Io")]
    Folder(FolderFault),
    /// The warehouse could not be opened or created.
    #[error("{0}")]
    Store(StoreFault),
    /// A write or a sync of a file of the warehouse failed.
    #[error("S3 Device")]
    File(FileFailure),
    /// The script was not served to its end.
    #[error("{0}")]
    Serve(ServeFault),
    /// Standard input could not be read, as the system said.
    #[error("F1 Read")]
    Input(io::Error),
    /// Standard output could not be written, as the system said.
    #[error("F2 Write")]
    Output(io::Error),
    /// The range of a question has no hour, or more than 26,304.
    #[error("Q1 Range")]
    Range,
    /// The costs of a report are too large.
    #[error("Q2 TotalTooLarge")]
    TotalTooLarge,
    /// The allocator refused a growth.
    #[error("NoMemory")]
    NoMemory,
}

impl From<AllocError> for Fault {
    fn from(_: AllocError) -> Fault {
        Fault::NoMemory
    }
}

impl<T: Drop> From<AllocFailed<T>> for Fault {
    fn from(_: AllocFailed<T>) -> Fault {
        Fault::NoMemory
    }
}

impl From<FolderFault> for Fault {
    fn from(fault: FolderFault) -> Fault {
        match fault {
            FolderFault::NoMemory => Fault::NoMemory,
            _ => Fault::Folder(fault),
        }
    }
}

impl From<StoreFault> for Fault {
    fn from(fault: StoreFault) -> Fault {
        Fault::Store(fault)
    }
}

impl From<ServeFault> for Fault {
    fn from(fault: ServeFault) -> Fault {
        Fault::Serve(fault)
    }
}

impl From<QueryFault> for Fault {
    fn from(fault: QueryFault) -> Fault {
        match fault {
            QueryFault::Range => Fault::Range,
            QueryFault::TotalTooLarge { group: _ } => Fault::TotalTooLarge,
            QueryFault::NoMemory => Fault::NoMemory,
        }
    }
}

impl Fault {
    /// The exit status: 2 where the command line is wrong, else 1.
    #[tactic(auto, unfolding(crate::specs::Statuses::status_of))]
    fn status(&self) -> u8
        ensures { result ≡ status_of self.now }
    {
        match self {
            Fault::Range => WRONG_USE,
            Fault::Folder(_) => 1,
            Fault::Store(_) => 1,
            Fault::File(_) => 1,
            Fault::Serve(_) => 1,
            Fault::Input(_) | Fault::Output(_) => 1,
            Fault::TotalTooLarge | Fault::NoMemory => 1,
        }
    }
}

/// Where the command line is wrong.
pub const WRONG_USE: u8 = 2;

// Prints the line of a range that can't be asked for. It says what the options take, since it is the command line that is wrong.
fn say_range(rt: &HostRuntime) {
    let words = explain_fault("Q1 Range");
    let (meaning, remedy) = (words.meaning, words.remedy);
    let _ = eprintln!(rt; "focusd: Q1 Range: {meaning}. {remedy}");
}

/// Prints the line of a fault. A closed standard error leaves nobody to tell.
pub(crate) fn failed(rt: &HostRuntime, fault: &Fault) -> ExitCode
    ensures { exit_status result ≡ status_of fault.now }
{
    if let Fault::Range = fault {
        say_range(rt);
    } else {
        let _ = eprintln!(rt; "focusd: {fault}");
    }
    ExitCode::from(fault.status())
}

/// Says what is wrong with the command line.
pub fn wrong_use(rt: &HostRuntime, what: &str) -> ExitCode
    ensures { exit_status result ≡ wrong_use_status }
{
    let _ = eprintln!(rt; "focusd: {what}");
    ExitCode::from(WRONG_USE)
}
