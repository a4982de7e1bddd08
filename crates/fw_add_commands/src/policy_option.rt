//! The policy of a file that an option names.
use crate::documents::{document_of, other_kind};
use clap::ArgMatches;
use fw_command_line::POLICY;
use fw_console::Fault;
use fw_documents::Document;
use fw_terms::Policy;

/// The policy that the option `--policy` names.
pub enum PolicyFile {
    /// The policy of its file.
    Policy(Policy),
    /// The option isn't given.
    None,
    /// The file can't be read or has no policy, which was said.
    Refused,
}

impl Drop for PolicyFile {
    fn drop(self) {
        match self {
            Self::Policy(_) | Self::None | Self::Refused => {}
        }
    }
}

/// Reads the policy that the options name, from the TOML text of a file or of standard input. A fault is said as `focusd add` says it.
pub fn policy_file(rt: &HostRuntime, options: &ArgMatches<'_>) -> Result<PolicyFile, Fault> {
    let Some(file) = options.get_str(POLICY) else {
        return Ok(PolicyFile::None);
    };
    match &document_of(rt, file)? {
        Some(Document::Policy(policy)) => Ok(PolicyFile::Policy(policy.copy(rt.alloc())?)),
        Some(_) => {
            other_kind(rt, file, "policy")?;
            Ok(PolicyFile::Refused)
        }
        None => Ok(PolicyFile::Refused),
    }
}
