//! Why a text is no document.
use fw_commitment::CommitmentFault;
use fw_policy::PolicyFault;

/// Why a text is no document.
#[derive(Clone, Copy, Debug, Drop, PartialEq, Eq)]
pub enum DocumentFault {
    /// The text is not UTF-8, or no TOML.
    Syntax,
    /// It has no name that tells what it is.
    NoKind,
    /// It has names of a policy, and names of a commitment or a purchase.
    TwoKinds,
    /// It is a commitment with a fault: the first one.
    Commitment(CommitmentFault),
    /// It is a policy with a fault: the first one.
    Policy(PolicyFault),
    /// It is a purchase with a fault: the first one.
    Purchase(CommitmentFault),
    /// Memory ran out.
    NoMemory,
}
