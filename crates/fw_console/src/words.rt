//! Faults in words: the code and the name of each, what it means, and what to do.
ghost use Rattle.std.specs.Prelude.{◌≡◌, IfOk};
ghost use Rattle.fw_serve.specs.Replies.{conflict_line, entry_fault_line, refused};

use crate::fault::Fault;
use fw_entry::EntryFault;
use fw_explain::explain_fault;
use fw_snapshot::Conflict;

/// Says what is wrong with something: the fault, which is a code with its name, what it means, and what to do.
pub fn say_fault(rt: &HostRuntime, about: &str, fault: &str) {
    let words = explain_fault(fault);
    let (meaning, remedy) = (words.meaning, words.remedy);
    let _ = eprintln!(rt; "focusd: {about}: {fault}: {meaning}.");
    let _ = eprintln!(rt; "What to do: {remedy}");
}

/// Says what is wrong with something: the fault, which is a code with its name, the reason, and what to do. The answer is false.
pub fn refuse(rt: &HostRuntime, about: &str, fault: &str, reason: &str) -> bool {
    let remedy = explain_fault(fault).remedy;
    let _ = eprintln!(rt; "focusd: {about}: {fault}: {reason}");
    let _ = eprintln!(rt; "What to do: {remedy}");
    false
}

/// The code and the name of why there is no entry, as answers of scripts have them. The error says that memory ran out.
#[tactic(auto, unfolding(fw_serve::specs::Replies::entry_fault_line))]
pub fn entry_code(fault: EntryFault) -> Result<&'static str, Fault>
    ensures { IfOk result (λ code. refused code.now ≡ entry_fault_line fault) }
{
    match fault {
        EntryFault::Origin => Ok("E1 Origin"),
        EntryFault::Seq => Ok("E2 Seq"),
        EntryFault::TooLarge => Ok("E3 TooLarge"),
        EntryFault::NoMemory => Err(Fault::NoMemory),
    }
}

/// The code and the name of why an entry doesn't go with what was accepted before, as answers of scripts have them.
#[tactic(auto, unfolding(fw_serve::specs::Replies::conflict_line))]
pub fn conflict_code(conflict: Conflict) -> &'static str
    ensures { refused result.now ≡ conflict_line conflict }
{
    match conflict {
        Conflict::Full => "J1 Full",
        Conflict::DoubleId => "J2 DoubleId",
        Conflict::IdInUse => "J3 IdInUse",
        Conflict::OwnCommitment => "J4 OwnCommitment",
        Conflict::TooManyCommitments => "J5 TooManyCommitments",
        Conflict::NoSuchPost => "J6 NoSuchPost",
        Conflict::Withdrawn => "J7 Withdrawn",
        Conflict::NoSuchCommitment => "J8 NoSuchCommitment",
        Conflict::PurchaseLimit => "J9 PurchaseLimit",
    }
}
