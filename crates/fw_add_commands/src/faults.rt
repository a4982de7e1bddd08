//! Faults of files, as a person reads them.
use crate::bought::limit_text;
use crate::texts::Given;
use fw_adding::{AddFault, agree_in, committed};
use fw_commitment::{CommitmentFault, CommitmentField};
use fw_console::{Fault, conflict_code, entry_code};
use fw_documents::{
    Document, DocumentFault, Kind, Located, expected_in_commitment, expected_in_policy,
    expected_in_purchase, locate, unknown_name,
};
use fw_explain::explain_fault;
use fw_policy::{PolicyFault, PolicyField};
use fw_recover::StoreFault;
use fw_snapshot::{Conflict, State};
use fw_table::shown_text;
use fw_terms::Commitment;
use std::alloc::{AllocError, Global};

/// The longest part of a line that is shown, in characters.
const SHOWN: usize = 60;

/// Says why a text is no document. The answer is false.
pub fn say_fault(
    rt: &HostRuntime,
    file: &str,
    text: &[u8],
    fault: DocumentFault,
) -> Result<bool, Fault> {
    match fault {
        DocumentFault::NoMemory => Err(Fault::NoMemory),
        DocumentFault::Syntax => say_words(rt, file, "A1 NoToml"),
        DocumentFault::NoKind => say_words(rt, file, "A2 NoKind"),
        DocumentFault::TwoKinds => say_words(rt, file, "A3 TwoKinds"),
        DocumentFault::Commitment(fault) => {
            say_commitment(rt, file, text, Kind::Commitment, fault)
        }
        DocumentFault::Policy(fault) => say_policy(rt, file, text, fault),
        DocumentFault::Purchase(fault) => say_commitment(rt, file, text, Kind::Purchase, fault),
    }
}

// Says what a fault means, and what to do. It is about a file, or about what a file has. The answer is false.
fn say_words(rt: &HostRuntime, about: &str, fault: &str) -> Result<bool, Fault> {
    let words = explain_fault(fault);
    let (meaning, remedy) = (words.meaning, words.remedy);
    let _ = eprintln!(rt; "{about}: {meaning}. What to do: {remedy} ({fault})");
    Ok(false)
}

// What a field must be in a document of a kind that has it.
fn expected_in(kind: Kind, field: CommitmentField) -> &'static str {
    match kind {
        Kind::Purchase => expected_in_purchase(field),
        Kind::Commitment | Kind::Policy => expected_in_commitment(field),
    }
}

// Says why a text is no commitment, or no purchase that is added to one.
fn say_commitment(
    rt: &HostRuntime,
    file: &str,
    text: &[u8],
    kind: Kind,
    fault: CommitmentFault,
) -> Result<bool, Fault> {
    match fault {
        CommitmentFault::NoMemory => Err(Fault::NoMemory),
        CommitmentFault::Syntax => say_words(rt, file, "C1 Syntax"),
        CommitmentFault::Field(CommitmentField::Unknown) => say_unknown(
            rt,
            file,
            text,
            kind,
            expected_in(kind, CommitmentField::Unknown),
            "C2 Field",
        ),
        CommitmentFault::Field(field) => {
            let place = Place::of_commitment(field);
            say_field(rt, file, text, place, expected_in(kind, field), "C2 Field")
        }
        CommitmentFault::Limit(field) => {
            let place = Place::of_commitment(field);
            say_field(rt, file, text, place, expected_in(kind, field), "C3 Limit")
        }
    }
}

// Says why a text is no policy.
fn say_policy(
    rt: &HostRuntime,
    file: &str,
    text: &[u8],
    fault: PolicyFault,
) -> Result<bool, Fault> {
    match fault {
        PolicyFault::NoMemory => Err(Fault::NoMemory),
        PolicyFault::Syntax => say_words(rt, file, "P1 Syntax"),
        PolicyFault::Field(PolicyField::Unknown) => say_unknown(
            rt,
            file,
            text,
            Kind::Policy,
            expected_in_policy(PolicyField::Unknown),
            "P2 Field",
        ),
        PolicyFault::Field(field) => {
            let place = Place::of_policy(field);
            say_field(rt, file, text, place, expected_in_policy(field), "P2 Field")
        }
        PolicyFault::Limit(field) => {
            let place = Place::of_policy(field);
            say_field(rt, file, text, place, expected_in_policy(field), "P3 Limit")
        }
        PolicyFault::DoubleFrom => say_words(rt, file, "P4 DoubleFrom"),
        PolicyFault::TargetIsFrom => say_words(rt, file, "P5 TargetIsFrom"),
    }
}

// Where a field is looked for: in a table of this name, or in the document itself.
#[derive(Clone, Copy, Drop)]
struct Place {
    table: &'static str,
    field: &'static str,
}

impl Place {
    fn of_commitment(field: CommitmentField) -> Place {
        Place {
            table: "",
            field: field.name(),
        }
    }

    fn of_policy(field: PolicyField) -> Place {
        let table = match field {
            PolicyField::From | PolicyField::To | PolicyField::Proportional => "rule",
            _ => "",
        };
        Place {
            table,
            field: field.name(),
        }
    }
}

// Says what is wrong with a field.
fn say_field(
    rt: &HostRuntime,
    file: &str,
    text: &[u8],
    place: Place,
    expected: &str,
    code: &str,
) -> Result<bool, Fault> {
    let document = str::from_utf8(text).unwrap_or("");
    match locate(document, place.table, place.field) {
        Some(found) => say_located(rt, file, found, expected, code),
        None => {
            let field = place.field;
            let _ = eprintln!(rt; "{file}: {field} is missing: {expected} ({code})");
            Ok(false)
        }
    }
}

// Says what is wrong with a field that stands in a line.
fn say_located(
    rt: &HostRuntime,
    file: &str,
    found: Located<'_>,
    expected: &str,
    code: &str,
) -> Result<bool, Fault> {
    let line = found.line;
    let shown = first_letters(rt.alloc(), found.text)?;
    let _ = eprintln!(rt; "{file}: line {line}: {shown}: {expected} ({code})");
    Ok(false)
}

// The first letters of a text, as a terminal may show them.
fn first_letters(alloc: Global, text: &str) -> Result<String, AllocError> {
    let mut shown = String::new(alloc);
    for letter in text.chars().take(SHOWN) {
        shown.push(letter)?;
    }
    shown_text(alloc, shown.as_str())
}

// Says which name of a text is no field of what it is.
fn say_unknown(
    rt: &HostRuntime,
    file: &str,
    text: &[u8],
    kind: Kind,
    expected: &str,
    code: &str,
) -> Result<bool, Fault> {
    match unknown_name(rt.alloc(), kind, text)? {
        Some(name) => say_name(rt, file, text, name.as_str(), expected, code),
        None => {
            let _ = eprintln!(rt; "{file}: {expected} ({code})");
            Ok(false)
        }
    }
}

// Says that a name is no field.
fn say_name(
    rt: &HostRuntime,
    file: &str,
    text: &[u8],
    name: &str,
    expected: &str,
    code: &str,
) -> Result<bool, Fault> {
    let document = str::from_utf8(text).unwrap_or("");
    let found = locate(document, "", name).or(locate(document, "rule", name));
    match found {
        Some(found) => say_located(rt, file, found, expected, code),
        None => {
            let _ = eprintln!(rt; "{file}: {name:?} is no field of it: {expected} ({code})");
            Ok(false)
        }
    }
}

/// Says why a document was refused. The answer is false.
pub(crate) fn say_refusal(
    rt: &HostRuntime,
    state: &State,
    origin: &str,
    given: &Given<'_>,
    fault: AddFault,
) -> Result<bool, Fault> {
    match fault {
        AddFault::NoMemory | AddFault::Store(StoreFault::NoMemory) => Err(Fault::NoMemory),
        AddFault::Store(StoreFault::OldSide) => say_old_side(rt, given),
        AddFault::Store(fault) => Err(Fault::Store(fault)),
        AddFault::Conflict(conflict) => say_conflict(rt, state, given, conflict),
        AddFault::Entry(fault) => say_given(rt, given, entry_code(fault)?),
        AddFault::NoNumber => {
            let reason = format!(in rt.alloc(); "the origin {origin} has no further number")?;
            say_reason(rt, given, "E2 Seq", reason.as_str())
        }
    }
}

/// Says that the log of the warehouse has no such entries before the next checkpoint. The answer is false.
pub(crate) fn say_old_side(rt: &HostRuntime, given: &Given<'_>) -> Result<bool, Fault> {
    say_given(rt, given, "S8 OldSide")
}

// Says what a fault of a document means, and what to do. The answer is false.
fn say_given(rt: &HostRuntime, given: &Given<'_>, fault: &str) -> Result<bool, Fault> {
    let (file, name) = (given.file, given.name);
    let about = format!(in rt.alloc(); "{file}: {name}")?;
    say_words(rt, about.as_str(), fault)
}

// Says why a document doesn't go with what was accepted before.
fn say_conflict(
    rt: &HostRuntime,
    state: &State,
    given: &Given<'_>,
    conflict: Conflict,
) -> Result<bool, Fault> {
    match conflict {
        Conflict::DoubleId => say_double(rt, state, given),
        Conflict::PurchaseLimit => say_limit(rt, state, given),
        other => say_given(rt, given, conflict_code(other)),
    }
}

// Says that a commitment can't have a purchase too.
fn say_limit(rt: &HostRuntime, state: &State, given: &Given<'_>) -> Result<bool, Fault> {
    let reason = limit_text(rt.alloc(), state, given.document)?;
    say_reason(rt, given, "J9 PurchaseLimit", reason.as_str())
}

// Says what a fault of a document means, why this one has it, and what to do. The answer is false.
fn say_reason(
    rt: &HostRuntime,
    given: &Given<'_>,
    fault: &str,
    reason: &str,
) -> Result<bool, Fault> {
    let (file, name) = (given.file, given.name);
    let words = explain_fault(fault);
    let (meaning, remedy) = (words.meaning, words.remedy);
    let _ = eprintln!(rt; "{file}: {name}: {meaning}; {reason}. What to do: {remedy} ({fault})");
    Ok(false)
}

// Says that there is a commitment of the same id with other terms.
fn say_double(rt: &HostRuntime, state: &State, given: &Given<'_>) -> Result<bool, Fault> {
    let fields = match given.document {
        Document::Commitment(commitment) => other_fields(rt.alloc(), state, commitment)?,
        Document::Policy(_) | Document::Purchase(_) => String::new(rt.alloc()),
    };
    let reason = format!(in rt.alloc();
        "it is never changed, and these of its fields differ: {fields}"
    )?;
    say_reason(rt, given, "J2 DoubleId", reason.as_str())
}

// The names of the fields in which a commitment differs from the one of its id, as that was committed to.
fn other_fields(
    alloc: Global,
    state: &State,
    commitment: &Commitment,
) -> Result<String, AllocError> {
    match committed(state, commitment.id()) {
        Some(other) => different_fields(alloc, commitment, other),
        None => Ok(String::new(alloc)),
    }
}

/// The fields of a commitment, in their order.
const FIELDS: [CommitmentField; 11] = [
    CommitmentField::Id,
    CommitmentField::Category,
    CommitmentField::Start,
    CommitmentField::Hours,
    CommitmentField::Capacity,
    CommitmentField::Unit,
    CommitmentField::Skus,
    CommitmentField::Rates,
    CommitmentField::SubAccount,
    CommitmentField::Tags,
    CommitmentField::Purchase,
];

// The names of the fields in which two commitments differ.
fn different_fields(
    alloc: Global,
    one: &Commitment,
    other: &Commitment,
) -> Result<String, AllocError> {
    let mut names = String::new(alloc);
    for field in FIELDS {
        if !agree_in(one, other, field) {
            if !names.is_empty() {
                names.push_str(", ")?;
            }
            names.push_str(field.name())?;
        }
    }
    Ok(names)
}
