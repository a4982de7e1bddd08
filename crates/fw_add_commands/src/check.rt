//! All files are read and checked before the first is added.
use crate::bought::print_bought;
use crate::faults::{say_fault, say_old_side, say_refusal};
use crate::matched::print_matches;
use crate::printing::print_line;
use crate::texts::{Given, document_text, name_text, replaced_text};
use fw_adding::{AddFault, Outcome, Tried, try_document};
use fw_console::{Fault, Member, toml_of};
use fw_documents::{Document, read_document};
use fw_entry::CommandKind;
use fw_entry_bytes::Form;
use fw_explain::explain_fault;
use fw_snapshot::State;
use fw_table::shown_text;
use std::alloc::{AllocError, Global};

/// What the options ask for.
#[derive(Drop)]
pub(crate) struct Job<'a> {
    /// Who sends the files.
    pub(crate) origin: &'a str,
    /// Whether nothing is written.
    pub(crate) is_dry: bool,
    /// Whether a policy may take the place of one by another key, and a purchase of which an equal one is there is added again.
    pub(crate) says_yes: bool,
    /// Whether what becomes of the files isn't said in words.
    pub(crate) is_silent: bool,
}

/// What became of documents, or would where nothing is to be written.
#[derive(Clone, Copy, Default, Drop)]
pub(crate) struct Tally {
    /// Documents that were added.
    pub(crate) added: u64,
    /// Documents that were there already.
    pub(crate) same: u64,
}

impl Tally {
    /// One more document is counted.
    pub(crate) fn count(&mut self, outcome: Outcome) {
        match outcome {
            Outcome::Added => self.added = self.added.saturating_add(1),
            Outcome::Same => self.same = self.same.saturating_add(1),
        }
    }

    /// Its members in JSON.
    pub(crate) fn members(self) -> [Member; 2] {
        [
            Member::new("added", self.added),
            Member::new("same", self.same),
        ]
    }
}

/// What a warehouse would become by the files that were checked.
#[derive(Drop)]
pub(crate) struct Trial {
    /// The warehouse with these files.
    state: State,
    /// The form of its log.
    form: Form,
    /// What the files hold, in order.
    documents: Vec<Document>,
    /// What would become of them.
    pub(crate) tally: Tally,
}

impl Trial {
    /// No file was checked yet.
    pub(crate) fn new(alloc: Global, state: &State, form: Form) -> Result<Trial, AllocError> {
        Ok(Trial {
            state: state.copy()?,
            form,
            documents: Vec::new(alloc),
            tally: Tally::default(),
        })
    }

    /// What the files hold, in order.
    pub(crate) fn documents(&self) -> &[Document] {
        self.documents.as_slice()
    }

    // One more file is checked, after which the warehouse would be this. The answer is true.
    fn add(&mut self, document: Document, tried: Tried) -> Result<bool, Fault> {
        self.documents.push(document)?;
        self.tally.count(tried.outcome);
        self.state = tried.after;
        Ok(true)
    }
}

/// Checks files in order, each against the warehouse and the files before it; false where one has a fault. Each fault
/// is said, and where nothing is to be written also what each file is.
pub(crate) fn check_all(
    rt: &HostRuntime,
    job: &Job<'_>,
    trial: &mut Trial,
    files: &[&str],
) -> Result<bool, Fault> {
    let mut are_sound = true;
    for file in files {
        are_sound = check_file(rt, job, trial, file)? && are_sound;
    }
    Ok(are_sound)
}

// Checks a file; false where it has a fault, which was said. Messages have its name as a terminal may show it.
fn check_file(
    rt: &HostRuntime,
    job: &Job<'_>,
    trial: &mut Trial,
    file: &str,
) -> Result<bool, Fault> {
    let name = shown_text(rt.alloc(), file)?;
    match toml_of(rt, file)? {
        Some(text) => check_text(rt, job, trial, name.as_str(), text.as_slice()),
        None => Ok(false),
    }
}

// Checks the text of a file.
fn check_text(
    rt: &HostRuntime,
    job: &Job<'_>,
    trial: &mut Trial,
    file: &str,
    text: &[u8],
) -> Result<bool, Fault> {
    match read_document(rt.alloc(), text) {
        Ok(document) => check_document(rt, job, trial, file, document),
        Err(fault) => say_fault(rt, file, text, fault),
    }
}

// Checks what a file holds.
fn check_document(
    rt: &HostRuntime,
    job: &Job<'_>,
    trial: &mut Trial,
    file: &str,
    document: Document,
) -> Result<bool, Fault> {
    match tried(rt, job, trial, file, &document) {
        Ok(Some(tried)) => trial.add(document, tried),
        Ok(None) => Ok(false),
        Err(fault) => Err(fault),
    }
}

// What a warehouse would become by what a file holds; `None` where it is refused, which was said.
fn tried(
    rt: &HostRuntime,
    job: &Job<'_>,
    trial: &Trial,
    file: &str,
    document: &Document,
) -> Result<Option<Tried>, Fault> {
    let name = name_text(rt.alloc(), document)?;
    let given = Given {
        file,
        document,
        name: name.as_str(),
        is_silent: job.is_silent,
    };
    try_given(rt, job, trial, &given)
}

// What a warehouse would become by a document; `None` where it is refused, which was said.
fn try_given(
    rt: &HostRuntime,
    job: &Job<'_>,
    trial: &Trial,
    given: &Given<'_>,
) -> Result<Option<Tried>, Fault> {
    if !goes_in(rt, job, &trial.state, given)? {
        return Ok(None);
    }
    let document = given.document;
    match try_document(rt.alloc(), &trial.state, job.origin, document, job.says_yes) {
        Ok(tried) => kept(is_taken(rt, job, trial, given, &tried), tried),
        Err(AddFault::Store(fault)) => Err(Fault::Store(fault)),
        Err(fault) => {
            say_refusal(rt, &trial.state, job.origin, given, fault)?;
            Ok(None)
        }
    }
}

// Whether a document is tried; false where it is a policy whose key isn't asked for, which is said. Where nothing is to be
// written, what it is is said first.
fn goes_in(
    rt: &HostRuntime,
    job: &Job<'_>,
    state: &State,
    given: &Given<'_>,
) -> Result<bool, Fault> {
    if job.is_dry {
        print_document(rt, state, given)?;
    }
    if job.says_yes || !changes_key(state, given.document) {
        return Ok(true);
    }
    say_other_key(rt, state, given)
}

// What a warehouse would become, where that is taken.
fn kept(is_taken: Result<bool, Fault>, tried: Tried) -> Result<Option<Tried>, Fault> {
    match is_taken {
        Ok(true) => Ok(Some(tried)),
        Ok(false) => Ok(None),
        Err(fault) => Err(fault),
    }
}

// Whether a document that was tried is taken; false where the log is of a form that doesn't have what would be added, which is
// said. Where nothing is to be written, what would become of it is said.
fn is_taken(
    rt: &HostRuntime,
    job: &Job<'_>,
    trial: &Trial,
    given: &Given<'_>,
    tried: &Tried,
) -> Result<bool, Fault> {
    if tried.outcome == Outcome::Added && !has_form(trial.form, given.document) {
        return say_old_side(rt, given);
    }
    if job.is_dry {
        print_tried(rt, job, &trial.state, given, tried)?;
        print_matches(rt, &trial.state, given)?;
        print_bought(rt, given, tried)?;
    }
    Ok(true)
}

// Whether a form has entries of a document.
fn has_form(form: Form, document: &Document) -> bool {
    match document {
        Document::Purchase(_) => form.has_kind(CommandKind::AddPurchase),
        Document::Commitment(_) | Document::Policy(_) => true,
    }
}

// Whether a document is a policy by another key than that of the policy which holds.
fn changes_key(state: &State, document: &Document) -> bool {
    match (document, state.policy()) {
        (Document::Policy(policy), Some(held)) => policy.key() != held.key(),
        _ => false,
    }
}

// Says that a policy takes the place of one by another key, which has to be asked for. The answer is false.
fn say_other_key(rt: &HostRuntime, state: &State, given: &Given<'_>) -> Result<bool, Fault> {
    let (file, name) = (given.file, given.name);
    let replaced = replaced_text(rt.alloc(), state, given.document)?;
    let remedy = explain_fault("A4 OtherKey").remedy;
    let _ = eprintln!(rt;
        "{file}: {name}{replaced}, whose key is another one. What to do: {remedy} (A4 OtherKey)"
    );
    Ok(false)
}

// Says what a file is.
fn print_document(rt: &HostRuntime, state: &State, given: &Given<'_>) -> Result<(), Fault> {
    let text = document_text(rt.alloc(), state.currency(), given)?;
    print_line(rt, given, text.as_str())
}

/// Says that a document is there already.
pub(crate) fn print_same(rt: &HostRuntime, given: &Given<'_>) -> Result<(), Fault> {
    let name = given.name;
    let more = match given.document {
        Document::Purchase(_) => "; give --yes to add it once more",
        Document::Commitment(_) | Document::Policy(_) => "",
    };
    let line = format!(in rt.alloc(); "{name} is there already, the same{more}")?;
    print_line(rt, given, line.as_str())
}

// Says what would become of a file.
fn print_tried(
    rt: &HostRuntime,
    job: &Job<'_>,
    state: &State,
    given: &Given<'_>,
    tried: &Tried,
) -> Result<(), Fault> {
    match tried.outcome {
        Outcome::Added => print_next(rt, job, state, given, tried),
        Outcome::Same => print_same(rt, given),
    }
}

// Says that a document would be added.
fn print_next(
    rt: &HostRuntime,
    job: &Job<'_>,
    state: &State,
    given: &Given<'_>,
    tried: &Tried,
) -> Result<(), Fault> {
    let replaced = replaced_text(rt.alloc(), state, given.document)?;
    let name = given.name;
    let entry = tried.after.entries();
    let origin = job.origin;
    let number = tried.number;
    let line = format!(in rt.alloc();
        "{name}{replaced}: it would be entry {entry} ({origin} {number})"
    )?;
    print_line(rt, given, line.as_str())
}
