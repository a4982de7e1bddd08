//! Documents: what a person keeps in a TOML file, and adds to a warehouse.
ghost use Rattle.std.specs.Prelude.{◌≡◌, IfOk, IfErr, Ok, MatchResult};
ghost use Rattle.fw_commitment.specs.Added.{PurchaseReads};
ghost use Rattle.fw_commitment.specs.Reading.{CommitmentReads};
ghost use Rattle.fw_entry.specs.Spelling.{HasRowCount};
ghost use Rattle.fw_entry.specs.View.{command_view};
ghost use Rattle.fw_policy.specs.Policy.{PolicyReads};
ghost use Rattle.fw_toml.specs.Tree.{IsTable, stated};
ghost use Rattle.fw_documents.specs.Documents.{command_of, IsDocument, IsNoDocument, IsOfKind};

use crate::fault::DocumentFault;
use crate::kind::Kind;
use fw_commitment::{CommitmentFault, read_commitment, read_purchase};
use fw_entry::Command;
use fw_policy::{PolicyFault, read_policy};
use fw_terms::{AddedPurchase, Commitment, Policy};
use fw_toml::{TableFault, table_of};
use std::alloc::{AllocError, Global};

/// What a file holds.
#[derive(Debug)]
pub enum Document {
    /// A commitment.
    Commitment(Commitment),
    /// A policy.
    Policy(Policy),
    /// A purchase that is added to a commitment.
    Purchase(AddedPurchase),
}

impl Drop for Document {
    fn drop(self) {
        match self {
            Self::Commitment(_) | Self::Policy(_) | Self::Purchase(_) => {}
        }
    }
}

impl Document {
    /// What the document asks a warehouse for. The error comes where memory ran out.
    pub fn command(&self, alloc: Global) -> Result<Command, AllocError>
        ensures command { IfOk result (λ command. command_view command ≡ command_of self.now) }
        ensures rows { IfOk result (λ command. HasRowCount (command_view command)) }
    {
        match self {
            Document::Commitment(commitment) => Ok(Command::Commit(commitment.copy()?)),
            Document::Policy(policy) => Ok(Command::SetPolicy(policy.copy(alloc)?)),
            Document::Purchase(added) => Ok(Command::AddPurchase(added.copy(alloc)?)),
        }
    }
}

/// Reads a document from a TOML text. Which one it is, is seen from its top-level names.
///
/// # Errors
/// `Syntax` where the text is not UTF-8 or no TOML; `NoKind` where no name tells what it is, `TwoKinds` where its names
/// tell two things; `Commitment`, `Policy` and `Purchase` where it is one with a fault, the first one. `NoMemory` comes
/// where memory runs out, at any place.
pub fn read_document(alloc: Global, text: &[u8]) -> Result<Document, DocumentFault>
    ensures { MatchResult result (IsDocument text.now) (IsNoDocument text.now) }
{
    match kind_of(alloc, text) {
        Ok(Kind::Commitment) => commitment_of(alloc, text),
        Ok(Kind::Policy) => policy_of(alloc, text),
        Ok(Kind::Purchase) => purchase_of(alloc, text),
        Err(fault) => Err(fault),
    }
}

// What the names of a text say that it is.
#[tactic(auto, unfolding(crate::specs::Documents::IsNoDocument))]
fn kind_of(alloc: Global, text: &[u8]) -> Result<Kind, DocumentFault>
    ensures { MatchResult result (IsOfKind text.now) (IsNoDocument text.now) }
{
    match table_of(alloc, text) {
        Ok(table) => Kind::of_table(&table),
        Err(TableFault::Syntax) => Err(DocumentFault::Syntax),
        Err(TableFault::NoMemory) => Err(DocumentFault::NoMemory),
    }
}

// The commitment of a text whose names say that it is one.
#[tactic(auto, unfolding(crate::specs::Documents::IsDocument, crate::specs::Documents::IsNoDocument))]
fn commitment_of(alloc: Global, text: &[u8]) -> Result<Document, DocumentFault>
    requires { IsOfKind text.now Kind.Commitment }
    ensures { MatchResult result (IsDocument text.now) (IsNoDocument text.now) }
{
    match read_commitment(alloc, text) {
        Ok(commitment) => Ok(Document::Commitment(commitment)),
        Err(CommitmentFault::NoMemory) => Err(DocumentFault::NoMemory),
        Err(fault) => Err(DocumentFault::Commitment(fault)),
    }
}

// The policy of a text whose names say that it is one.
#[tactic(auto, unfolding(crate::specs::Documents::IsDocument, crate::specs::Documents::IsNoDocument))]
fn policy_of(alloc: Global, text: &[u8]) -> Result<Document, DocumentFault>
    requires { IsOfKind text.now Kind.Policy }
    ensures { MatchResult result (IsDocument text.now) (IsNoDocument text.now) }
{
    match read_policy(alloc, text) {
        Ok(policy) => Ok(Document::Policy(policy)),
        Err(PolicyFault::NoMemory) => Err(DocumentFault::NoMemory),
        Err(fault) => Err(DocumentFault::Policy(fault)),
    }
}

// The purchase of a text whose names say that it is one.
#[tactic(auto, unfolding(crate::specs::Documents::IsDocument, crate::specs::Documents::IsNoDocument))]
fn purchase_of(alloc: Global, text: &[u8]) -> Result<Document, DocumentFault>
    requires { IsOfKind text.now Kind.Purchase }
    ensures { MatchResult result (IsDocument text.now) (IsNoDocument text.now) }
{
    match read_purchase(alloc, text) {
        Ok(added) => Ok(Document::Purchase(added)),
        Err(CommitmentFault::NoMemory) => Err(DocumentFault::NoMemory),
        Err(fault) => Err(DocumentFault::Purchase(fault)),
    }
}
