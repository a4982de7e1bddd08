//! TOML files of policies and commitments.
use crate::faults::say_fault;
use fw_console::{Fault, refuse, toml_of};
use fw_documents::{Document, read_document};
use fw_table::shown_text;

/// What a TOML file has; none where it can't be read or has a fault, which was said.
pub fn document_of(rt: &HostRuntime, file: &str) -> Result<Option<Document>, Fault> {
    let Some(text) = toml_of(rt, file)? else {
        return Ok(None);
    };
    match read_document(rt.alloc(), text.as_slice()) {
        Ok(document) => Ok(Some(document)),
        Err(fault) => {
            let name = shown_text(rt.alloc(), file)?;
            say_fault(rt, name.as_str(), text.as_slice(), fault)?;
            Ok(None)
        }
    }
}

/// Says that a file has a document of another kind than the option asks for. The answer is false.
pub fn other_kind(rt: &HostRuntime, file: &str, wanted: &str) -> Result<bool, Fault> {
    let name = shown_text(rt.alloc(), file)?;
    let reason = format!(in rt.alloc(); "it is no {wanted}")?;
    Ok(refuse(rt, name.as_str(), "W9 OtherKind", reason.as_str()))
}
