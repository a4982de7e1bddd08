//! `focusd explain`: what a code means, and what to do; or all codes.
use clap::ArgMatches;
use fw_command_line::CODE;
use fw_console::{Fault, WRONG_USE, print_answer};
use fw_explain::{Explanation, explain, explanations};
use std::alloc::{AllocError, Global};
use std::process::ExitCode;

/// Prints what the code means, or where none is given a line for each code.
pub fn print_explanation(rt: &HostRuntime, options: &ArgMatches<'_>) -> Result<ExitCode, Fault> {
    match options.get_str(CODE) {
        Some(code) => print_one(rt, code),
        None => {
            let text = list_text(rt.alloc())?;
            print_answer(rt, text.as_bytes())
        }
    }
}

// Prints what a code means.
fn print_one(rt: &HostRuntime, code: &str) -> Result<ExitCode, Fault> {
    let Some(found) = explain(code) else {
        let _ = eprintln!(rt;
            "focusd: {code:?} is no code that focusd prints: write a letter and a number, as V5, or NoMemory"
        );
        return Ok(ExitCode::from(WRONG_USE));
    };
    let text = explanation_text(rt.alloc(), found)?;
    print_answer(rt, text.as_bytes())
}

// The code with its name, if it has one, what it means, and what to do.
fn explanation_text(alloc: Global, found: &Explanation) -> Result<String, AllocError> {
    let (code, name) = (found.code, found.name);
    let (meaning, remedy) = (found.meaning, found.remedy);
    let space = if name.is_empty() { "" } else { " " };
    format!(in alloc; "{code}{space}{name}: {meaning}.\nWhat to do: {remedy}\n")
}

// A line for each code.
fn list_text(alloc: Global) -> Result<String, AllocError> {
    let mut text = String::new(alloc);
    for table in explanations() {
        put_lines(&mut text, table)?;
    }
    Ok(text)
}

// Writes a line for each code of a table: the code with its name, if it has one, and what it means.
fn put_lines(text: &mut String, table: &[Explanation]) -> Result<(), AllocError> {
    for row in table {
        let (code, name, meaning) = (row.code, row.name, row.meaning);
        let space = if name.is_empty() { "" } else { " " };
        write!(text, "{code}{space}{name}: {meaning}\n")?;
    }
    Ok(())
}
