//! Whether to go on.
use fw_console::Fault;
use std::io::{self, BufRead, IsTerminal};

/// What was answered to a question.
#[derive(Clone, Copy, Drop)]
pub(crate) enum Answer {
    /// To go on.
    Yes,
    /// Not to.
    No,
    /// Nobody is there to answer: standard input is no terminal.
    Nobody,
}

/// Asks a question on standard error where standard input is a terminal. Only `y` and `yes` mean yes.
pub(crate) fn ask(rt: &HostRuntime, question: &str) -> Result<Answer, Fault> {
    if !rt.stdin().is_terminal() {
        return Ok(Answer::Nobody);
    }
    let _ = eprint!(rt; "{question} [y/N] ");
    let mut line = String::new(rt.alloc());
    match rt.stdin().read_line(&mut line) {
        Ok(_) => Ok(meant(line.as_str())),
        Err(error) if error.kind() == io::ErrorKind::OutOfMemory => Err(Fault::NoMemory),
        Err(_) => Ok(Answer::No),
    }
}

// What a line means as an answer.
fn meant(line: &str) -> Answer {
    match line.trim() {
        "y" | "yes" | "Y" | "Yes" | "YES" => Answer::Yes,
        _ => Answer::No,
    }
}
