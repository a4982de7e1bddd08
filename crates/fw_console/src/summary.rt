//! What a command did, as one line of JSON for programs.
ghost use Rattle.std.specs.Prelude.{◌≡◌, ◌++◌, string_bytes, IfOk};
ghost use Rattle.fw_console.specs.Summaries.{member_text, members_text, summary_text};

use crate::fault::Fault;
use crate::output::print_answer;
use clap::ArgMatches;
use fw_command_line::SUMMARY;
use std::alloc::{AllocError, Global};
use std::process::ExitCode;

/// How many there are of what a command tells of.
#[derive(Clone, Copy, Debug, Drop)]
pub struct Member {
    /// Its name, of ASCII letters alone, which JSON needs no escape for.
    pub name: &'static str,
    pub count: u64,
}

impl Member {
    /// So many, under a name.
    pub fn new(name: &'static str, count: u64) -> Member
        ensures name { result.name.now ≡ name.now }
        ensures count { result.count ≡ count }
    {
        Member { name, count }
    }
}

/// Whether a command is to say what it did as one line of JSON, for programs, and not in words.
pub fn tells_json(options: &ArgMatches<'_>) -> bool {
    options.get_str(SUMMARY) == Some("json")
}

/// Prints what a command did as one line of JSON, which says whether its status is 0. The answer is that status.
///
/// # Errors
/// `Output` where the line can't be written, and `NoMemory`.
pub fn tell(
    rt: &HostRuntime,
    command: &str,
    members: &[Member],
    status: ExitCode,
) -> Result<ExitCode, Fault>
    ensures { IfOk result (λ told. told ≡ status) }
{
    let is_well = status == ExitCode::SUCCESS;
    let line = summary_line(rt.alloc(), command, is_well, members)?;
    print_answer(rt, line.as_bytes())?;
    Ok(status)
}

// What a command did, as an object of JSON on one line: its name, whether it ended well, and what it tells.
#[tactic(auto, unfolding(crate::specs::Summaries::summary_text))]
fn summary_line(
    alloc: Global,
    command: &str,
    is_well: bool,
    members: &[Member],
) -> Result<String, AllocError>
    ensures { IfOk result (λ line. string_bytes line
        ≡ summary_text command.now is_well members.now) }
{
    let mut line = format!(in alloc; "{{\"command\":\"{command}\",\"ok\":{is_well}")?;
    push_members(&mut line, members)?;
    line.push_str("}\n")?;
    Ok(line)
}

// Adds members to an object.
fn push_members(line: &mut String, members: &[Member]) -> Result<(), AllocError>
    ensures { IfOk result (λ done. string_bytes line.new
        ≡ string_bytes line.old ++ members_text members.now) }
{
    for member in members {
        push_member(line, member)?;
    }
    Ok(())
}

// Adds a member to an object.
#[tactic(auto, unfolding(crate::specs::Summaries::member_text))]
fn push_member(line: &mut String, member: &Member) -> Result<(), AllocError>
    ensures { IfOk result (λ done. string_bytes line.new
        ≡ string_bytes line.old ++ member_text member.now) }
{
    let name = member.name;
    write!(line, ",\"{name}\":{}", member.count)
}
