//! The whole command line.
use crate::{
    add, charge, check, checkpoint, commitments, compact, compare, coverage, dump, explain, export,
    import, lines, load, policy, replace, report, run, split, status, verify, withdraw,
};
use clap::Command;
use std::alloc::{AllocError, Global};

/// The version, which `--version` prints: the first number changes with what the program reads or writes.
const VERSION: &str = "0.1.0";

const EXAMPLE: &str = "Example:
  printf '%s\\n' \\
    'post billing 1 2' \\
    'BilledCost,EffectiveCost,BillingCurrency,ChargeCategory,ChargePeriodStart,ChargePeriodEnd,Tags' \\
    '0.1,0.25,USD,Usage,2024-01-01T00:00Z,2024-01-01T01:00Z,\"{\"\"team\"\":\"\"web\"\"}\"' \\
    'report team 2024-01-01T00:00Z 2024-01-02T00:00Z' | focusd run

  prints
    accepted 1
    bytes 83
    Group,BilledCost,EffectiveCost,ChargedCost
    web,0.100000000,0.250000000,0.250000000

  mkdir costs
  focusd run --dir costs --create < september.script
  focusd run --dir costs < october.script

  keeps a warehouse in the folder `costs`: the second run goes on where the first one ended.";

/// The command line of the program.
pub fn command_line<'a>(alloc: Global) -> Result<Command<'a>, AllocError> {
    Command::new(alloc, "focusd")
        .version(VERSION)
        .about("Keeps a warehouse of cloud charges in the columns of FOCUS 1.0")
        .after_help(EXAMPLE)
        .subcommand_required(true)
        .arg_required_else_help(true)
        .subcommands(commands(alloc)?)
}

// The commands, in the order in which the help has them.
fn commands<'a>(alloc: Global) -> Result<Vec<Command<'a>>, AllocError> {
    let mut commands = Vec::new(alloc);
    for name in &Name::ALL {
        commands.push(name.command(alloc)?)?;
    }
    Ok(commands)
}

/// A command of the program.
enum Name {
    Run,
    Import,
    Load,
    Add,
    Replace,
    Withdraw,
    Check,
    Report,
    Compare,
    Lines,
    Export,
    Coverage,
    Commitments,
    Policy,
    Status,
    Verify,
    Checkpoint,
    Compact,
    Dump,
    Split,
    Charge,
    Explain,
}

impl Name {
    /// All commands, in the order in which the help has them.
    const ALL: [Name; 22] = [
        Name::Run,
        Name::Import,
        Name::Load,
        Name::Add,
        Name::Replace,
        Name::Withdraw,
        Name::Check,
        Name::Report,
        Name::Compare,
        Name::Lines,
        Name::Export,
        Name::Coverage,
        Name::Commitments,
        Name::Policy,
        Name::Status,
        Name::Verify,
        Name::Checkpoint,
        Name::Compact,
        Name::Dump,
        Name::Split,
        Name::Charge,
        Name::Explain,
    ];

    /// The command's part of the command line.
    fn command<'a>(&self, alloc: Global) -> Result<Command<'a>, AllocError> {
        match self {
            Name::Run => run::command(alloc),
            Name::Import => import::command(alloc),
            Name::Load => load::command(alloc),
            Name::Add => add::command(alloc),
            Name::Replace => replace::command(alloc),
            Name::Withdraw => withdraw::command(alloc),
            Name::Check => check::command(alloc),
            Name::Report => report::command(alloc),
            Name::Compare => compare::command(alloc),
            Name::Lines => lines::command(alloc),
            Name::Export => export::command(alloc),
            Name::Coverage => coverage::command(alloc),
            Name::Commitments => commitments::command(alloc),
            Name::Policy => policy::command(alloc),
            Name::Status => status::command(alloc),
            Name::Verify => verify::command(alloc),
            Name::Checkpoint => checkpoint::command(alloc),
            Name::Compact => compact::command(alloc),
            Name::Dump => dump::command(alloc),
            Name::Split => split::command(alloc),
            Name::Charge => charge::command(alloc),
            Name::Explain => explain::command(alloc),
        }
    }
}
