//! Entries by what a script says of them.
ghost use Rattle.std.specs.Prelude.{IfOk};
ghost use Rattle.fw_entry.specs.Spelling.{HasRowCount};
ghost use Rattle.fw_entry.specs.View.{command_view};

use crate::script::Fault;
use fw_charge::MOST_POST_ROWS;
use fw_column_rows::read_columns;
use fw_commitment::{CommitmentFault, read_commitment, read_purchase};
use fw_entry::Command;
use fw_policy::{PolicyFault, read_policy};
use fw_rows::{Currency, RowFault};
use std::alloc::Global;

/// The currency of all costs.
pub(crate) const CURRENCY: &[u8] = b"USD";

const HEADER: &str =
    "BilledCost,EffectiveCost,BillingCurrency,ChargeCategory,ChargePeriodStart,ChargePeriodEnd,\
CommitmentDiscountId,CommitmentDiscountCategory,CommitmentDiscountStatus\n";

/// What a commitment has behind its id.
const TERMS: &str = "category = \"Usage\"
start = \"2024-01-01T00:00Z\"
hours = 1
capacity = \"1\"
unit = \"Hours\"
skus = [\"vm\"]
[[purchase]]
at = \"2024-01-01T00:00Z\"
billed = \"1\"
";

impl From<RowFault> for Fault {
    fn from(fault: RowFault) -> Fault {
        match fault {
            RowFault::NoMemory => Fault::NoMemory,
            _ => Fault::Script,
        }
    }
}

impl From<CommitmentFault> for Fault {
    fn from(fault: CommitmentFault) -> Fault {
        match fault {
            CommitmentFault::NoMemory => Fault::NoMemory,
            _ => Fault::Script,
        }
    }
}

impl From<PolicyFault> for Fault {
    fn from(fault: PolicyFault) -> Fault {
        match fault {
            PolicyFault::NoMemory => Fault::NoMemory,
            _ => Fault::Script,
        }
    }
}

/// So many rows, each of this cost and none of a commitment.
pub(crate) fn rows_of_cost(alloc: Global, rows: usize, cost: &str) -> Result<Command, Fault>
    ensures { IfOk result (λ command. HasRowCount (command_view command)) }
{
    let mut text = String::from_str(alloc, HEADER)?;
    for _ in 0..rows {
        text.push_str(cost)?;
        text.push_str(",0,USD,Usage,2024-01-01T00:00Z,2024-01-01T01:00Z,,,\n")?;
    }
    post_of(alloc, text.as_bytes())
}

/// A row that names a commitment.
pub(crate) fn row_of_commitment(alloc: Global, id: &str) -> Result<Command, Fault>
    ensures { IfOk result (λ command. HasRowCount (command_view command)) }
{
    let row = "1,1,USD,Usage,2024-01-01T00:00Z,2024-01-01T01:00Z";
    let text = format!(in alloc; "{HEADER}{row},{id},Usage,Used\n")?;
    post_of(alloc, text.as_bytes())
}

// The post of the rows that a text has.
fn post_of(alloc: Global, text: &[u8]) -> Result<Command, Fault>
    ensures { IfOk result (λ command. HasRowCount (command_view command)) }
{
    let Some(currency) = Currency::new(CURRENCY) else {
        return Err(Fault::Script);
    };
    let rows = read_columns(alloc, text, currency)?;
    if rows.len() > MOST_POST_ROWS {
        return Err(Fault::Script);
    }
    Ok(Command::Post(rows))
}

/// A commitment of this id.
pub(crate) fn commitment_of(alloc: Global, id: &str) -> Result<Command, Fault>
    ensures { IfOk result (λ command. HasRowCount (command_view command)) }
{
    let text = format!(in alloc; "id = \"{id}\"\n{TERMS}")?;
    Ok(Command::Commit(read_commitment(alloc, text.as_bytes())?))
}

/// A purchase that is added to the commitment of this id, at this cost.
pub(crate) fn purchase_of(alloc: Global, id: &str, cost: &str) -> Result<Command, Fault>
    ensures { IfOk result (λ command. HasRowCount (command_view command)) }
{
    let text = format!(in alloc;
        "id = \"{id}\"\nat = \"2024-01-01T00:00Z\"\nbilled = \"{cost}\"\n"
    )?;
    Ok(Command::AddPurchase(read_purchase(alloc, text.as_bytes())?))
}

/// A policy by this key, without rules.
pub(crate) fn policy_of(alloc: Global, key: &str) -> Result<Command, Fault>
    ensures { IfOk result (λ command. HasRowCount (command_view command)) }
{
    let text = format!(in alloc; "key = \"{key}\"\n")?;
    Ok(Command::SetPolicy(read_policy(alloc, text.as_bytes())?))
}
