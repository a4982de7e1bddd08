//! A code's explanation.
ghost use Rattle.std.specs.Prelude.{◌≡◌, ◌⊎◌, [], IfSome};
ghost use Rattle.fw_explain.specs.Printed.{code_in};

use crate::codes::{
    document_codes, entry_codes, export_codes, file_codes, shard_codes, store_codes,
};

/// What a code means.
#[derive(Clone, Copy, Debug)]
pub struct Explanation {
    /// The code, as `V5`, or `NoMemory`, which has no number.
    pub code: &'static str,
    /// The name that is printed behind it, as `Cost`; empty where nothing is.
    pub name: &'static str,
    /// What was expected, in words that can stand behind "expected"; empty where nothing is expected of one value.
    pub expected: &'static str,
    /// What is wrong, in words.
    pub meaning: &'static str,
    /// What to do about it.
    pub remedy: &'static str,
}

/// How many tables of explanations there are.
const TABLES: usize = 6;

/// All explanations, in the order of the formats' tables.
pub fn explanations() -> [&'static [Explanation]; TABLES] {
    [
        export_codes(),
        document_codes(),
        entry_codes(),
        file_codes(),
        shard_codes(),
        store_codes(),
    ]
}

/// The explanation of a code, as `V5` or `NoMemory`, or `None` where no such code is printed.
pub fn explain(code: &str) -> Option<&'static Explanation>
    ensures { IfSome result (λ e. e.now.code.now ≡ code.now) }
{
    for table in explanations() {
        if let Some(found) = find(table, code) {
            return Some(found);
        }
    }
    None
}

/// The explanation of a fault as it is printed: by its code and its name, as `V5 Cost`, or by its code alone. One without words, and without a code,
/// where no such fault is printed.
pub fn explain_fault(fault: &str) -> Explanation
    ensures { (result.code.now ≡ code_in fault.now) ⊎ (result.code.now ≡ []) }
{
    match explain(code_in(fault)) {
        Some(found) => *found,
        None => UNKNOWN,
    }
}

/// The explanation of what isn't printed.
const UNKNOWN: Explanation = Explanation {
    code: "",
    name: "",
    expected: "",
    meaning: "",
    remedy: "",
};

// The code of a fault as it is printed: all that stands before the first blank.
fn code_in(fault: &str) -> &str
    ensures { result.now ≡ code_in fault.now }
{
    match fault.split_once(' ') {
        Some((code, _)) => code,
        None => fault,
    }
}

// The explanation of a code among some.
fn find<'c>(codes: &'c [Explanation], code: &str) -> Option<&'c Explanation>
    ensures { IfSome result (λ e. e.now.code.now ≡ code.now) }
{
    for explanation in codes {
        if explanation.code == code {
            return Some(explanation);
        }
    }
    None
}
