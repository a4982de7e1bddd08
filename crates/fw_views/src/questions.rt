//! Questions, and their answers as text.
ghost use Rattle.std.specs.Prelude.{◌≡◌, ℕ, List, None, IfErr, IfOk};
ghost use Rattle.fw_amortise.specs.LineValue.{LineValue};
ghost use Rattle.fw_query.specs.OfHistory.{AreLinesOf};
ghost use Rattle.fw_query.specs.Refusals.{AreRefused};
ghost use Rattle.fw_query.specs.Texts.{lines_text};
ghost use Rattle.fw_views.specs.declared.covered.CoverageFormat.{CoverageFormat};
ghost use Rattle.fw_views.specs.declared.questions.Question.TheVariants.{Coverage, Lines};

use crate::covered::{CoverageFormat, coverage_text};
use crate::status::{contents_text, sound_text, status_text};
use fw_calendar::Step;
use fw_direct::direct_text;
use fw_disk::Volume;
use fw_query::{Query, QueryFault, lines_csv};
use fw_recover::Store;
use fw_snapshot::Snapshot;
use std::alloc::Global;

/// A question to a warehouse.
#[derive(Clone, Copy, Debug)]
pub enum Question<'q> {
    /// What each group of a tag cost before any policy, in the whole range or by period, as a document that can be added to others.
    Direct {
        query: Query<'q>,
        step: Option<Step>,
    },
    /// Each line behind the costs of the hours from `from` up to, not including, `to`, counted from 1970.
    Lines {
        from: u64,
        to: u64,
    },
    /// How well each commitment was used in the hours from `from` up to, not including, `to`, counted from 1970.
    Coverage {
        from: u64,
        to: u64,
        format: CoverageFormat,
    },
    /// What the warehouse holds.
    Status,
    /// Whether its files are sound.
    Verify,
}

/// The answer to a question, as text; costs are in units of the currency. Nothing changes.
///
/// # Errors
/// Of a direct report, of lines and of a coverage `Range` where the range has no hour or more than 26,304; of a direct report `TotalTooLarge` where the
/// costs of the range or, where it is cut, of a period pass 10^19 nanos; of each question `NoMemory` where memory ran out.
pub fn answer<V: Volume>(
    alloc: Global,
    store: &Store<V>,
    question: &Question<'_>,
) -> Result<Vec<u8>, QueryFault>
    ensures lines { (from to : ℕ) → question.now ≡ Lines from to
        → IfOk result (λ text. (lines : List LineValue)
        × AreLinesOf store.now.history.entries from to lines
        × (text.items ≡ lines_text lines)) }
    ensures lines_fault { (from to : ℕ) → question.now ≡ Lines from to
        → IfErr result (AreRefused from to) }
    ensures coverage_fault { (from to : ℕ) (format : CoverageFormat)
        → question.now ≡ Coverage from to format → IfErr result (AreRefused from to) }
{
    match question {
        Question::Status => Ok(status_text(alloc, store)?.into_bytes()),
        Question::Verify => Ok(sound_text(alloc, store)?.into_bytes()),
        _ => answer_of(alloc, store.state(), question),
    }
}

/// The answer of a warehouse that has no files, as one that is as it was after its first entries. It is the same as that of [`answer`], but that of
/// files nothing is said: `Status` and `Verify` are answered by what the warehouse holds.
///
/// # Errors
/// Those of [`answer`].
pub fn answer_of(
    alloc: Global,
    snapshot: &Snapshot,
    question: &Question<'_>,
) -> Result<Vec<u8>, QueryFault>
    ensures lines { (from to : ℕ) → question.now ≡ Lines from to
        → IfOk result (λ text. (lines : List LineValue)
        × AreLinesOf snapshot.now.entries from to lines
        × (text.items ≡ lines_text lines)) }
    ensures lines_fault { (from to : ℕ) → question.now ≡ Lines from to
        → IfErr result (AreRefused from to) }
    ensures coverage_fault { (from to : ℕ) (format : CoverageFormat)
        → question.now ≡ Coverage from to format → IfErr result (AreRefused from to) }
{
    match question {
        Question::Direct { query, step } => direct_text(alloc, snapshot, query, *step),
        Question::Lines { from, to } => lines_csv(alloc, snapshot, *from, *to),
        Question::Coverage { from, to, format } => {
            coverage_text(alloc, snapshot, *from, *to, *format)
        }
        Question::Status | Question::Verify => {
            Ok(contents_text(alloc, snapshot.state())?.into_bytes())
        }
    }
}
