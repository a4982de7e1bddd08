//! A table of two rules, held against a few values.
ghost use Rattle.std.specs.Prelude.{◌<◌, ◌∷◌, [], MatchOption};
ghost use Rattle.fw_rules.specs.Table.{FirstBroken, NoneBroken};
ghost use Rattle.fw_test_values.specs.declared.rules.SpanFault.TheVariants.{Backwards, Late};

use crate::ended::none_wrong;
use fw_rules::{Ruled, first_is_one, first_or_none};

#[derive(Clone, Copy, Debug, Drop, PartialEq, Eq)]
enum SpanFault {
    Backwards,
    Late,
}

#[derive(Clone, Copy, Drop)]
struct Span {
    start: u32,
    end: u32,
}

impl Ruled for Span {
    type Fault = SpanFault;

    ghost rules = { λ s. (Backwards, s.end < s.start) ∷ (Late, 24 < s.end) ∷ [] };
}

#[tactic(auto, unfolding(fw_rules::specs::Table::FirstBroken, fw_rules::specs::Table::NoneBroken))]
fn first_fault(span: &Span) -> Option<SpanFault>
    ensures { let rules = ⟦<Span as Ruled>⟧.rules span.now
        in MatchOption result (NoneBroken rules) (λ f. FirstBroken rules f) }
{
    first_is_one(span);
    first_or_none(span);
    if span.end < span.start {
        Some(SpanFault::Backwards)
    } else if span.end > 24 {
        Some(SpanFault::Late)
    } else {
        None
    }
}

const SPANS: &[(u32, u32, Option<SpanFault>)] = &[
    (3, 2, Some(SpanFault::Backwards)),
    (40, 30, Some(SpanFault::Backwards)),
    (2, 25, Some(SpanFault::Late)),
    (2, 24, None),
    (2, 2, None),
];

/// The place of the first span with another fault.
fn first_wrong_span() -> Option<usize> {
    for (place, (start, end, fault)) in SPANS.iter().enumerate() {
        let span = Span {
            start: *start,
            end: *end,
        };
        if first_fault(&span) != *fault {
            return Some(place);
        }
    }
    None
}

#[test]
fn faults_of_spans(rt: HostRuntime) {
    none_wrong(&rt, first_wrong_span());
}
