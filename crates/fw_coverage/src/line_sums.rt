//! What lines carry of a commitment.
ghost use Rattle.std.specs.Prelude.{◌≡◌, ◌+◌, ◌+ℤ◌, ◌∷◌, [], if◌then◌else◌, pos, IfOk};
ghost use Rattle.fw_coverage.specs.Tallies.{line_sums, no_sums, with_sums};
ghost use Rattle.fw_query.specs.Texts.{id_text};

use fw_amortise::Line;
use fw_charge::{Category, DiscountStatus};
use fw_money::Nanos;
use fw_query::{id_of, status_of};
use std::alloc::AllocError;

// What lines carry of a commitment, in nanos.
#[derive(Clone, Copy, Drop)]
pub(crate) struct LineSums {
    // whether one has its id
    pub(crate) shown: bool,
    // EffectiveCost of its Used lines
    pub(crate) used: i128,
    // EffectiveCost of its Unused lines
    pub(crate) unused: i128,
    // BilledCost of its purchases
    pub(crate) paid: i128,
}

impl LineSums {
    // What no lines carry.
    #[tactic(auto, unfolding(crate::specs::Tallies::no_sums))]
    pub(crate) fn none() -> LineSums
        ensures { result ≡ no_sums }
    {
        LineSums {
            shown: false,
            used: 0,
            unused: 0,
            paid: 0,
        }
    }

    // What a line carries of the commitment whose id it has.
    fn of_own(line: &Line<'_>) -> LineSums
        ensures { result ≡ line_sums (id_text line.now.commitment) (line.now ∷ []) }
    {
        let status = status_of(line.commitment());
        let is_used = status == DiscountStatus::Used.word();
        let is_unused = status == DiscountStatus::Unused.word();
        let is_purchase = line.category().word() == Category::Purchase.word();
        LineSums {
            shown: true,
            used: counted(is_used, line.effective()),
            unused: counted(is_unused, line.effective()),
            paid: counted(is_purchase, line.billed()),
        }
    }

    // With what further lines carry. A sum past 2^127 takes more lines than any memory holds, and is answered as out of memory.
    #[tactic(auto, unfolding(crate::specs::Tallies::with_sums))]
    pub(crate) fn with(self, more: LineSums) -> Result<LineSums, AllocError>
        ensures { IfOk result (λ sums. sums ≡ with_sums self more) }
    {
        Ok(LineSums {
            shown: self.shown | more.shown,
            used: sum(self.used, more.used)?,
            unused: sum(self.unused, more.unused)?,
            paid: sum(self.paid, more.paid)?,
        })
    }

    // With what one more line carries of the commitment with this id.
    fn with_line(self, id: &str, line: &Line<'_>) -> Result<LineSums, AllocError>
        ensures { IfOk result (λ sums. sums ≡ with_sums self (line_sums id.now (line.now ∷ []))) }
    {
        if id_of(line.commitment()) == id {
            self.with(LineSums::of_own(line))
        } else {
            Ok(self)
        }
    }

    // What lines carry of the commitment with this id.
    pub(crate) fn of_lines(id: &str, lines: &[Line<'_>]) -> Result<LineSums, AllocError>
        ensures { IfOk result (λ sums. sums ≡ line_sums id.now lines.now) }
    {
        let mut sums = LineSums::none();
        for line in lines {
            sums = sums.with_line(id, line)?;
        }
        Ok(sums)
    }
}

// An amount that counts, or 0.
fn counted(counts: bool, amount: Nanos) -> i128
    ensures { result ≡ (if counts then amount else pos 0) }
{
    if counts {
        i128::from(amount.count())
    } else {
        0
    }
}

// The sum of two amounts.
fn sum(a: i128, b: i128) -> Result<i128, AllocError>
    ensures { IfOk result (λ s. s ≡ a +ℤ b) }
{
    match a.checked_add(b) {
        Some(sum) => Ok(sum),
        None => Err(AllocError),
    }
}
