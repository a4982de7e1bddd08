//! What is charged: category and class, costs and period of a record, each checked against its rules.
ghost use Rattle.std.specs.Prelude.{◌≡◌, ◌↔◌, IsTrue};
ghost use Rattle.fw_rows.specs.Judged.{Judged};
ghost use Rattle.fw_rows.specs.Parts.{texts_of, charged_rules, ChargedStands, WordsStand, CostsStand, PeriodStands};
ghost use Rattle.fw_rows.specs.Rules.{word_rules, cost_rules, period_rules};
ghost use Rattle.fw_rows.specs.declared.column.Column.TheVariants as column;

use crate::cells::Cells;
use crate::column::Column;
use crate::fault::RecordFault;
use crate::values::{amount_beside, amount_of};
use fw_charge::{Category, Currency, class_from_word};
use fw_instants::InstantReader;
use fw_money::Nanos;

/// ChargeCategory, and whether ChargeClass is that of a correction.
#[derive(Clone, Copy, Drop)]
pub struct Words {
    pub category: Category,
    pub is_correction: bool,
}

/// BilledCost and EffectiveCost.
#[derive(Clone, Copy, Drop)]
pub struct Costs {
    pub billed: Nanos,
    pub effective: Nanos,
}

/// The seconds of ChargePeriodStart and ChargePeriodEnd.
#[derive(Clone, Copy, Drop)]
pub struct Period {
    pub start: u64,
    pub end: u64,
}

/// What is charged: the kind of charge, the costs and the period.
#[derive(Clone, Copy, Drop)]
pub struct Charged {
    pub words: Words,
    pub costs: Costs,
    pub period: Period,
}

/// The readers of the two instants of charge periods, each of which knows the last one.
#[derive(Debug, Drop)]
pub struct PeriodReaders {
    starts: InstantReader,
    ends: InstantReader,
}

impl PeriodReaders {
    /// Readers that know no instant.
    pub fn new() -> PeriodReaders {
        PeriodReaders {
            starts: InstantReader::new(),
            ends: InstantReader::new(),
        }
    }
}

impl<'a> Cells<'a> {
    /// What is charged.
    pub fn charged(
        &self,
        currency: Currency,
        periods: &mut PeriodReaders,
    ) -> Result<Charged, RecordFault>
        ensures { let at = texts_of self.now
            in Judged (charged_rules currency at) (ChargedStands at) result }
    {
        let words = self.words()?;
        let costs = self.costs(currency)?;
        let period = self.period(periods)?;
        Ok(Charged {
            words,
            costs,
            period,
        })
    }

    /// What kind of charge it is.
    pub(crate) fn words(&self) -> Result<Words, RecordFault>
        ensures { let at = texts_of self.now in Judged (word_rules at) (WordsStand at) result }
    {
        let Some(category) = Category::from_word(self.text(Column::ChargeCategory)) else {
            return Err(RecordFault::Category);
        };
        let Some(is_correction) = class_from_word(self.text(Column::ChargeClass)) else {
            return Err(RecordFault::Class);
        };
        Ok(Words {
            category,
            is_correction,
        })
    }

    /// The costs, which are in this currency.
    pub(crate) fn costs(&self, currency: Currency) -> Result<Costs, RecordFault>
        ensures { let at = texts_of self.now
            in Judged (cost_rules currency at) (CostsStand at) result }
    {
        let billed_text = self.text(Column::BilledCost);
        let Some(billed) = amount_of(billed_text) else {
            return Err(RecordFault::Cost);
        };
        let effective_text = self.text(Column::EffectiveCost);
        let Some(effective) = amount_beside(effective_text, billed_text, billed) else {
            return Err(RecordFault::Cost);
        };
        if !self.is_in(currency) {
            return Err(RecordFault::Currency);
        }
        Ok(Costs { billed, effective })
    }

    /// Whether the costs are in this currency.
    fn is_in(&self, currency: Currency) -> bool
        ensures { IsTrue result ↔ (texts_of self.now column.BillingCurrency ≡ currency) }
    {
        self.text(Column::BillingCurrency).as_bytes() == currency.code()
    }

    /// The charge period.
    pub(crate) fn period(&self, periods: &mut PeriodReaders) -> Result<Period, RecordFault>
        ensures { let at = texts_of self.now in Judged (period_rules at) (PeriodStands at) result }
    {
        let Some(start) = periods
            .starts
            .second_of(self.text(Column::ChargePeriodStart))
        else {
            return Err(RecordFault::Time);
        };
        let Some(end) = periods.ends.second_of(self.text(Column::ChargePeriodEnd)) else {
            return Err(RecordFault::Time);
        };
        if end < start {
            return Err(RecordFault::PeriodOrder);
        }
        Ok(Period { start, end })
    }
}
