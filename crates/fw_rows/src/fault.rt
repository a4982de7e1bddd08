//! Why a text has no rows.
ghost use Rattle.std.specs.Prelude.{◌≡◌};
ghost use Rattle.fw_rows.specs.declared.fault.Refusal.TheVariants.{Broken, NoMemory as WantOfMemory};
ghost use Rattle.fw_rows.specs.declared.fault.RowFault.TheVariants.{NoMemory};

use crate::column::Column;
use fw_tags::TagFault;
use std::alloc::{AllocError, AllocFailed};
use thiserror::Error;

/// Why a record is no row, in the order in which the rules are checked.
#[derive(Clone, Copy, Debug, Drop, PartialEq, Eq, Error)]
pub enum RecordFault {
    /// The record has more or fewer fields than the header.
    #[error("the record has not as many fields as the header")]
    Fields,
    /// A field in one of the columns that are read is not UTF-8.
    #[error("a field that is read is not UTF-8")]
    NotUtf8,
    /// ChargeCategory is none of the five words of `Category`.
    #[error("ChargeCategory is none of the five words")]
    Category,
    /// ChargeClass is neither null nor `Correction`.
    #[error("ChargeClass is neither null nor Correction")]
    Class,
    /// BilledCost or EffectiveCost is null, no number text, too long a one, or past the greatest amount.
    #[error("BilledCost or EffectiveCost is null or no amount")]
    Cost,
    /// BillingCurrency is not the code of the currency.
    #[error("BillingCurrency is not the currency of the warehouse")]
    Currency,
    /// ChargePeriodStart or ChargePeriodEnd is not read as an instant, has a fraction of a second that is not zero, or lies before 1970.
    #[error("ChargePeriodStart or ChargePeriodEnd is no whole second from 1970 on")]
    Time,
    /// ChargePeriodEnd is before ChargePeriodStart; they may be equal.
    #[error("ChargePeriodEnd is before ChargePeriodStart")]
    PeriodOrder,
    /// Of CommitmentDiscountId and CommitmentDiscountCategory one alone is null, or the category is neither `Usage` nor `Spend`.
    #[error("CommitmentDiscountCategory is not Usage or Spend exactly where CommitmentDiscountId is not null")]
    Commitment,
    /// CommitmentDiscountStatus stands without CommitmentDiscountId, is neither `Used` nor `Unused`, or is null in a usage row with an id.
    #[error("CommitmentDiscountStatus is not Used or Unused where it must be, or stands where it must not")]
    Status,
    /// ConsumedQuantity is neither null nor a number text. One past the greatest quantity is no fault, and is kept as null.
    #[error("ConsumedQuantity is neither null nor a number")]
    Quantity,
    /// Tags is neither null nor a JSON object of texts, `true`, `false` and null.
    #[error("Tags is neither null nor an object of texts, true, false and null")]
    BadTags,
    /// CommitmentDiscountId, ConsumedUnit, SkuId or SubAccountId has more than 256 bytes, a tag's key or text has more than 1,024 bytes,
    /// or there are more than 256 tags. Tags are counted as the object is read, with each key once.
    #[error("an id, a unit, a SKU, an account or a tag is too long, or there are too many tags")]
    TooLong,
    /// Tags has the tag already that the text of a kept column is to be. It is looked for before `Category`.
    #[error("Tags has the tag of a kept column already")]
    TagTwice,
}

impl RecordFault {
    ghost use Rattle.fw_rows.specs.FaultNames.{fault_name};

    /// The code and the name, as `V5 Cost`.
    #[tactic(auto, unfolding(crate::specs::FaultNames::fault_name))]
    pub fn name(self) -> &'static str
        ensures { result.now ≡ fault_name self }
    {
        match self {
            RecordFault::Fields => "V1 Fields",
            RecordFault::NotUtf8 => "V2 NotUtf8",
            RecordFault::Category => "V3 Category",
            RecordFault::Class => "V4 Class",
            RecordFault::Cost => "V5 Cost",
            RecordFault::Currency => "V6 Currency",
            RecordFault::Time => "V7 Time",
            RecordFault::PeriodOrder => "V8 PeriodOrder",
            RecordFault::Commitment => "V9 Commitment",
            RecordFault::Status => "V10 Status",
            RecordFault::Quantity => "V11 Quantity",
            RecordFault::BadTags => "V12 BadTags",
            RecordFault::TooLong => "V13 TooLong",
            RecordFault::TagTwice => "V17 TagTwice",
        }
    }
}

/// Why no row comes of a record.
#[derive(Clone, Copy, Debug, Drop, PartialEq, Eq)]
pub enum Refusal {
    /// The record breaks a rule, and this is the first one.
    Broken(RecordFault),
    /// Memory ran out.
    NoMemory,
}

impl Refusal {
    ghost use Rattle.fw_rows.specs.Refusals.{fault_at};

    /// The fault of a text of whose record with this number no row comes.
    pub(crate) fn at_record(self, number: u32) -> RowFault
        ensures { result ≡ fault_at number self }
    {
        match self {
            Refusal::Broken(fault) => RowFault::Record { number, fault },
            Refusal::NoMemory => RowFault::NoMemory,
        }
    }
}

impl From<RecordFault> for Refusal {
    ghost from_gives = { λ fault refusal. refusal ≡ Broken fault };

    fn from(fault: RecordFault) -> Refusal {
        Refusal::Broken(fault)
    }
}

impl From<AllocError> for Refusal {
    ghost from_gives = { λ _ refusal. refusal ≡ WantOfMemory };

    fn from(_refused: AllocError) -> Refusal {
        Refusal::NoMemory
    }
}

impl<T: Drop> From<AllocFailed<T>> for Refusal {
    ghost from_gives = { λ _ refusal. refusal ≡ WantOfMemory };

    fn from(_refused: AllocFailed<T>) -> Refusal {
        Refusal::NoMemory
    }
}

impl From<TagFault> for Refusal {
    ghost use Rattle.fw_rows.specs.Refusals.{refusal_of};

    ghost from_gives = { λ fault refusal. refusal ≡ refusal_of fault };

    fn from(fault: TagFault) -> Refusal {
        match fault {
            TagFault::NotTags => Refusal::Broken(RecordFault::BadTags),
            TagFault::TooLong => Refusal::Broken(RecordFault::TooLong),
            TagFault::NoMemory => Refusal::NoMemory,
        }
    }
}

/// The first fault of a text.
#[derive(Clone, Copy, Debug, Drop, PartialEq, Eq, Error)]
pub enum RowFault {
    /// The first column that the header must have and doesn't have.
    #[error("the header has no column {}", .0.name())]
    MissingColumn(Column),
    /// The first column that the header has twice.
    #[error("the header has the column {} twice", .0.name())]
    DoubleColumn(Column),
    /// The first record that is no row. Records are numbered from 1, the header not counted.
    #[error("record {number}: {fault}")]
    Record { number: u32, fault: RecordFault },
    /// The header is the only record.
    #[error("there is no record after the header")]
    NoRows,
    /// A record follows the greatest number of rows, which are right.
    #[error("there are more than 4,096 records after the header")]
    TooManyRows,
    /// Memory ran out.
    #[error("out of memory")]
    NoMemory,
}

impl From<AllocError> for RowFault {
    ghost from_gives = { λ _ fault. fault ≡ NoMemory };

    fn from(_refused: AllocError) -> RowFault {
        RowFault::NoMemory
    }
}

impl<T: Drop> From<AllocFailed<T>> for RowFault {
    ghost from_gives = { λ _ fault. fault ≡ NoMemory };

    fn from(_refused: AllocFailed<T>) -> RowFault {
        RowFault::NoMemory
    }
}
