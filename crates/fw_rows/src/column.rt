//! The columns that are read.
ghost use Rattle.std.specs.Prelude.{◌≡◌, ◌<◌};

/// A column that is read. Other columns are passed over. A header must have the first six; a column of the others that it doesn't have
/// is null in each record, as an empty field is.
#[derive(Clone, Copy, Debug, Drop, PartialEq, Eq)]
pub enum Column {
    /// The cost that is the basis of an invoice.
    BilledCost,
    /// The cost with prepaid purchases spread over what they paid for.
    EffectiveCost,
    /// The code of the currency of the costs.
    BillingCurrency,
    /// What kind of charge a row is.
    ChargeCategory,
    /// The instant at which the charge period starts.
    ChargePeriodStart,
    /// The instant at which the charge period has ended.
    ChargePeriodEnd,
    /// `Correction`, or null.
    ChargeClass,
    /// The commitment discount that a row belongs to.
    CommitmentDiscountId,
    /// What that discount's commitment is to.
    CommitmentDiscountCategory,
    /// Whether the charge consumed a part of the commitment.
    CommitmentDiscountStatus,
    /// How much was consumed.
    ConsumedQuantity,
    /// The unit of the quantity.
    ConsumedUnit,
    /// What was sold.
    SkuId,
    /// The part of the account that the charge falls to.
    SubAccountId,
    /// The keys and texts that the customer gave.
    Tags,
}

/// How many columns are read.
pub(crate) const COUNT: usize = 15;

/// The columns that a header must have.
pub(crate) const REQUIRED: [Column; 6] = [
    Column::BilledCost,
    Column::EffectiveCost,
    Column::BillingCurrency,
    Column::ChargeCategory,
    Column::ChargePeriodStart,
    Column::ChargePeriodEnd,
];

impl Column {
    ghost use Rattle.fw_rows.specs.Columns.{name_of, index_of};

    /// The columns that are read, in their order.
    pub const ALL: [Column; 15] = [
        Column::BilledCost,
        Column::EffectiveCost,
        Column::BillingCurrency,
        Column::ChargeCategory,
        Column::ChargePeriodStart,
        Column::ChargePeriodEnd,
        Column::ChargeClass,
        Column::CommitmentDiscountId,
        Column::CommitmentDiscountCategory,
        Column::CommitmentDiscountStatus,
        Column::ConsumedQuantity,
        Column::ConsumedUnit,
        Column::SkuId,
        Column::SubAccountId,
        Column::Tags,
    ];

    /// The name that stands in a header.
    #[tactic(auto, unfolding(crate::specs::Columns::name_of))]
    pub fn name(self) -> &'static str
        ensures { result.now ≡ name_of self }
    {
        match self {
            Column::BilledCost => "BilledCost",
            Column::EffectiveCost => "EffectiveCost",
            Column::BillingCurrency => "BillingCurrency",
            Column::ChargeCategory => "ChargeCategory",
            Column::ChargePeriodStart => "ChargePeriodStart",
            Column::ChargePeriodEnd => "ChargePeriodEnd",
            Column::ChargeClass => "ChargeClass",
            Column::CommitmentDiscountId => "CommitmentDiscountId",
            Column::CommitmentDiscountCategory => "CommitmentDiscountCategory",
            Column::CommitmentDiscountStatus => "CommitmentDiscountStatus",
            Column::ConsumedQuantity => "ConsumedQuantity",
            Column::ConsumedUnit => "ConsumedUnit",
            Column::SkuId => "SkuId",
            Column::SubAccountId => "SubAccountId",
            Column::Tags => "Tags",
        }
    }

    /// Where the column stands among those that are read.
    #[tactic(auto, unfolding(crate::specs::Columns::index_of))]
    pub(crate) fn index(self) -> usize
        ensures value { result ≡ index_of self }
        ensures in_range { result < COUNT }
    {
        match self {
            Column::BilledCost => 0,
            Column::EffectiveCost => 1,
            Column::BillingCurrency => 2,
            Column::ChargeCategory => 3,
            Column::ChargePeriodStart => 4,
            Column::ChargePeriodEnd => 5,
            Column::ChargeClass => 6,
            Column::CommitmentDiscountId => 7,
            Column::CommitmentDiscountCategory => 8,
            Column::CommitmentDiscountStatus => 9,
            Column::ConsumedQuantity => 10,
            Column::ConsumedUnit => 11,
            Column::SkuId => 12,
            Column::SubAccountId => 13,
            Column::Tags => 14,
        }
    }
}
