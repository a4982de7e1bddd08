//! Commitments: what was bought ahead, for which use, over which hours, and what was paid for it.
ghost use Rattle.std.specs.Prelude.{◌≡◌, ◌≤◌, ◌<ℤ◌, ◌≤ℤ◌, pos, length, map, option_map, string_bytes, IfOk, IsTrue};
ghost use Rattle.fw_money.specs.Amount.{most_nanos};
ghost use Rattle.fw_charge.specs.Charge.{last_second};
ghost use Rattle.fw_terms.specs.Commitment.{cost_of, most_purchases, takes_purchase, with_purchase};

use crate::copies::with_one_more;
use fw_charge::{DiscountKind, Tags};
use fw_money::Nanos;
use std::alloc::{AllocError, Global};
use std::marker::Model;
use std::sync::Arc;

/// A payment for a commitment: a second within the year 9999 or before, and an amount of at least 0.
#[derive(Debug, Drop)]
pub struct Purchase {
    at: u64,
    billed: Nanos,
}

impl Model for Purchase {
    ghost use Rattle.std.specs.Prelude.{◌≤ℤ◌, pos, nat_abs};
    ghost use Rattle.fw_terms.specs.Commitment.{PurchaseValue};

    ghost Value = { PurchaseValue };

    ghost view = { λ p. record { at = p.at; billed = nat_abs p.billed } };

    ghost invariant = { λ p. pos 0 ≤ℤ p.billed };
}

impl Purchase {
    /// The purchase at this second since 1970, of this amount in nanos, which is at least 0.
    pub fn of_fields(at: u64, billed: Nanos) -> Purchase
        requires { pos 0 ≤ℤ billed }
        ensures at { result.at ≡ at }
        ensures billed { pos result.billed ≡ billed }
    {
        Purchase { at, billed }
    }

    /// When it was paid, in seconds since 1970.
    pub fn at(&self) -> u64
        ensures { result ≡ self.now.at }
    {
        self.at
    }

    /// How much was paid, in nanos.
    pub fn billed(&self) -> Nanos
        ensures { result ≡ pos self.now.billed }
    {
        self.billed
    }

    /// How many nanos were paid: at most 10^17.
    pub(crate) fn nanos(&self) -> u64
        ensures value { result ≡ self.now.billed }
        ensures few { result ≤ most_nanos }
    {
        self.billed().count() as u64
    }

    /// An equal purchase. Takes no memory.
    pub fn copy(&self) -> Purchase
        ensures { result ≡ self.now }
    {
        Purchase {
            at: self.at,
            billed: self.billed,
        }
    }
}

/// What some purchases cost together, in nanos: at most 64 of them.
pub fn total_cost(purchases: &[Purchase]) -> u64
    requires { length purchases.now ≤ most_purchases }
    ensures { result ≡ cost_of purchases.now }
{
    let mut cost = 0;
    for purchase in purchases {
        cost += purchase.nanos();
    }
    cost
}

/// How much of a row's cost counts against a commitment to spend, where the row has this SKU.
#[derive(Debug)]
pub struct Rate {
    sku: String,
    ppm: u32,
}

impl Drop for Rate {
    fn drop(self) {
        let Self { sku: _, ppm: _ } = self;
    }
}

impl Model for Rate {
    ghost use Rattle.std.specs.Prelude.{string_bytes};
    ghost use Rattle.fw_terms.specs.Commitment.{RateValue};

    ghost Value = { RateValue };

    ghost view = { λ r. record { sku = string_bytes r.sku; ppm = r.ppm } };
}

impl Rate {
    /// The greatest rate, in parts per million: all of a row's cost counts.
    pub const MOST_PPM: u32 = 1_000_000;

    /// The rate of this SKU, in parts per million.
    pub fn of_fields(sku: String, ppm: u32) -> Rate
        ensures sku { result.sku ≡ string_bytes sku }
        ensures ppm { result.ppm ≡ ppm }
    {
        Rate { sku, ppm }
    }

    /// The SKU of the rows that the rate is for.
    pub fn sku(&self) -> &str
        ensures { result.now ≡ self.now.sku }
    {
        &self.sku
    }

    /// How much of a row's cost counts, in parts per million.
    pub fn ppm(&self) -> u32
        ensures { result ≡ self.now.ppm }
    {
        self.ppm
    }

    /// An equal rate. The error comes where memory ran out.
    pub fn copy(&self, alloc: Global) -> Result<Rate, AllocError>
        ensures { IfOk result (λ r. r ≡ self.now) }
    {
        Ok(Rate {
            sku: String::from_str(alloc, &self.sku)?,
            ppm: self.ppm,
        })
    }
}

/// What is committed to. In a commitment there are 1 to 256 SKUs or rates, in rising order of the SKUs' bytes.
#[derive(Debug)]
pub enum Terms {
    /// A quantity each hour, for rows in this unit and with one of these SKUs.
    Usage {
        /// The unit that the quantity is counted in.
        unit: String,
        /// The SKUs of the rows that the commitment is for.
        skus: Vec<String>,
    },
    /// A cost each hour, for rows with the SKU of one of these rates.
    Spend {
        /// The rates, one for each SKU.
        rates: Vec<Rate>,
    },
}

impl Drop for Terms {
    fn drop(self) {
        match self {
            Self::Usage { unit: _, skus: _ } | Self::Spend { rates: _ } => {}
        }
    }
}

impl Terms {
    ghost use Rattle.fw_terms.specs.Commitment.{kind_of};
    ghost use Rattle.fw_terms.specs.TermsView.{terms_view};

    /// The most SKUs, or rates, of a commitment.
    pub const MOST_SKUS: usize = 256;

    /// Which of the two kinds of commitment the terms are of.
    pub fn kind(&self) -> DiscountKind
        ensures { result ≡ kind_of (terms_view self.now) }
    {
        match self {
            Terms::Usage { .. } => DiscountKind::Usage,
            Terms::Spend { .. } => DiscountKind::Spend,
        }
    }
}

/// The fields of a commitment.
#[derive(Debug)]
pub struct CommitmentFields {
    /// The name by which rows refer to the commitment: 1 to 256 bytes.
    pub id: String,
    /// What is committed to.
    pub terms: Terms,
    /// The account whose rows it is for, of 1 to 256 bytes, or `None` where it is for those of each account.
    pub sub_account: Option<String>,
    /// The tags of the lines that speak of no row.
    pub tags: Tags,
    /// The first hour of the term, counted from 1970: at most [`LAST_HOUR`](fw_charge::LAST_HOUR).
    pub start: u32,
    /// How many hours the term has: 1 to 26,304.
    pub hours: u32,
    /// What each hour of the term holds, in nanos of the unit or of the currency: above 0.
    pub capacity: Nanos,
    /// What was paid: 1 to 64 purchases, which together cost at most 10^17 nanos.
    pub purchases: Vec<Purchase>,
}

impl Drop for CommitmentFields {
    fn drop(self) {
        let Self {
            id: _,
            terms: _,
            sub_account: _,
            tags: _,
            start: _,
            hours: _,
            capacity: _,
            purchases: _,
        } = self;
    }
}

/// A commitment: use or spending that was bought ahead, so much each hour of a term. It keeps the limits that [`CommitmentFields`] gives.
///
/// A commitment is never changed, and its copies share its fields.
#[derive(Debug)]
pub struct Commitment {
    fields: Arc<CommitmentFields>,
}

impl Drop for Commitment {
    fn drop(self) {
        let Self { fields: _ } = self;
    }
}

impl Model for Commitment {
    ghost use Rattle.std.specs.Prelude.{◌<ℤ◌, pos};
    ghost use Rattle.fw_terms.specs.Commitment.{CommitmentValue, IsCommitment};

    ghost Value = { CommitmentValue };

    ghost use Rattle.fw_terms.specs.CommitmentView.{commitment_of};

    ghost view = { λ c. commitment_of c.fields.value };

    ghost invariant = { λ c. IsCommitment (commitment_of c.fields.value) × (pos 0 <ℤ c.fields.value.capacity) };
}

impl Commitment {
    ghost use Rattle.fw_terms.specs.Commitment.{IsCommitment, kind_of, cost_of};
    ghost use Rattle.fw_terms.specs.TermsView.{terms_view};
    ghost use Rattle.fw_terms.specs.CommitmentView.{commitment_of};

    /// The most hours of a term: three years.
    pub const MOST_HOURS: u32 = 26_304;

    /// The most purchases of a commitment.
    pub const MOST_PURCHASES: usize = 64;

    /// The commitment with these fields, which keep the limits that [`CommitmentFields`] gives. Takes no memory.
    pub fn of_fields(fields: Arc<CommitmentFields>) -> Commitment
        requires in_limits { IsCommitment (commitment_of fields.value) }
        requires some_capacity { pos 0 <ℤ fields.value.capacity }
        ensures { result ≡ commitment_of fields.value }
    {
        Commitment { fields }
    }

    /// The name by which rows refer to the commitment.
    pub fn id(&self) -> &str
        ensures value { result.now ≡ self.now.id }
        ensures in_limits { IsCommitment self.now }
    {
        &self.fields.id
    }

    /// What is committed to.
    pub fn terms(&self) -> &Terms
        ensures value { terms_view result.now ≡ self.now.terms }
        ensures in_limits { IsCommitment self.now }
    {
        &self.fields.terms
    }

    /// Which of the two kinds of commitment it is.
    pub fn kind(&self) -> DiscountKind
        ensures { result ≡ kind_of self.now.terms }
    {
        self.fields.terms.kind()
    }

    /// The account whose rows it is for, or `None` where it is for those of each account.
    pub fn sub_account(&self) -> Option<&str>
        ensures { option_map (λ s. s.now) result ≡ self.now.sub_account }
    {
        self.fields.sub_account.as_deref()
    }

    /// The tags of the lines that speak of no row.
    pub fn tags(&self) -> &Tags
        ensures { result.now ≡ self.now.tags }
    {
        &self.fields.tags
    }

    /// The first hour of the term, counted from 1970.
    pub fn start(&self) -> u32
        ensures value { result ≡ self.now.start }
        ensures in_limits { IsCommitment self.now }
    {
        self.fields.start
    }

    /// How many hours the term has.
    pub fn hours(&self) -> u32
        ensures value { result ≡ self.now.hours }
        ensures in_limits { IsCommitment self.now }
    {
        self.fields.hours
    }

    /// What each hour of the term holds, in nanos of the unit or of the currency.
    pub fn capacity(&self) -> Nanos
        ensures value { result ≡ pos self.now.capacity }
        ensures in_limits { IsCommitment self.now }
    {
        self.fields.capacity
    }

    /// The purchases, in the order in which they were given.
    pub fn purchases(&self) -> &[Purchase]
        ensures value { result.now ≡ self.now.purchases }
        ensures in_limits { IsCommitment self.now }
    {
        &self.fields.purchases
    }

    /// What all the purchases cost together, in nanos.
    pub fn cost(&self) -> Nanos
        ensures { result ≡ pos (cost_of self.now.purchases) }
    {
        Nanos::of_fields(total_cost(self.purchases()) as i64)
    }

    /// Whether it can have this purchase too: it has fewer than 64 so far, and all of them with this one cost at most 10^17 nanos.
    pub fn takes_purchase(&self, purchase: &Purchase) -> bool
        ensures { result ≡ takes_purchase self.now purchase.now }
    {
        let purchases = self.purchases();
        purchases.len() < Commitment::MOST_PURCHASES
            && total_cost(purchases) + purchase.nanos() <= Nanos::MOST as u64
    }

    /// An equal commitment with this purchase behind its others; the commitment itself stays as it is. Ask [`Commitment::takes_purchase`]
    /// first; the purchase is at most in the last second of the year 9999.
    ///
    /// # Errors
    /// [`AllocError`] where memory ran out.
    pub fn with_purchase(&self, alloc: Global, purchase: Purchase) -> Result<Commitment, AllocError>
        requires taken { IsTrue (takes_purchase self.now purchase) }
        requires dated { purchase.at ≤ last_second }
        ensures { IfOk result (λ c. c ≡ with_purchase self.now purchase) }
    {
        let fields = with_one_more(alloc, &self.fields, &purchase)?;
        Ok(Commitment::of_fields(Arc::new(alloc, fields)?))
    }

    /// The same commitment, shared. It takes no memory. The error comes only where it has as many owners as can be counted.
    pub fn copy(&self) -> Result<Commitment, AllocError>
        ensures { IfOk result (λ c. c ≡ self.now) }
    {
        Ok(Commitment {
            fields: Arc::try_clone(&self.fields)?,
        })
    }
}
