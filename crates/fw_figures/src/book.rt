//! The figures of commitments by what they are asked for: by commitment, or by the values of keys.
use crate::figures::{Amount, Figures};
use fw_charge::{Category, DiscountStatus};
use fw_coverage::Coverage;
use fw_select::Group;
use fw_terms::{Commitment, Terms};
use std::alloc::{AllocError, Global};
use std::collections::BTreeMap;

/// Who keeps a commitment.
#[derive(Clone, Copy, Debug, Drop, PartialEq, Eq)]
pub(crate) enum Keeper {
    /// The warehouse, which spreads its purchases.
    Own,
    /// A provider, whose rows name it.
    Provider,
}

impl Keeper {
    /// The word for it.
    pub(crate) fn word(self) -> &'static str {
        match self {
            Keeper::Own => "own",
            Keeper::Provider => "provider",
        }
    }
}

/// Figures by name: a name is the id of a commitment, or a list of values of keys.
pub(crate) struct Book {
    alloc: Global,
    // how many keys are asked for; none where the names are ids
    keys: usize,
    // whether a tag has the prices of the rows that providers' commitments cover
    has_list: bool,
    own: BTreeMap<Vec<String>, Figures>,
    provider: BTreeMap<Vec<String>, Figures>,
    own_total: Figures,
    provider_total: Figures,
    // of own commitments: by the values of keys and, behind them, the unit; and by the unit alone
    quantities: BTreeMap<Vec<String>, Quantities>,
    quantity_totals: BTreeMap<Vec<String>, Quantities>,
}

/// What commitments have of one unit, and what rows used and could have used of that, in nanos of the unit.
#[derive(Clone, Copy, Drop)]
pub(crate) struct Quantities {
    pub(crate) capacity: i128,
    pub(crate) used: i128,
    pub(crate) usable: i128,
}

impl Quantities {
    // So much of a capacity.
    fn of_capacity(capacity: u128) -> Result<Quantities, AllocError> {
        match i128::try_from(capacity) {
            Ok(capacity) => Ok(Quantities {
                capacity,
                used: 0,
                usable: 0,
            }),
            Err(_) => Err(AllocError),
        }
    }

    // So much that rows used.
    fn of_used(used: i128) -> Quantities {
        Quantities {
            capacity: 0,
            used,
            usable: 0,
        }
    }

    // So much that rows could have used.
    fn of_usable(usable: i128) -> Quantities {
        Quantities {
            capacity: 0,
            used: 0,
            usable,
        }
    }

    // These and others. A sum past 2^127 takes more lines than any memory holds, and is answered as out of memory.
    fn with(self, more: Quantities) -> Result<Quantities, AllocError> {
        let capacity = self.capacity.checked_add(more.capacity);
        let used = self.used.checked_add(more.used);
        let usable = self.usable.checked_add(more.usable);
        match (capacity, used, usable) {
            (Some(capacity), Some(used), Some(usable)) => Ok(Quantities {
                capacity,
                used,
                usable,
            }),
            _ => Err(AllocError),
        }
    }
}

impl Drop for Book {
    fn drop(self) {
        let Self {
            alloc: _,
            keys: _,
            has_list: _,
            own: _,
            provider: _,
            own_total: _,
            provider_total: _,
            quantities: _,
            quantity_totals: _,
        } = self;
    }
}

impl Book {
    /// A book for so many keys, with nothing in it, where a tag has the prices of what providers' commitments cover, or none does.
    pub(crate) fn new(alloc: Global, keys: usize, has_list: bool) -> Book {
        Book {
            alloc,
            keys,
            has_list,
            own: BTreeMap::new(alloc),
            provider: BTreeMap::new(alloc),
            own_total: Figures::none(),
            provider_total: Figures::none(),
            quantities: BTreeMap::new(alloc),
            quantity_totals: BTreeMap::new(alloc),
        }
    }

    /// Whether the names are ids of commitments.
    pub(crate) fn is_by_commitment(&self) -> bool {
        self.keys == 0
    }

    /// Whether it is known what would have been paid for what was covered.
    pub(crate) fn is_priced(&self, keeper: Keeper) -> bool {
        match keeper {
            Keeper::Own => true,
            Keeper::Provider => self.has_list,
        }
    }

    /// The figures by name, in rising order of the names.
    pub(crate) fn figures(&self, keeper: Keeper) -> &BTreeMap<Vec<String>, Figures> {
        match keeper {
            Keeper::Own => &self.own,
            Keeper::Provider => &self.provider,
        }
    }

    /// The figures of all commitments together. What could have been covered counts once, however many commitments apply to it.
    pub(crate) fn total(&self, keeper: Keeper) -> Figures {
        match keeper {
            Keeper::Own => self.own_total,
            Keeper::Provider => self.provider_total,
        }
    }

    /// Of own commitments what rows used and could have used, by the values of keys and, behind them, the unit, in rising order; none where the names
    /// are ids. A row counts once in its unit, and once in the currency, however many commitments apply to it.
    pub(crate) fn quantities(&self) -> &BTreeMap<Vec<String>, Quantities> {
        &self.quantities
    }

    /// The same of all own commitments, by the unit alone, with the capacity that they have.
    pub(crate) fn quantity_totals(&self) -> &BTreeMap<Vec<String>, Quantities> {
        &self.quantity_totals
    }

    /// Adds the capacities of own commitments.
    pub(crate) fn add_capacities(&mut self, units: &[Coverage<'_>]) -> Result<(), AllocError> {
        for one in units {
            let more = Quantities::of_capacity(one.capacity())?;
            let unit = name_with(self.alloc, unit_of(one.commitment()))?;
            put_quantities(&mut self.quantity_totals, unit, more)?;
        }
        Ok(())
    }

    /// Adds what the lines of a range came to, by the keys, CommitmentDiscountId, CommitmentDiscountStatus and ChargeCategory.
    pub(crate) fn add_lines(
        &mut self,
        commitments: &[Commitment],
        groups: &[Group],
    ) -> Result<(), AllocError> {
        for group in groups {
            let parts = Parts::of(group, self.keys);
            if !parts.id.is_empty() {
                let keeper = keeper_of(commitments, parts.id);
                self.add_line(keeper, group, parts)?;
            }
        }
        Ok(())
    }

    // Adds what the lines of a commitment came to.
    fn add_line(
        &mut self,
        keeper: Keeper,
        group: &Group,
        parts: Parts<'_>,
    ) -> Result<(), AllocError> {
        if parts.status == DiscountStatus::Used.word() {
            return self.add(keeper, group, parts, Amount::Used, group.effective());
        }
        if parts.status == DiscountStatus::Unused.word() {
            return self.add(keeper, group, parts, Amount::Unused, group.effective());
        }
        if parts.category == Category::Purchase.word() {
            return self.add(keeper, group, parts, Amount::Paid, group.billed());
        }
        Ok(())
    }

    /// Adds what the lines at prices came to, by the same keys.
    pub(crate) fn add_prices(
        &mut self,
        commitments: &[Commitment],
        groups: &[Group],
    ) -> Result<(), AllocError> {
        for group in groups {
            let parts = Parts::of(group, self.keys);
            let own = own_with(commitments, parts.id);
            if parts.status == DiscountStatus::Used.word() {
                self.add_covered(own, group, parts)?;
            } else {
                self.add_eligible(own, group, parts)?;
            }
        }
        Ok(())
    }

    // Adds what was covered. Of an own commitment BilledCost of the lines is what of its capacity was used, and of a provider's it counts the rows that
    // have no price.
    fn add_covered(
        &mut self,
        own: Option<&Commitment>,
        group: &Group,
        parts: Parts<'_>,
    ) -> Result<(), AllocError> {
        let cost = group.effective();
        let Some(commitment) = own else {
            self.add(Keeper::Provider, group, parts, Amount::Covered, cost)?;
            return self.add(
                Keeper::Provider,
                group,
                parts,
                Amount::Unpriced,
                group.billed(),
            );
        };
        self.add(Keeper::Own, group, parts, Amount::Covered, cost)?;
        self.add_quantities(commitment, group, Quantities::of_used(group.billed()))
    }

    // Adds what could have been covered: by itself to the figures of the keys and of all, in a unit to the quantities, and beside a commitment to the
    // figures of the commitment. In a unit and beside a commitment BilledCost of the lines is what of a capacity they could have used.
    fn add_eligible(
        &mut self,
        own: Option<&Commitment>,
        group: &Group,
        parts: Parts<'_>,
    ) -> Result<(), AllocError> {
        let cost = group.effective();
        let Some(commitment) = own else {
            self.own_total = self.own_total.with(Amount::Eligible, cost)?;
            if self.is_by_commitment() {
                return Ok(());
            }
            return self.add_named(Keeper::Own, group, parts, Amount::Eligible, cost);
        };
        if parts.status == DiscountStatus::Unused.word() {
            return self.add_quantities(commitment, group, Quantities::of_usable(group.billed()));
        }
        if !self.is_by_commitment() {
            return Ok(());
        }
        self.add_named(Keeper::Own, group, parts, Amount::Eligible, cost)?;
        self.add_named(Keeper::Own, group, parts, Amount::Usable, group.billed())
    }

    // Adds quantities in the unit of an own commitment to those of a group, where the names are values of keys, and to those of all.
    fn add_quantities(
        &mut self,
        commitment: &Commitment,
        group: &Group,
        more: Quantities,
    ) -> Result<(), AllocError> {
        let unit = unit_of(commitment);
        let total = name_with(self.alloc, unit)?;
        put_quantities(&mut self.quantity_totals, total, more)?;
        if self.is_by_commitment() {
            return Ok(());
        }
        let mut name = texts_of(self.alloc, group, self.keys)?;
        name.push(String::from_str(self.alloc, unit)?)?;
        put_quantities(&mut self.quantities, name, more)
    }

    // Adds an amount to the figures of a name, and to those of all.
    fn add(
        &mut self,
        keeper: Keeper,
        group: &Group,
        parts: Parts<'_>,
        what: Amount,
        nanos: i128,
    ) -> Result<(), AllocError> {
        match keeper {
            Keeper::Own => self.own_total = self.own_total.with(what, nanos)?,
            Keeper::Provider => self.provider_total = self.provider_total.with(what, nanos)?,
        }
        self.add_named(keeper, group, parts, what, nanos)
    }

    // Adds an amount to the figures of a name.
    fn add_named(
        &mut self,
        keeper: Keeper,
        group: &Group,
        parts: Parts<'_>,
        what: Amount,
        nanos: i128,
    ) -> Result<(), AllocError> {
        let name = name_of(self.alloc, group, parts, self.keys)?;
        match keeper {
            Keeper::Own => put(&mut self.own, name, what, nanos),
            Keeper::Provider => put(&mut self.provider, name, what, nanos),
        }
    }
}

// The texts behind the keys of a group.
#[derive(Clone, Copy)]
struct Parts<'g> {
    id: &'g str,
    status: &'g str,
    category: &'g str,
}

impl<'g> Parts<'g> {
    // Those behind so many keys.
    fn of(group: &'g Group, keys: usize) -> Parts<'g> {
        let behind = group.texts().get(keys..).unwrap_or(&[]);
        match behind {
            [id, status, category] => Parts {
                id: id.as_str(),
                status: status.as_str(),
                category: category.as_str(),
            },
            _ => Parts {
                id: "",
                status: "",
                category: "",
            },
        }
    }
}

// The name under which a group is kept: its id, or the texts of its keys.
fn name_of(
    alloc: Global,
    group: &Group,
    parts: Parts<'_>,
    keys: usize,
) -> Result<Vec<String>, AllocError> {
    if keys == 0 {
        return name_with(alloc, parts.id);
    }
    texts_of(alloc, group, keys)
}

// The texts of the keys of a group.
fn texts_of(alloc: Global, group: &Group, keys: usize) -> Result<Vec<String>, AllocError> {
    let mut texts = Vec::new(alloc);
    for text in group.texts().iter().take(keys) {
        texts.push(String::from_str(alloc, text.as_str())?)?;
    }
    Ok(texts)
}

// A text as a name.
fn name_with(alloc: Global, text: &str) -> Result<Vec<String>, AllocError> {
    let mut name = Vec::new(alloc);
    name.push(String::from_str(alloc, text)?)?;
    Ok(name)
}

// Adds quantities to those under a name.
fn put_quantities(
    by_name: &mut BTreeMap<Vec<String>, Quantities>,
    name: Vec<String>,
    more: Quantities,
) -> Result<(), AllocError> {
    match by_name.get_mut(&name) {
        Some(quantities) => *quantities = quantities.with(more)?,
        None => {
            by_name.insert(name, more)?;
        }
    }
    Ok(())
}

/// The unit of a commitment's capacity; the empty text where it is the currency.
pub(crate) fn unit_of(commitment: &Commitment) -> &str {
    match commitment.terms() {
        Terms::Usage { unit, .. } => unit.as_str(),
        Terms::Spend { .. } => "",
    }
}

// Adds an amount to the figures of a name.
fn put(
    by_name: &mut BTreeMap<Vec<String>, Figures>,
    name: Vec<String>,
    what: Amount,
    nanos: i128,
) -> Result<(), AllocError> {
    match by_name.get_mut(&name) {
        Some(figures) => *figures = figures.with(what, nanos)?,
        None => {
            by_name.insert(name, Figures::none().with(what, nanos)?)?;
        }
    }
    Ok(())
}

// Who keeps the commitment with an id.
fn keeper_of(commitments: &[Commitment], id: &str) -> Keeper {
    match own_with(commitments, id) {
        Some(_) => Keeper::Own,
        None => Keeper::Provider,
    }
}

// The warehouse's own commitment with an id, if it has one.
fn own_with<'c>(commitments: &'c [Commitment], id: &str) -> Option<&'c Commitment> {
    commitments.iter().find(|commitment| commitment.id() == id)
}
