//! Purchases that are added to commitments.
ghost use Rattle.std.specs.Prelude.{◌≡◌, ◌≤◌, string_bytes, IfOk};
ghost use Rattle.fw_charge.specs.Charge.{IsShortText, last_second};
ghost use Rattle.fw_terms.specs.Added.{IsAdded, added_value};

use crate::commitment::Purchase;
use std::alloc::{AllocError, Global};
use std::marker::Model;

/// A purchase that is added to a commitment, up to the end of the year 9999, and the commitment's id of 1 to 256 bytes.
#[derive(Debug)]
pub struct AddedPurchase {
    id: String,
    purchase: Purchase,
}

impl Drop for AddedPurchase {
    fn drop(self) {
        let Self { id: _, purchase: _ } = self;
    }
}

impl Model for AddedPurchase {
    ghost use Rattle.std.specs.Prelude.{string_bytes};
    ghost use Rattle.fw_terms.specs.Added.{AddedValue, IsAdded, added_value};

    ghost Value = { AddedValue };

    ghost view = { λ a. added_value (string_bytes a.id) a.purchase };

    ghost invariant = { λ a. IsAdded (added_value (string_bytes a.id) a.purchase) };
}

impl AddedPurchase {
    /// The purchase that is added to the commitment of this id, which keep the limits that the type gives.
    pub fn of_fields(id: String, purchase: Purchase) -> AddedPurchase
        requires { IsAdded (added_value (string_bytes id) purchase) }
        ensures { result ≡ added_value (string_bytes id) purchase }
    {
        AddedPurchase { id, purchase }
    }

    /// The id of the commitment.
    pub fn id(&self) -> &str
        ensures value { result.now ≡ self.now.id }
        ensures in_limits { IsAdded self.now }
    {
        &self.id
    }

    /// What was paid, and when.
    pub fn purchase(&self) -> &Purchase
        ensures value { result.now ≡ self.now.purchase }
        ensures in_limits { IsAdded self.now }
    {
        &self.purchase
    }

    /// The id of the commitment, and what was paid for it, taken apart.
    pub fn into_parts(self) -> (String, Purchase)
        ensures id { string_bytes result.0 ≡ self.id }
        ensures purchase { result.1 ≡ self.purchase }
        ensures short { IsShortText (string_bytes result.0) }
        ensures dated { result.1.at ≤ last_second }
    {
        let Self { id, purchase } = self;
        (id, purchase)
    }

    /// An equal one. The error comes where memory ran out.
    pub fn copy(&self, alloc: Global) -> Result<AddedPurchase, AllocError>
        ensures { IfOk result (λ a. a ≡ self.now) }
    {
        Ok(AddedPurchase {
            id: String::from_str(alloc, &self.id)?,
            purchase: self.purchase.copy(),
        })
    }
}
