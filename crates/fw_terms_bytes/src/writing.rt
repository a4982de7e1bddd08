//! The writers of commitments, purchases and policies, at the end of a buffer.
//!
//! Each has one error, [`AllocError`] where the buffer can't grow; then nothing is promised of what the buffer holds.
ghost use Rattle.std.specs.Prelude.{◌≡◌, ◌≤◌, ◌++◌, length, map, pos, string_bytes, OnOk};
ghost use Rattle.fw_bytes.specs.Spelling.{text, listed};
ghost use Rattle.fw_charge.specs.Charge.{IsShortText};
ghost use Rattle.fw_terms.specs.Commitment.{AreSkus, IsRate, AreRates, IsTerms, most_purchases};
ghost use Rattle.fw_terms.specs.Policy.{IsTarget, AreTargets, IsGive, IsRule};
ghost use Rattle.fw_terms.specs.PolicyView.{give_view};
ghost use Rattle.fw_terms.specs.TermsView.{terms_view};
ghost use Rattle.fw_terms.specs.Spelling.{rate, purchase, committed, added, names, term, commitment, target, given, rule, policy};

use fw_bytes::{put_byte, put_text, put_u32, put_u64};
use fw_fields::{put_nanos, put_optional_text, put_tags};
use fw_terms::{AddedPurchase, Commitment, Give, Policy, Purchase, Rate, Rule, Target, Terms};
use std::alloc::AllocError;

/// Writes id, kind, account and tags.
#[tactic(auto, unfolding(fw_terms::specs::Spelling::names))]
fn put_names(out: &mut Vec<u8>, one: &Commitment) -> Result<(), AllocError>
    ensures { OnOk result (out.new.items ≡ out.old.items ++ names one.now) }
{
    put_text(out, one.id())?;
    put_byte(out, one.kind().code())?;
    put_optional_text(out, one.sub_account())?;
    put_tags(out, one.tags())?;
    Ok(())
}

/// Writes the first hour, the number of hours, and what each of them holds.
#[tactic(auto, unfolding(fw_terms::specs::Spelling::term))]
fn put_term(out: &mut Vec<u8>, one: &Commitment) -> Result<(), AllocError>
    ensures { OnOk result (out.new.items ≡ out.old.items ++ term one.now) }
{
    put_u32(out, one.start())?;
    put_u32(out, one.hours())?;
    put_nanos(out, one.capacity())?;
    Ok(())
}

/// Writes SKUs: their number, and each in turn.
fn put_skus(out: &mut Vec<u8>, skus: &[String]) -> Result<(), AllocError>
    requires { AreSkus (map string_bytes skus.now) }
    ensures { OnOk result (out.new.items
        ≡ out.old.items ++ listed text (map string_bytes skus.now)) }
{
    put_u32(out, skus.len() as u32)?;
    for sku in skus {
        put_text(out, sku.as_str())?;
    }
    Ok(())
}

/// Writes a SKU and its parts per million.
#[tactic(auto, unfolding(fw_terms::specs::Spelling::rate))]
fn put_rate(out: &mut Vec<u8>, one: &Rate) -> Result<(), AllocError>
    requires { IsRate one.now }
    ensures { OnOk result (out.new.items ≡ out.old.items ++ rate one.now) }
{
    put_text(out, one.sku())?;
    put_u32(out, one.ppm())?;
    Ok(())
}

/// Writes rates: their number, and each in turn.
fn put_rates(out: &mut Vec<u8>, rates: &[Rate]) -> Result<(), AllocError>
    requires { AreRates rates.now }
    ensures { OnOk result (out.new.items ≡ out.old.items ++ listed rate rates.now) }
{
    put_u32(out, rates.len() as u32)?;
    for one in rates {
        put_rate(out, one)?;
    }
    Ok(())
}

/// Writes what is committed to.
#[tactic(auto, unfolding(fw_terms::specs::Spelling::committed))]
fn put_terms(out: &mut Vec<u8>, terms: &Terms) -> Result<(), AllocError>
    requires { IsTerms (terms_view terms.now) }
    ensures { OnOk result (out.new.items ≡ out.old.items ++ committed (terms_view terms.now)) }
{
    match terms {
        Terms::Usage { unit, skus } => {
            put_text(out, unit)?;
            put_skus(out, skus)?;
            Ok(())
        }
        Terms::Spend { rates } => put_rates(out, rates),
    }
}

/// Writes a purchase at the end of the buffer: when was paid, and how much. One up to the end of the year 9999 is read again.
///
/// # Errors
/// [`AllocError`] where the buffer can't grow. Then nothing is promised of what the buffer holds.
#[tactic(auto, unfolding(fw_terms::specs::Spelling::purchase))]
pub fn put_purchase(out: &mut Vec<u8>, one: &Purchase) -> Result<(), AllocError>
    ensures { OnOk result (out.new.items ≡ out.old.items ++ purchase one.now) }
{
    put_u64(out, one.at())?;
    put_nanos(out, one.billed())?;
    Ok(())
}

/// Writes a purchase that is added to a commitment at the end of the buffer: the commitment's id, and the purchase.
///
/// # Errors
/// [`AllocError`] where the buffer can't grow. Then nothing is promised of what the buffer holds.
#[tactic(auto, unfolding(fw_terms::specs::Spelling::added))]
pub fn put_added(out: &mut Vec<u8>, one: &AddedPurchase) -> Result<(), AllocError>
    ensures { OnOk result (out.new.items ≡ out.old.items ++ added one.now) }
{
    put_text(out, one.id())?;
    put_purchase(out, one.purchase())
}

/// Writes purchases: their number, and each in turn.
fn put_purchases(out: &mut Vec<u8>, purchases: &[Purchase]) -> Result<(), AllocError>
    requires { length purchases.now ≤ most_purchases }
    ensures { OnOk result (out.new.items ≡ out.old.items ++ listed purchase purchases.now) }
{
    put_u32(out, purchases.len() as u32)?;
    for one in purchases {
        put_purchase(out, one)?;
    }
    Ok(())
}

/// Writes a commitment at the end of the buffer.
///
/// # Errors
/// [`AllocError`] where the buffer can't grow. Then nothing is promised of what the buffer holds.
#[tactic(auto, unfolding(fw_terms::specs::Spelling::commitment))]
pub fn put_commitment(out: &mut Vec<u8>, one: &Commitment) -> Result<(), AllocError>
    ensures { OnOk result (out.new.items ≡ out.old.items ++ commitment one.now) }
{
    put_names(out, one)?;
    put_term(out, one)?;
    put_terms(out, one.terms())?;
    put_purchases(out, one.purchases())?;
    Ok(())
}

/// Writes a group and its weight.
#[tactic(auto, unfolding(fw_terms::specs::Spelling::target))]
fn put_target(out: &mut Vec<u8>, one: &Target) -> Result<(), AllocError>
    requires { IsTarget one.now }
    ensures { OnOk result (out.new.items ≡ out.old.items ++ target one.now) }
{
    put_text(out, one.group())?;
    put_u64(out, one.weight())?;
    Ok(())
}

/// Writes targets: their number, and each in turn.
fn put_targets(out: &mut Vec<u8>, targets: &[Target]) -> Result<(), AllocError>
    requires { AreTargets targets.now }
    ensures { OnOk result (out.new.items ≡ out.old.items ++ listed target targets.now) }
{
    put_u32(out, targets.len() as u32)?;
    for one in targets {
        put_target(out, one)?;
    }
    Ok(())
}

/// Writes to whom a group's cost is given.
#[tactic(auto, unfolding(fw_terms::specs::Spelling::given))]
fn put_give(out: &mut Vec<u8>, give: &Give) -> Result<(), AllocError>
    requires { IsGive (give_view give.now) }
    ensures { OnOk result (out.new.items ≡ out.old.items ++ given (give_view give.now)) }
{
    match give {
        Give::Fixed(targets) => {
            put_byte(out, 1)?;
            put_targets(out, targets)?;
            Ok(())
        }
        Give::Proportional => put_byte(out, 2),
    }
}

/// Writes a rule.
#[tactic(auto, unfolding(fw_terms::specs::Spelling::rule))]
fn put_rule(out: &mut Vec<u8>, one: &Rule) -> Result<(), AllocError>
    requires { IsRule one.now }
    ensures { OnOk result (out.new.items ≡ out.old.items ++ rule one.now) }
{
    put_text(out, one.from())?;
    put_give(out, one.give())?;
    Ok(())
}

/// Writes a policy at the end of the buffer.
///
/// # Errors
/// [`AllocError`] where the buffer can't grow. Then nothing is promised of what the buffer holds.
#[tactic(auto, unfolding(fw_terms::specs::Spelling::policy))]
pub fn put_policy(out: &mut Vec<u8>, one: &Policy) -> Result<(), AllocError>
    ensures { OnOk result (out.new.items ≡ out.old.items ++ policy one.now) }
{
    put_text(out, one.key())?;
    let rules = one.rules();
    put_u32(out, rules.len() as u32)?;
    for rule in rules {
        put_rule(out, rule)?;
    }
    Ok(())
}
