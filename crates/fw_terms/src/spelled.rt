//! Each commitment and each policy has a spelling, and each purchase up to the year 9999: proof-only functions.
ghost use Rattle.std.specs.Prelude.{◌≤◌, All};
ghost use Rattle.std.specs.Str.{IsUtf8};
ghost use Rattle.fw_charge.specs.Charge.{last_second};
ghost use Rattle.fw_terms.specs.PolicyView.{give_view};
ghost use Rattle.fw_terms.specs.TermsView.{terms_view};
ghost use Rattle.fw_terms.specs.Spelling.{AreTermsUtf8, IsSpelledCommitment, IsSpelledPurchase, IsSpelledAdded, IsGiveUtf8, IsRuleUtf8, IsSpelledPolicy};

use crate::added::AddedPurchase;
use crate::commitment::{Commitment, Purchase, Rate, Terms};
use crate::policy::{Give, Policy, Rule, Target};
use fw_charge::{optional_text_has_spelling, tags_have_spelling};

/// The SKU of each rate is UTF-8.
fn rates_are_utf8(rates: &[Rate])
    ensures { All (λ r. IsUtf8 r.sku) rates.now }
{
    for one in rates {
        let _sku = one.sku();
    }
}

/// Each text of what is committed to is UTF-8.
fn terms_are_utf8(terms: &Terms)
    ensures { AreTermsUtf8 (terms_view terms.now) }
{
    match terms {
        Terms::Usage { .. } => {}
        Terms::Spend { rates } => rates_are_utf8(rates),
    }
}

/// Each commitment has a spelling, so it is read from what is written of it. Looks at each of its tags and rates.
pub fn commitment_has_spelling(one: &Commitment)
    ensures { IsSpelledCommitment one.now }
{
    let _id = one.id();
    terms_are_utf8(one.terms());
    optional_text_has_spelling(one.sub_account());
    tags_have_spelling(one.tags());
}

/// A purchase up to the end of the year 9999 has a spelling, so it is read from what is written of it.
pub fn purchase_has_spelling(one: &Purchase)
    requires { one.now.at ≤ last_second }
    ensures { IsSpelledPurchase one.now }
{
    let _nanos = one.nanos();
}

/// Each purchase that is added has a spelling, so it is read from what is written of it.
pub fn added_has_spelling(one: &AddedPurchase)
    ensures { IsSpelledAdded one.now }
{
    let _id = one.id();
    purchase_has_spelling(one.purchase());
}

/// The group of each target is UTF-8.
fn targets_are_utf8(targets: &[Target])
    ensures { All (λ t. IsUtf8 t.group) targets.now }
{
    for one in targets {
        let _group = one.group();
    }
}

/// Each text of what a rule gives is UTF-8.
fn give_is_utf8(give: &Give)
    ensures { IsGiveUtf8 (give_view give.now) }
{
    match give {
        Give::Fixed(targets) => targets_are_utf8(targets),
        Give::Proportional => {}
    }
}

/// Each text of a rule is UTF-8.
fn rule_is_utf8(one: &Rule)
    ensures { IsRuleUtf8 one.now }
{
    let _from = one.from();
    give_is_utf8(one.give());
}

/// Each policy has a spelling, so it is read from what is written of it. Looks at each of its targets.
pub fn policy_has_spelling(one: &Policy)
    ensures { IsSpelledPolicy one.now }
{
    let _key = one.key();
    for rule in one.rules() {
        rule_is_utf8(rule);
    }
}
