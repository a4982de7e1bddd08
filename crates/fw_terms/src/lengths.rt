//! How many bytes commitments, purchases that are added and policies have where they are written.
ghost use Rattle.std.specs.Prelude.{◌≡◌, ◌≤◌, length, map, string_bytes};
ghost use Rattle.fw_bytes.specs.Spelling.{text, listed};
ghost use Rattle.fw_terms.specs.Commitment.{AreSkus, IsRate, AreRates, IsTerms, most_purchases};
ghost use Rattle.fw_terms.specs.Policy.{IsTarget, AreTargets, IsGive, IsRule};
ghost use Rattle.fw_terms.specs.Lengths.{most_skus_len, most_rate_len, most_rates_len, most_purchases_len, most_commitment_len, most_added_len, most_target_len, most_targets_len, most_give_len, most_rule_len, most_policy_len};
ghost use Rattle.fw_terms.specs.PolicyView.{give_view};
ghost use Rattle.fw_terms.specs.TermsView.{terms_view};
ghost use Rattle.fw_terms.specs.Spelling.{rate, purchase, added, committed, commitment, target, given, rule, policy};

use crate::added::AddedPurchase;
use crate::commitment::{Commitment, Purchase, Rate, Terms};
use crate::policy::{Give, Policy, Rule, Target};
use fw_bytes::text_len;
use fw_charge::{optional_text_len, tags_len};

/// How many bytes SKUs have, their number included.
fn skus_len(skus: &[String]) -> usize
    requires { AreSkus (map string_bytes skus.now) }
    ensures value { result ≡ length (listed text (map string_bytes skus.now)) }
    ensures few { result ≤ most_skus_len }
{
    let mut len = 4;
    for sku in skus {
        len += text_len(sku.as_str());
    }
    len
}

/// How many bytes a SKU and its parts per million have.
#[tactic(auto, unfolding(crate::specs::Spelling::rate))]
fn rate_len(one: &Rate) -> usize
    requires { IsRate one.now }
    ensures value { result ≡ length (rate one.now) }
    ensures few { result ≤ most_rate_len }
{
    text_len(one.sku()) + 4
}

/// How many bytes rates have, their number included.
fn rates_len(rates: &[Rate]) -> usize
    requires { AreRates rates.now }
    ensures value { result ≡ length (listed rate rates.now) }
    ensures few { result ≤ most_rates_len }
{
    let mut len = 4;
    for one in rates {
        len += rate_len(one);
    }
    len
}

/// How many bytes has what is committed to.
#[tactic(auto, unfolding(crate::specs::Spelling::committed))]
fn terms_len(terms: &Terms) -> usize
    requires { IsTerms (terms_view terms.now) }
    ensures value { result ≡ length (committed (terms_view terms.now)) }
    ensures few { result ≤ most_rates_len }
{
    match terms {
        Terms::Usage { unit, skus } => text_len(unit) + skus_len(skus),
        Terms::Spend { rates } => rates_len(rates),
    }
}

/// How many bytes purchases have, their number included: 16 for each of them.
fn purchases_len(purchases: &[Purchase]) -> usize
    requires { length purchases.now ≤ most_purchases }
    ensures value { result ≡ length (listed purchase purchases.now) }
    ensures few { result ≤ most_purchases_len }
{
    4 + 16 * purchases.len()
}

/// How many bytes a commitment has where it is written: fewer than 2^20. Takes no memory.
#[tactic(auto, unfolding(crate::specs::Spelling::commitment, crate::specs::Spelling::names, crate::specs::Spelling::term))]
pub fn commitment_len(one: &Commitment) -> usize
    ensures value { result ≡ length (commitment one.now) }
    ensures few { result ≤ most_commitment_len }
{
    let id = text_len(one.id());
    let sub_account = optional_text_len(one.sub_account());
    let tags = tags_len(one.tags());
    let terms = terms_len(one.terms());
    let purchases = purchases_len(one.purchases());
    17 + id + sub_account + tags + terms + purchases
}

/// How many bytes a purchase that is added has where it is written: at most 276. Takes no memory.
#[tactic(auto, unfolding(crate::specs::Spelling::added, crate::specs::Spelling::purchase))]
pub fn added_len(one: &AddedPurchase) -> usize
    ensures value { result ≡ length (added one.now) }
    ensures few { result ≤ most_added_len }
{
    text_len(one.id()) + 16
}

/// How many bytes a group and its weight have.
#[tactic(auto, unfolding(crate::specs::Spelling::target))]
fn target_len(one: &Target) -> usize
    requires { IsTarget one.now }
    ensures value { result ≡ length (target one.now) }
    ensures few { result ≤ most_target_len }
{
    text_len(one.group()) + 8
}

/// How many bytes targets have, their number included.
fn targets_len(targets: &[Target]) -> usize
    requires { AreTargets targets.now }
    ensures value { result ≡ length (listed target targets.now) }
    ensures few { result ≤ most_targets_len }
{
    let mut len = 4;
    for one in targets {
        len += target_len(one);
    }
    len
}

/// How many bytes has to whom a group's cost is given.
#[tactic(auto, unfolding(crate::specs::Spelling::given))]
fn give_len(give: &Give) -> usize
    requires { IsGive (give_view give.now) }
    ensures value { result ≡ length (given (give_view give.now)) }
    ensures few { result ≤ most_give_len }
{
    match give {
        Give::Fixed(targets) => 1 + targets_len(targets),
        Give::Proportional => 1,
    }
}

/// How many bytes a rule has.
#[tactic(auto, unfolding(crate::specs::Spelling::rule))]
fn rule_len(one: &Rule) -> usize
    requires { IsRule one.now }
    ensures value { result ≡ length (rule one.now) }
    ensures few { result ≤ most_rule_len }
{
    text_len(one.from()) + give_len(one.give())
}

/// How many bytes a policy has where it is written: fewer than 2^25. Takes no memory.
#[tactic(auto, unfolding(crate::specs::Spelling::policy))]
pub fn policy_len(one: &Policy) -> usize
    ensures value { result ≡ length (policy one.now) }
    ensures few { result ≤ most_policy_len }
{
    let mut len = text_len(one.key()) + 4;
    for rule in one.rules() {
        len += rule_len(rule);
    }
    len
}
