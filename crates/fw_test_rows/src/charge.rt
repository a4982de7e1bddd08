//! Rows, tags and currencies, made, copied and shown.
ghost use Rattle.std.specs.Prelude.{◌≡◌, ◌∷◌, [], codes, IfOk};

use crate::ended::{check, none_wrong};
use crate::lines::row_line;
use fw_charge::{
    Category, Currency, Discount, DiscountKind, DiscountStatus, Row, RowFields, Tag, Tags,
};
use fw_money::Nanos;
use std::alloc::{AllocError, Global};

/// A tag of two texts.
fn tag(alloc: Global, key: &str, value: &str) -> Result<Tag, AllocError>
    ensures { IfOk result (λ tag. tag ≡ record { key = key.now; value = value.now }) }
{
    Ok(Tag::of_fields(
        String::from_str(alloc, key)?,
        String::from_str(alloc, value)?,
    ))
}

/// The tags `app` and `team`.
fn two_tags(alloc: Global) -> Result<Tags, AllocError>
    ensures { IfOk result (λ tags. tags ≡ record { key = codes "app"; value = codes "web" }
        ∷ record { key = codes "team"; value = [] } ∷ []) }
{
    let mut items = Vec::new(alloc);
    items.push(tag(alloc, "app", "web")?)?;
    items.push(tag(alloc, "team", "")?)?;
    Ok(Tags::of_fields(items))
}

/// Whether these are the two tags, looked up by key.
fn are_the_two(tags: &Tags) -> bool {
    tags.value("app") == Some("web")
        && tags.value("team") == Some("")
        && tags.value("ap").is_none()
        && tags.group("app") == "web"
        && tags.group("owner") == ""
}

/// Whether tags and a copy of them are the two, and no tags are none.
fn tags_are_looked_up(alloc: Global) -> Result<bool, AllocError> {
    let tags = Box::new(alloc, two_tags(alloc)?)?;
    let copy = Box::new(alloc, tags.copy(alloc)?)?;
    let none = Tags::empty(alloc);
    Ok(are_the_two(&tags) && are_the_two(&copy) && none.as_slice().is_empty())
}

#[test]
fn groups(rt: HostRuntime) {
    check(&rt, tags_are_looked_up(rt.alloc()));
}

/// A row of all fields but an account.
fn row(alloc: Global) -> Result<Row, AllocError> {
    let id = String::from_str(alloc, "sp-1")?;
    Ok(Row::of_fields(RowFields {
        billed: Nanos::of_fields(-1),
        effective: Nanos::of_fields(2),
        category: Category::Usage,
        is_correction: true,
        start: 3600,
        end: 253_402_300_799,
        discount: Some(Discount::of_fields(id, DiscountKind::Spend, Some(DiscountStatus::Unused))),
        quantity: Some(Nanos::of_fields(7)),
        unit: Some(String::from_str(alloc, "Hours")?),
        sku: Some(String::from_str(alloc, "vm-4")?),
        sub_account: None,
        tags: two_tags(alloc)?,
    }))
}

const LINE: &str =
    "-1 2 Usage 3600 253402300799 true 1 sp-1 Spend Some(Unused) 7 Hours vm-4 - app=web;team=;";

/// Whether a row and its copy say what the row was made of.
fn rows_are_shown(alloc: Global) -> Result<bool, AllocError> {
    let row = Box::new(alloc, row(alloc)?)?;
    let copy = Box::new(alloc, row.copy(alloc)?)?;
    Ok(row_line(alloc, &row)?.as_str() == LINE && row_line(alloc, &copy)?.as_str() == LINE)
}

#[test]
fn row_of_fields(rt: HostRuntime) {
    check(&rt, rows_are_shown(rt.alloc()));
}

const CODES: &[(&str, bool)] = &[
    ("USD", true),
    ("usd", false),
    ("US", false),
    ("USDX", false),
    ("U\u{d6}", false),
    ("", false),
];

/// The first code with another answer.
fn first_wrong_code() -> Option<&'static str> {
    for (code, valid) in CODES {
        if Currency::new(code.as_bytes()).is_some() != *valid {
            return Some(code);
        }
    }
    None
}

#[test]
fn currencies(rt: HostRuntime) {
    none_wrong(&rt, first_wrong_code());
}
