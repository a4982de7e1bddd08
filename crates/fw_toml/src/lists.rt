//! Arrays and tables whose members are of one kind.
ghost use Rattle.std.specs.Prelude.{◌≡◌, List, map, IfOk, All, MatchOption};
ghost use Rattle.std.specs.Ordering.{nat_cmp};
ghost use Rattle.std.specs.List.Sorted.{IsStrictlySortedBy};
ghost use Rattle.std.specs.Cmp.Lexicographic.{slice_cmp};
ghost use Rattle.toml.specs.View.{view};
ghost use Rattle.fw_toml.specs.Tree.{IsText, IsInteger, IsTableOf, IsArrayOf, AreTexts, AreTables, AreIntegers, AreNamedTexts, Anything, members_list, stated};

use std::alloc::{AllocError, Global};
use toml::{Table, Value};

/// The texts of an array of texts, in order; `None` where the value is not one.
pub fn texts(alloc: Global, value: &Value) -> Result<Option<Vec<&str>>, AllocError>
    ensures { IfOk result (λ found. MatchOption found
        (¬ IsArrayOf (All (IsText Anything)) (view value.now))
        (λ v. AreTexts (map (λ t. t.now) v.items) (view value.now))) }
{
    let Some(array) = value.as_array() else {
        return Ok(None);
    };
    let mut found = Vec::new(alloc);
    for item in array {
        let Some(text) = item.as_str() else {
            return Ok(None);
        };
        found.push(text)?;
    }
    Ok(Some(found))
}

/// The tables of an array of tables, in order; `None` where the value is not one.
pub fn tables(alloc: Global, value: &Value) -> Result<Option<Vec<&Table>>, AllocError>
    ensures { IfOk result (λ found. MatchOption found
        (¬ IsArrayOf (All (IsTableOf Anything)) (view value.now))
        (λ v. AreTables (map (λ t. stated t.now) v.items) (view value.now))) }
{
    let Some(array) = value.as_array() else {
        return Ok(None);
    };
    let mut found = Vec::new(alloc);
    for item in array {
        let Some(table) = item.as_table() else {
            return Ok(None);
        };
        found.push(table)?;
    }
    Ok(Some(found))
}

/// The names and integers of a table of integers, in byte order of the names; `None` where the value is not one.
pub fn integers(alloc: Global, value: &Value) -> Result<Option<Vec<(&str, i64)>>, AllocError>
    ensures { IfOk result (λ found. MatchOption found
        (¬ IsTableOf (λ ms. All (λ m. IsInteger Anything m.1) (members_list ms)) (view value.now))
        (λ v. AreIntegers (map (λ e. (e.0.now, e.1)) v.items) (view value.now)
        × IsStrictlySortedBy (slice_cmp nat_cmp) (map (λ e. e.0.now) v.items))) }
{
    let Some(table) = value.as_table() else {
        return Ok(None);
    };
    let mut found = Vec::new(alloc);
    for (name, member) in table.iter() {
        let Some(number) = member.as_integer() else {
            return Ok(None);
        };
        found.push((name.as_str(), number))?;
    }
    Ok(Some(found))
}

/// The names and texts of a table of texts, in byte order of the names; `None` where the value is not one.
pub fn named_texts(alloc: Global, value: &Value) -> Result<Option<Vec<(&str, &str)>>, AllocError>
    ensures { IfOk result (λ found. MatchOption found
        (¬ IsTableOf (λ ms. All (λ m. IsText Anything m.1) (members_list ms)) (view value.now))
        (λ v. AreNamedTexts (map (λ e. (e.0.now, e.1.now)) v.items) (view value.now)
        × IsStrictlySortedBy (slice_cmp nat_cmp) (map (λ e. e.0.now) v.items))) }
{
    let Some(table) = value.as_table() else {
        return Ok(None);
    };
    let mut found = Vec::new(alloc);
    for (name, member) in table.iter() {
        let Some(text) = member.as_str() else {
            return Ok(None);
        };
        found.push((name.as_str(), text))?;
    }
    Ok(Some(found))
}
