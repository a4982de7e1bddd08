//! The value under a name, and its kind.
ghost use Rattle.std.specs.Prelude.{◌≡◌, ◌↔◌, ℕ, ℤ, List, IsTrue, None, Some, MatchOption};
ghost use Rattle.toml.specs.Data.{string, integer};
ghost use Rattle.toml.specs.View.{view};
ghost use Rattle.fw_toml.specs.Tree.{IsThere, IsText, IsInteger, Anything, at, stated, truth};

use toml::{Table, Value};

/// The value under a name in a table.
pub fn member<'a>(table: &'a Table, name: &str) -> Option<&'a Value>
    ensures { MatchOption result (at (stated table.now) name.now ≡ None)
        (λ value. at (stated table.now) name.now ≡ Some (view value.now)) }
{
    table.get(name)
}

/// The text that a value is, if it is one.
pub fn as_text(value: &Value) -> Option<&str>
    ensures { MatchOption result (¬ IsText Anything (view value.now))
        (λ text. view value.now ≡ string text.now) }
{
    value.as_str()
}

/// The integer that a value is, if it is one.
pub fn as_integer(value: &Value) -> Option<i64>
    ensures { MatchOption result (¬ IsInteger Anything (view value.now))
        (λ number. view value.now ≡ integer number) }
{
    value.as_integer()
}

/// Whether a value is `true`.
pub fn is_true(value: &Value) -> bool
    ensures { IsTrue result ↔ (view value.now ≡ truth) }
{
    value.as_bool() == Some(true)
}

/// The text under a name in a table, if there is one.
pub fn text<'a>(table: &'a Table, name: &str) -> Option<&'a str>
    ensures { MatchOption result (¬ IsThere (at (stated table.now) name.now) (IsText Anything))
        (λ text. at (stated table.now) name.now ≡ Some (string text.now)) }
{
    match member(table, name) {
        Some(value) => as_text(value),
        None => None,
    }
}

/// The integer under a name in a table, if there is one.
pub fn integer(table: &Table, name: &str) -> Option<i64>
    ensures { MatchOption result (¬ IsThere (at (stated table.now) name.now) (IsInteger Anything))
        (λ number. at (stated table.now) name.now ≡ Some (integer number)) }
{
    match member(table, name) {
        Some(value) => as_integer(value),
        None => None,
    }
}
