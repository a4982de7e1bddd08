//! A column that is kept as a tag.
ghost use Rattle.std.specs.Prelude.{◌≡◌, string_bytes};

use std::marker::Model;

/// A column of an export that is kept as a tag: the name of the column, and the key of the tag.
#[derive(Debug)]
pub struct Keep {
    column: String,
    key: String,
}

impl Drop for Keep {
    fn drop(self) {
        let Self { column: _, key: _ } = self;
    }
}

impl Model for Keep {
    ghost use Rattle.std.specs.Prelude.{string_bytes};
    ghost use Rattle.fw_rows.specs.Keeps.{KeepText};

    ghost Value = { KeepText };

    ghost view = { λ k. record { column = string_bytes k.column; key = string_bytes k.key } };
}

impl Keep {
    /// The column with this name, kept as the tag with this key.
    pub fn of_fields(column: String, key: String) -> Keep
        ensures { result ≡ record { column = string_bytes column; key = string_bytes key } }
    {
        Keep { column, key }
    }

    /// The name of the column, as a header has it.
    pub fn column(&self) -> &str
        ensures { result.now ≡ self.now.column }
    {
        self.column.as_str()
    }

    /// The key of the tag.
    pub fn key(&self) -> &str
        ensures { result.now ≡ self.now.key }
    {
        self.key.as_str()
    }
}
