//! A post that was read.
ghost use Rattle.std.specs.Prelude.{IfOk};
ghost use Rattle.fw_rows.specs.Rows.{RowsRead};

use crate::content::Content;
use fw_column_rows::{KnownTexts, read_columns_after};
use fw_columns::Columns;
use fw_rows::{Currency, RowFault};
use std::alloc::Global;
use std::marker::Model;

/// What the content of a post reads as, under a currency.
#[derive(Drop)]
pub(crate) struct ReadPost {
    currency: Currency,
    content: Content,
    rows: Result<Columns, RowFault>,
}

impl Model for ReadPost {
    ghost use Rattle.std.specs.Prelude.{ℕ, List, Result};
    ghost use Rattle.fw_charge.specs.Charge.{Charge};
    ghost use Rattle.fw_rows.specs.Rows.{RowsRead};
    ghost use Rattle.fw_rows.specs.declared.fault.RowFault.{RowFault};

    ghost Value = { List ℕ × (List ℕ × Result (List Charge) RowFault) };

    ghost view = { λ p. (p.currency, (p.content, p.rows)) };

    ghost invariant = { λ p. RowsRead p.currency p.content p.rows };
}

impl ReadPost {
    // Reads the content of a post.
    pub(crate) fn of_content(
        alloc: Global,
        content: Content,
        currency: Currency,
        known: &mut KnownTexts,
    ) -> ReadPost {
        let rows = read_columns_after(alloc, content.bytes(), currency, known);
        ReadPost {
            currency,
            content,
            rows,
        }
    }

    // What it reads as, if it is the post with this content, read under this currency; else the post, as it was.
    pub(crate) fn into_rows_of(
        self,
        content: &[u8],
        currency: Currency,
    ) -> Result<Result<Columns, RowFault>, ReadPost>
        ensures { IfOk result (λ rows. RowsRead currency content.now rows) }
    {
        if self.currency == currency && self.content.bytes() == content {
            return Ok(self.rows);
        }
        Err(self)
    }
}
