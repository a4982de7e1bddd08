//! What a line is grouped or filtered by.
ghost use Rattle.std.specs.Prelude.{◌≡◌, IfSome, None, OnOk, option_copied, string_bytes};
ghost use Rattle.fw_query.specs.Texts.{or_empty};
ghost use Rattle.fw_select.specs.Keys.{column_name, column_text, folded, mapped_text, renamed, source_text, value};
ghost use Rattle.fw_select.specs.declared.key.Column.{Column};

use fw_amortise::Line;
use fw_query::{id_of, status_of};
use std::alloc::AllocError;
use std::collections::BTreeMap;

/// A column that lines keep.
#[derive(Clone, Copy, Debug, Drop, PartialEq, Eq)]
pub enum Column {
    /// SkuId.
    SkuId,
    /// SubAccountId.
    SubAccountId,
    /// ChargeCategory.
    ChargeCategory,
    /// CommitmentDiscountId.
    CommitmentDiscountId,
    /// CommitmentDiscountStatus.
    CommitmentDiscountStatus,
}

impl Column {
    /// The column with a name, where it is one that lines keep.
    pub fn named(name: &str) -> Option<Column>
        ensures there { IfSome result (λ column. column_name column ≡ name.now) }
        ensures none { result ≡ None → (column : Column) → ¬ (column_name column ≡ name.now) }
    {
        match name {
            "SkuId" => Some(Column::SkuId),
            "SubAccountId" => Some(Column::SubAccountId),
            "ChargeCategory" => Some(Column::ChargeCategory),
            "CommitmentDiscountId" => Some(Column::CommitmentDiscountId),
            "CommitmentDiscountStatus" => Some(Column::CommitmentDiscountStatus),
            _ => None,
        }
    }

    /// The name of the column.
    pub fn name(self) -> &'static str
        ensures { result.now ≡ column_name self }
    {
        match self {
            Column::SkuId => "SkuId",
            Column::SubAccountId => "SubAccountId",
            Column::ChargeCategory => "ChargeCategory",
            Column::CommitmentDiscountId => "CommitmentDiscountId",
            Column::CommitmentDiscountStatus => "CommitmentDiscountStatus",
        }
    }

    /// The text of the column on a line, which is empty where it is null.
    pub fn text<'l>(self, line: &Line<'l>) -> &'l str
        ensures { result.now ≡ column_text self line.now }
    {
        match self {
            Column::SkuId => or_empty(line.sku()),
            Column::SubAccountId => or_empty(line.sub_account()),
            Column::ChargeCategory => line.category().word(),
            Column::CommitmentDiscountId => id_of(line.commitment()),
            Column::CommitmentDiscountStatus => status_of(line.commitment()),
        }
    }
}

// What may be null is empty where it is.
fn or_empty<'l>(text: Option<&'l str>) -> &'l str
    ensures { result.now ≡ or_empty (λ s. s) (option_copied text.entry) }
{
    match text {
        Some(text) => text,
        None => "",
    }
}

/// Where a text of a line comes from.
#[derive(Clone, Copy, Debug)]
pub enum Source<'a> {
    /// The tag with this key.
    Tag(&'a str),
    /// A column.
    Column(Column),
}

impl<'a> Source<'a> {
    /// Its text on a line, which is empty where the line has no such tag, or the column is null.
    pub fn text<'l>(self, line: &Line<'l>) -> &'l str
        ensures { result.now ≡ source_text self.entry line.now }
    {
        match self {
            Source::Tag(name) => line.tags().group(name),
            Source::Column(column) => column.text(line),
        }
    }
}

/// What other texts stand for the texts of a source.
#[derive(Debug)]
pub struct ValueMap {
    /// Whether letters of ASCII are made small first.
    pub fold: bool,
    /// What stands for the empty text.
    pub empty: String,
    /// What stands for others, by these.
    pub values: BTreeMap<String, String>,
}

impl Drop for ValueMap {
    fn drop(self) {
        let Self {
            fold: _,
            empty: _,
            values: _,
        } = self;
    }
}

impl ValueMap {
    // Puts what stands for a text in the place of another text.
    fn put_text(&self, text: &mut String, plain: &str) -> Result<(), AllocError>
        ensures { OnOk result (string_bytes text.new ≡ mapped_text self.now plain.now) }
    {
        if plain.is_empty() {
            text.clear();
            text.push_str(self.empty.as_str())?;
            return Ok(());
        }
        self.put_other(text, plain)?;
        Ok(())
    }

    // Puts what stands for a text that isn't empty in the place of another text.
    fn put_other(&self, text: &mut String, plain: &str) -> Result<(), AllocError>
        ensures { OnOk result (string_bytes text.new ≡ renamed self.now.values (folded
            self.now.fold plain.now)) }
    {
        put_plain(text, plain)?;
        self.fold_text(text);
        self.rename(text)?;
        Ok(())
    }

    // Makes the letters of ASCII of a text small, where they are to be.
    fn fold_text(&self, text: &mut String)
        ensures { string_bytes text.new ≡ folded self.now.fold (string_bytes text.old) }
    {
        if self.fold {
            text.make_ascii_lowercase();
        }
    }

    // Puts what stands for a text in its place, where something does.
    fn rename(&self, text: &mut String) -> Result<(), AllocError>
        ensures { OnOk result (string_bytes text.new ≡ renamed self.now.values (string_bytes
            text.old)) }
    {
        if let Some(value) = self.values.get(text.as_str()) {
            text.clear();
            text.push_str(value.as_str())?;
        }
        Ok(())
    }
}

// Puts a text in the place of another.
fn put_plain(text: &mut String, plain: &str) -> Result<(), AllocError>
    ensures { OnOk result (string_bytes text.new ≡ plain.now) }
{
    text.clear();
    text.push_str(plain)?;
    Ok(())
}

/// What a line is grouped or filtered by: a source and, where its texts stand for others, what they stand for.
#[derive(Clone, Copy, Debug)]
pub struct Key<'a> {
    /// Where the texts come from.
    pub source: Source<'a>,
    /// What other texts stand for them.
    pub map: Option<&'a ValueMap>,
}

impl<'a> Key<'a> {
    // Puts the value of the key on a line in the place of a text. Memory is taken only where the text has too little.
    #[tactic(auto, unfolding(crate::specs::Keys::value))]
    pub(crate) fn put_value(&self, text: &mut String, line: &Line<'_>) -> Result<(), AllocError>
        ensures { OnOk result (string_bytes text.new ≡ value self.now line.now) }
    {
        let plain = self.source.text(line);
        match self.map {
            Some(map) => map.put_text(text, plain)?,
            None => put_plain(text, plain)?,
        }
        Ok(())
    }
}
