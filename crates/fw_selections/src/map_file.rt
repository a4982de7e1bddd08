//! Maps as a person keeps them in a TOML file.
ghost use Rattle.std.specs.Prelude.{◌≡◌, ◌↔◌, ◌<◌, ◌==◌, ℕ, List, IfOk, IfSome, IsTrue, MatchOption, MatchResult, None, OnOk, Some, codes, false, if◌then◌else◌, length, map, option_map, slice_get, string_bytes, true};
ghost use Rattle.std.specs.BTreeMap.{get_by_text};
ghost use Rattle.std.specs.List.{list_any};
ghost use Rattle.std.specs.Str.{bytes_eq};
ghost use Rattle.toml.specs.Data.{string};
ghost use Rattle.toml.specs.View.{view};
ghost use Rattle.fw_toml.specs.Tree.{Anything, IsAbsentOr, IsTableOf, IsText, IsThere, at, members_list, stated};
ghost use Rattle.fw_selections.specs.Maps.{AreRenames, AreValues, IsBoolean, IsDouble, IsFieldFault, IsNew, MapsRead, StatesMap, TableReads, TablesRead, empty_in, fold_in, last_beside};
ghost use Rattle.fw_selections.specs.Sources.{AreOne, IsMapOf, IsNamed, IsOfAnother};
ghost use Rattle.fw_selections.specs.declared.map_file.MapFault.TheVariants.{NoMemory};
ghost use Rattle.fw_selections.specs.declared.map_file.NamedMap.{NamedMap};

use fw_select::{Column, Source, ValueMap};
use fw_toml::{
    Table, TableFault, Value, as_text, has_only, member, named_texts, table_of, tables, text,
};
use std::alloc::{AllocError, AllocFailed, Global};
use std::collections::BTreeMap;

/// A map beside the name of its key.
#[derive(Debug)]
pub struct NamedMap {
    /// The key, as `--where` names it.
    pub key: String,
    /// What other texts stand for its texts.
    pub map: ValueMap,
}

impl Drop for NamedMap {
    fn drop(self) {
        let Self { key: _, map: _ } = self;
    }
}

/// A field of a map.
#[derive(Clone, Copy, Debug, Drop, PartialEq, Eq)]
pub enum MapField {
    /// The tables `[[map]]`.
    Map,
    /// `key`.
    Key,
    /// `fold`.
    Fold,
    /// `empty`.
    Empty,
    /// `values`.
    Values,
    /// A field that is none of these.
    Unknown,
}

impl MapField {
    /// What the field must be.
    pub fn expected(self) -> &'static str {
        match self {
            MapField::Map => "there must be one [[map]] or more, and nothing else at the top",
            MapField::Key => {
                "\"key\" must be the text of a tag or of a column, as \"environment\", each once in the file"
            }
            MapField::Fold => "\"fold\" must be true or false, without quotes",
            MapField::Empty => "\"empty\" must be a text, as \"unknown\"",
            MapField::Values => {
                "\"values\" must be a table of texts, as { prod = \"production\" }; \"empty\" is what stands for none"
            }
            MapField::Unknown => "a map has the fields key, fold, empty and values",
        }
    }
}

/// Why a text has no maps.
#[derive(Clone, Copy, Debug, Drop, PartialEq, Eq)]
pub enum MapFault {
    /// The text is not UTF-8, or no TOML.
    Syntax,
    /// A field is missing or wrong; and in which table, counted from 1, or 0 for the top.
    Field(MapField, usize),
    /// Memory ran out.
    NoMemory,
}

impl From<AllocError> for MapFault {
    ghost from_gives = { λ _ fault. fault ≡ NoMemory };

    fn from(_: AllocError) -> MapFault {
        MapFault::NoMemory
    }
}

impl<T: Drop> From<AllocFailed<T>> for MapFault {
    ghost from_gives = { λ _ fault. fault ≡ NoMemory };

    fn from(_: AllocFailed<T>) -> MapFault {
        MapFault::NoMemory
    }
}

/// The source that a name stands for: a column where it is the name of one, else a tag. `tag:NAME` is always the tag NAME.
pub fn source_named(name: &str) -> Source<'_>
    ensures { IsNamed name.now result }
{
    match name.strip_prefix("tag:") {
        Some(tag) => Source::Tag(tag),
        None => match Column::named(name) {
            Some(column) => Source::Column(column),
            None => Source::Tag(name),
        },
    }
}

/// Whether two sources are one.
pub fn is_same_source(one: Source<'_>, other: Source<'_>) -> bool
    ensures { IsTrue result ↔ AreOne one.entry other.entry }
{
    match (one, other) {
        (Source::Tag(one), Source::Tag(other)) => one == other,
        (Source::Column(one), Source::Column(other)) => one == other,
        _ => false,
    }
}

/// The map of a source among some, where it has one.
pub fn map_of<'m>(maps: &'m [NamedMap], source: Source<'_>) -> Option<&'m ValueMap>
    ensures there { IfSome result (λ map. IsMapOf maps.now source.entry map.now) }
    ensures none { result ≡ None → (place : ℕ) (named : NamedMap)
        → slice_get maps.now place ≡ Some named → IsOfAnother named source.entry }
{
    for named in maps {
        if is_same_source(source_named(named.key.as_str()), source) {
            return Some(&named.map);
        }
    }
    None
}

/// Reads the maps of a TOML text.
///
/// # Errors
/// `Syntax` where the text is not UTF-8 or no TOML document. `Field(Map, 0)` where there is no array of tables `map` at
/// the top, or anything else beside it. `Field(field, place)` where the table at a place, counted from 1, is the first
/// that is wrong: in this order `key`, a text that isn't empty; `fold`, which may be absent, `true` or `false`; `empty`,
/// which may be absent, a text; a field that none of these or `values` is, as `Unknown`; `values`, which may be absent, a
/// table of texts, each under a name that isn't empty; and `Key` where its key names the source of an earlier map.
/// `NoMemory` where memory ran out.
pub fn read_maps(alloc: Global, text: &[u8]) -> Result<Vec<NamedMap>, MapFault>
    ensures { MapsRead text.now result }
{
    match table_of(alloc, text) {
        Ok(table) => maps_of(alloc, &table),
        Err(TableFault::Syntax) => Err(MapFault::Syntax),
        Err(TableFault::NoMemory) => Err(MapFault::NoMemory),
    }
}

// The maps of a table.
fn maps_of(alloc: Global, table: &Table) -> Result<Vec<NamedMap>, MapFault>
    ensures { TableReads (stated table.now) result }
{
    let top = MapFault::Field(MapField::Map, 0);
    let Some(array) = member(table, "map") else {
        return Err(top);
    };
    let Some(found) = tables(alloc, array)? else {
        return Err(top);
    };
    if !has_only(table, &["map"]) {
        return Err(top);
    }
    named_maps(alloc, found.as_slice())
}

// The maps of tables, in order.
fn named_maps(alloc: Global, found: &[&Table]) -> Result<Vec<NamedMap>, MapFault>
    ensures { TablesRead (map (λ t. stated t.now) found.now) result }
{
    let mut maps: Vec<NamedMap> = Vec::new(alloc);
    for (place, table) in found.iter().enumerate() {
        let named = match named_map(alloc, table) {
            Ok(named) => named,
            Err(Some(field)) => return Err(MapFault::Field(field, place + 1)),
            Err(None) => return Err(MapFault::NoMemory),
        };
        if has_source_of(maps.as_slice(), &named) {
            return Err(MapFault::Field(MapField::Key, place + 1));
        }
        maps.push(named)?;
    }
    Ok(maps)
}

// Whether one of some maps is that of the source of another map.
fn has_source_of(maps: &[NamedMap], named: &NamedMap) -> bool
    ensures double { result ≡ true → IsDouble maps.now named.now }
    ensures new { result ≡ false → IsNew maps.now named.now }
{
    match map_of(maps, source_named(named.key.as_str())) {
        Some(_) => true,
        None => false,
    }
}

// The map of a table, or the field that is wrong; none where memory ran out.
fn named_map(alloc: Global, table: &Table) -> Result<NamedMap, Option<MapField>>
    ensures { MatchResult result (StatesMap (stated table.now)) (IsFieldFault (stated table.now)) }
{
    let Some(key) = key_of(table) else {
        return Err(Some(MapField::Key));
    };
    let Some(fold) = fold_of(table) else {
        return Err(Some(MapField::Fold));
    };
    let Some(empty) = empty_of(table) else {
        return Err(Some(MapField::Empty));
    };
    if !has_only(table, &["key", "fold", "empty", "values"]) {
        return Err(Some(MapField::Unknown));
    }
    match values_of(alloc, table) {
        Ok(Some(values)) => match (String::from_str(alloc, key), String::from_str(alloc, empty)) {
            (Ok(key), Ok(empty)) => Ok(NamedMap {
                key,
                map: ValueMap {
                    fold,
                    empty,
                    values,
                },
            }),
            _ => Err(None),
        },
        Ok(None) => Err(Some(MapField::Values)),
        Err(AllocError) => Err(None),
    }
}

// The name of the source of a map, where it is right.
fn key_of(table: &Table) -> Option<&str>
    ensures { MatchOption result (¬ IsThere (at (stated table.now) (codes "key"))
        (IsText (λ t. 0 < length t)))
        (λ key. (at (stated table.now) (codes "key") ≡ Some (string key.now))
        × (0 < length key.now)) }
{
    let key = text(table, "key")?;
    if key.is_empty() {
        return None;
    }
    Some(key)
}

// Whether letters are made small, where that is right.
fn fold_of(table: &Table) -> Option<bool>
    ensures { MatchOption result (¬ IsAbsentOr (at (stated table.now) (codes "fold")) IsBoolean)
        (λ fold. (fold ≡ fold_in (at (stated table.now) (codes "fold")))
        × IsAbsentOr (at (stated table.now) (codes "fold")) IsBoolean) }
{
    match member(table, "fold") {
        Some(value) => value.as_bool(),
        None => Some(false),
    }
}

// What stands for the empty text, where it is right.
fn empty_of(table: &Table) -> Option<&str>
    ensures { MatchOption result (¬ IsAbsentOr (at (stated table.now) (codes "empty"))
        (IsText Anything)) (λ empty. (empty.now ≡ empty_in (at (stated table.now) (codes "empty")))
        × IsAbsentOr (at (stated table.now) (codes "empty")) (IsText Anything)) }
{
    match member(table, "empty") {
        Some(value) => as_text(value),
        None => Some(""),
    }
}

// What stands for other texts, where it is right.
fn values_of(alloc: Global, table: &Table) -> Result<Option<BTreeMap<String, String>>, AllocError>
    ensures { IfOk result (λ found. MatchOption found
        (¬ IsAbsentOr (at (stated table.now) (codes "values"))
        (IsTableOf (λ vs. AreRenames (members_list vs))))
        (λ values. AreValues (at (stated table.now) (codes "values")) values
        × IsAbsentOr (at (stated table.now) (codes "values"))
        (IsTableOf (λ vs. AreRenames (members_list vs))))) }
{
    match member(table, "values") {
        Some(value) => renames_of(alloc, value),
        None => Ok(Some(BTreeMap::new(alloc))),
    }
}

// The texts of a value that stand for others, where it is right.
fn renames_of(alloc: Global, value: &Value) -> Result<Option<BTreeMap<String, String>>, AllocError>
    ensures { IfOk result (λ found. MatchOption found
        (¬ IsTableOf (λ vs. AreRenames (members_list vs)) (view value.now))
        (λ values. AreValues (Some (view value.now)) values
        × IsTableOf (λ vs. AreRenames (members_list vs)) (view value.now))) }
{
    let Some(pairs) = named_texts(alloc, value)? else {
        return Ok(None);
    };
    if has_empty_name(pairs.as_slice()) {
        return Ok(None);
    }
    Ok(Some(table_of_pairs(alloc, pairs.as_slice())?))
}

// Whether a pair has the empty name.
fn has_empty_name(pairs: &[(&str, &str)]) -> bool
    ensures { result ≡ list_any (λ p. length p.0.now == 0) pairs.now }
{
    pairs.iter().any(|pair| pair.0.is_empty())
}

// Pairs of texts as a table.
fn table_of_pairs(
    alloc: Global,
    pairs: &[(&str, &str)],
) -> Result<BTreeMap<String, String>, AllocError>
    ensures { IfOk result (λ values. (text : List ℕ)
        → option_map string_bytes (get_by_text values text)
        ≡ last_beside text (map (λ e. (e.0.now, e.1.now)) pairs.now)) }
{
    let mut values = BTreeMap::new(alloc);
    for (old, new) in pairs {
        put_pair(alloc, &mut values, old, new)?;
    }
    Ok(values)
}

// Puts a pair of texts into a table.
fn put_pair(
    alloc: Global,
    values: &mut BTreeMap<String, String>,
    old: &str,
    new: &str,
) -> Result<(), AllocError>
    ensures { OnOk result ((text : List ℕ)
        → option_map string_bytes (get_by_text values.new text)
        ≡ (if bytes_eq text old.now then Some new.now
        else option_map string_bytes (get_by_text values.old text))) }
{
    let old = String::from_str(alloc, old)?;
    let new = String::from_str(alloc, new)?;
    values.insert(old, new)?;
    Ok(())
}
