//! What a report by several keys is asked for: its keys, filters and maps, as the command line has them.
ghost use Rattle.std.specs.Prelude.{◌≡◌};
ghost use Rattle.std.specs.Process.{exit_status};
ghost use Rattle.fw_console.specs.Statuses.{wrong_use_status};

use clap::ArgMatches;
use fw_calendar::Step;
use fw_command_line::{BY, COLUMN, FORMAT, MAP, SUM, TAG, TOTAL_ONLY, WHERE, WHERE_NOT};
use fw_console::{Fault, WRONG_USE, read_options, refuse, step_of, toml_of, wrong_top, wrong_use};
use fw_explain::explain_fault;
use fw_select::{Column, Filter, Key, Selector, Source};
use fw_selections::{
    KeyName, MapFault, NamedMap, SheetFormat, is_same_source, map_of, read_maps, source_named,
};
use fw_table::shown_text;
use std::alloc::{AllocError, Global};
use std::process::ExitCode;

/// The most keys of a report.
const MOST_KEYS: usize = 4;

/// A tag or a column, by its name.
#[derive(Debug, Drop)]
pub(crate) struct WantedKey {
    name: String,
    /// The column; none of a tag.
    column: Option<Column>,
}

impl WantedKey {
    // The key that is a source.
    fn of(alloc: Global, source: Source<'_>) -> Result<WantedKey, AllocError> {
        let (name, column) = match source {
            Source::Tag(name) => (name, None),
            Source::Column(column) => (column.name(), Some(column)),
        };
        Ok(WantedKey {
            name: String::from_str(alloc, name)?,
            column,
        })
    }

    /// Its name.
    pub(crate) fn name(&self) -> &str {
        self.name.as_str()
    }

    /// Whether it is a tag.
    pub(crate) fn is_tag(&self) -> bool {
        self.column.is_none()
    }

    /// Where its texts come from.
    pub(crate) fn source(&self) -> Source<'_> {
        match self.column {
            Some(column) => Source::Column(column),
            None => Source::Tag(self.name.as_str()),
        }
    }
}

/// A key that has to have one of some values, or none of them.
#[derive(Debug, Drop)]
pub(crate) struct Condition {
    pub(crate) key: WantedKey,
    pub(crate) values: Vec<String>,
    pub(crate) is_one: bool,
}

/// A report by several keys, under filters and maps.
#[derive(Debug, Drop)]
pub struct Wanted {
    pub(crate) keys: Vec<WantedKey>,
    pub(crate) conditions: Vec<Condition>,
    pub(crate) maps: Vec<NamedMap>,
    pub(crate) step: Option<Step>,
    pub(crate) top: Option<usize>,
    /// The tag whose amounts are summed beside the costs, where one's are.
    pub(crate) sum: Option<String>,
    /// How it is written; none as a page.
    pub(crate) format: Option<SheetFormat>,
}

impl Wanted {
    /// How many groups have a line of their own; where there is none, all have.
    pub fn top(&self) -> Option<usize> {
        self.top
    }

    /// How it is written; none as a page.
    pub fn format(&self) -> Option<SheetFormat> {
        self.format
    }

    /// The tag whose amounts are summed beside the costs, where one's are.
    pub(crate) fn sum(&self) -> Option<&str> {
        match &self.sum {
            Some(tag) => Some(tag.as_str()),
            None => None,
        }
    }

    /// The tag, where the groups are all values of one tag: then a policy may charge them.
    pub fn one_tag(&self) -> Option<&str> {
        match self.keys.as_slice() {
            [key] if key.is_tag() && self.conditions.is_empty() && self.maps.is_empty() => {
                Some(key.name())
            }
            _ => None,
        }
    }

    /// The values of each condition.
    pub(crate) fn values(&self, alloc: Global) -> Result<Vec<Vec<&str>>, AllocError> {
        let mut all = Vec::new(alloc);
        for condition in &self.conditions {
            all.push(lent(alloc, condition.values.as_slice())?)?;
        }
        Ok(all)
    }

    // The keys, each with its map.
    fn selector_keys(&self, alloc: Global) -> Result<Vec<Key<'_>>, AllocError> {
        let mut keys = Vec::new(alloc);
        for key in &self.keys {
            keys.push(mapped_key(key, self.maps.as_slice()))?;
        }
        Ok(keys)
    }

    /// The names of the keys.
    pub fn names(&self, alloc: Global) -> Result<Vec<KeyName<'_>>, AllocError> {
        let mut names = Vec::new(alloc);
        for key in &self.keys {
            names.push(KeyName {
                name: key.name.as_str(),
                is_tag: key.is_tag(),
            })?;
        }
        Ok(names)
    }
}

/// What a selector lends.
#[derive(Drop)]
pub(crate) struct SelectorParts<'v, 'k> {
    keys: Vec<Key<'k>>,
    filters: Vec<Filter<'v, 'k>>,
}

impl<'v, 'k> SelectorParts<'v, 'k> {
    /// The parts for a report, the values of whose conditions are these.
    pub(crate) fn of(
        alloc: Global,
        wanted: &'k Wanted,
        values: &'v [Vec<&'k str>],
    ) -> Result<SelectorParts<'v, 'k>, AllocError> {
        Ok(SelectorParts {
            keys: wanted.selector_keys(alloc)?,
            filters: filters_of(alloc, wanted, values)?,
        })
    }

    /// The selector.
    pub(crate) fn selector(&self) -> Selector<'_, 'v, 'k> {
        Selector {
            keys: self.keys.as_slice(),
            filters: self.filters.as_slice(),
        }
    }
}

// The filters of a report, whose values are these.
fn filters_of<'v, 'k>(
    alloc: Global,
    wanted: &'k Wanted,
    values: &'v [Vec<&'k str>],
) -> Result<Vec<Filter<'v, 'k>>, AllocError> {
    let mut filters = Vec::new(alloc);
    for (condition, values) in wanted.conditions.as_slice().iter().zip(values) {
        filters.push(Filter {
            key: mapped_key(&condition.key, wanted.maps.as_slice()),
            values: values.as_slice(),
            is_one: condition.is_one,
        })?;
    }
    Ok(filters)
}

// Texts, lent.
fn lent(alloc: Global, texts: &[String]) -> Result<Vec<&str>, AllocError> {
    let mut lent = Vec::with_capacity(alloc, texts.len())?;
    for text in texts {
        lent.push(text.as_str())?;
    }
    Ok(lent)
}

// A key with its map.
fn mapped_key<'k>(key: &'k WantedKey, maps: &'k [NamedMap]) -> Key<'k> {
    let source = key.source();
    Key {
        source,
        map: map_of(maps, source),
    }
}

/// Whether the options ask for more than the costs of the groups of one tag.
pub(crate) fn is_selection(options: &ArgMatches<'_>) -> bool {
    tags_of(options).len() != 1
        || options.contains_id(COLUMN)
        || options.contains_id(WHERE)
        || options.contains_id(WHERE_NOT)
        || options.contains_id(MAP)
        || options.contains_id(SUM)
        || options.get_flag(TOTAL_ONLY)
}

// The tags that the options name.
fn tags_of<'o>(options: &'o ArgMatches<'_>) -> &'o [&'o str] {
    options.get_strs(TAG).unwrap_or(&[])
}

/// What the options ask for, or the status where they are wrong, which was said.
pub fn read_wanted(
    rt: &HostRuntime,
    options: &ArgMatches<'_>,
) -> Result<Result<Wanted, ExitCode>, Fault> {
    let shown = match read_options(options, 1) {
        Ok(shown) => shown,
        Err(text) => return Ok(Err(wrong_top(rt, text))),
    };
    let keys = match read_keys(rt, options)? {
        Ok(keys) => keys,
        Err(status) => return Ok(Err(status)),
    };
    let conditions = match read_conditions(rt, options)? {
        Ok(conditions) => conditions,
        Err(status) => return Ok(Err(status)),
    };
    let Some(maps) = read_map(rt, options.get_str(MAP))? else {
        return Ok(Err(ExitCode::FAILURE));
    };
    let sum = match options.get_str(SUM) {
        Some(tag) => Some(String::from_str(rt.alloc(), tag)?),
        None => None,
    };
    Ok(Ok(Wanted {
        keys,
        conditions,
        maps,
        step: shown.step,
        top: shown.top,
        sum,
        format: format_of(options.get_str(FORMAT)),
    }))
}

// The format that a word of `--format` names; none where it is a page.
fn format_of(word: Option<&str>) -> Option<SheetFormat> {
    match word {
        Some("csv") => Some(SheetFormat::Csv),
        Some("json") => Some(SheetFormat::Json),
        Some("html") => None,
        _ => Some(SheetFormat::Table),
    }
}

// The keys of the groups: the tags, the columns, and the one of `--by` where that names no period.
fn read_keys(
    rt: &HostRuntime,
    options: &ArgMatches<'_>,
) -> Result<Result<Vec<WantedKey>, ExitCode>, Fault> {
    let keys = named_keys(rt.alloc(), options)?;
    if keys.is_empty() && !options.get_flag(TOTAL_ONLY) {
        return Ok(Err(no_keys(rt)));
    }
    judged_keys(rt, keys)
}

/// The tags that the options name, and then the columns; or the status where they are too many or one is named twice, which was said.
pub(crate) fn read_some_keys(
    rt: &HostRuntime,
    options: &ArgMatches<'_>,
) -> Result<Result<Vec<WantedKey>, ExitCode>, Fault> {
    let keys = named_keys(rt.alloc(), options)?;
    judged_keys(rt, keys)
}

// The tags that the options name, then the columns, and then the key that `--by` names, where it names no period.
fn named_keys(alloc: Global, options: &ArgMatches<'_>) -> Result<Vec<WantedKey>, AllocError> {
    let mut keys = Vec::new(alloc);
    for name in tags_of(options) {
        keys.push(WantedKey::of(alloc, Source::Tag(*name))?)?;
    }
    for name in options.get_strs(COLUMN).unwrap_or(&[]) {
        if let Some(column) = Column::named(*name) {
            keys.push(WantedKey::of(alloc, Source::Column(column))?)?;
        }
    }
    if let Some(name) = options.get_str(BY) {
        if step_of(Some(name)).is_none() {
            keys.push(WantedKey::of(alloc, source_named(name))?)?;
        }
    }
    Ok(keys)
}

// The keys, or the status where they are too many or one is named twice, which was said.
fn judged_keys(
    rt: &HostRuntime,
    keys: Vec<WantedKey>,
) -> Result<Result<Vec<WantedKey>, ExitCode>, Fault> {
    if keys.len() > MOST_KEYS {
        return Ok(Err(too_many_keys(rt, keys.len())));
    }
    if let Some(key) = first_again(keys.as_slice()) {
        return Ok(Err(key_again(rt, key.name())?));
    }
    Ok(Ok(keys))
}

// The first key that stands before it too, if there is one.
fn first_again(keys: &[WantedKey]) -> Option<&WantedKey> {
    for place in 0..keys.len() {
        for before in 0..place {
            if is_same_source(keys[before].source(), keys[place].source()) {
                return Some(&keys[place]);
            }
        }
    }
    None
}

// Says that nothing is named by which there could be groups.
fn no_keys(rt: &HostRuntime) -> ExitCode
    ensures { exit_status result ≡ wrong_use_status }
{
    wrong_use(
        rt,
        "name what the groups are: --tag KEY or --column COLUMN; a report takes --total-only for the sums alone",
    )
}

// Says that there are too many keys.
fn too_many_keys(rt: &HostRuntime, count: usize) -> ExitCode
    ensures { exit_status result ≡ wrong_use_status }
{
    let _ = eprintln!(rt;
        "focusd: --tag and --column: a report has at most {MOST_KEYS} of them, and not {count}"
    );
    ExitCode::from(WRONG_USE)
}

// Says that a key is named twice.
fn key_again(rt: &HostRuntime, name: &str) -> Result<ExitCode, AllocError> {
    let name = shown_text(rt.alloc(), name)?;
    let _ = eprintln!(rt; "focusd: --tag and --column: {name} is named twice");
    Ok(ExitCode::from(WRONG_USE))
}

// The conditions of `--where`, of which those of one key are joined, and then those of `--where-not`.
fn read_conditions(
    rt: &HostRuntime,
    options: &ArgMatches<'_>,
) -> Result<Result<Vec<Condition>, ExitCode>, Fault> {
    let mut conditions = Vec::new(rt.alloc());
    for (id, is_one) in [(WHERE, true), (WHERE_NOT, false)] {
        for word in options.get_strs(id).unwrap_or(&[]) {
            let Some((name, value)) = word.split_once('=') else {
                return Ok(Err(no_value(rt, id, *word)?));
            };
            add_condition(rt.alloc(), &mut conditions, name, value, is_one)?;
        }
    }
    Ok(Ok(conditions))
}

// Says that a filter has no value.
fn no_value(rt: &HostRuntime, id: &str, word: &str) -> Result<ExitCode, AllocError> {
    let word = shown_text(rt.alloc(), word)?;
    let _ = eprintln!(rt;
        "focusd: --{id}: {word} is not a key and a value, as environment=production"
    );
    Ok(ExitCode::from(WRONG_USE))
}

// Adds a value to the condition of a key, or a new condition.
fn add_condition(
    alloc: Global,
    conditions: &mut Vec<Condition>,
    name: &str,
    value: &str,
    is_one: bool,
) -> Result<(), AllocError> {
    let source = source_named(name);
    let value = String::from_str(alloc, value)?;
    match place_of(conditions.as_slice(), source, is_one) {
        Some(place) if place < conditions.len() => {
            conditions[place].values.push(value)?;
            return Ok(());
        }
        _ => {}
    }
    conditions.push(Condition {
        key: WantedKey::of(alloc, source)?,
        values: vec![in alloc; value]?,
        is_one,
    })?;
    Ok(())
}

// The place of the condition of a source, where it has one.
fn place_of(conditions: &[Condition], source: Source<'_>, is_one: bool) -> Option<usize> {
    conditions.iter().position(|it| it.is_one == is_one && is_same_source(it.key.source(), source))
}

// The maps of a file, where one is named; `None` where it has a fault, which was said.
fn read_map(rt: &HostRuntime, file: Option<&str>) -> Result<Option<Vec<NamedMap>>, Fault> {
    let Some(file) = file else {
        return Ok(Some(Vec::new(rt.alloc())));
    };
    let Some(text) = toml_of(rt, file)? else {
        return Ok(None);
    };
    match read_maps(rt.alloc(), text.as_slice()) {
        Ok(maps) => Ok(Some(maps)),
        Err(MapFault::Syntax) => {
            let meaning = explain_fault("N1 MapSyntax").meaning;
            refuse_map(rt, file, "N1 MapSyntax", meaning)
        }
        Err(MapFault::Field(field, table)) => {
            let expected = field.expected();
            let reason = format!(in rt.alloc(); "map {table}: {expected}")?;
            refuse_map(rt, file, "N2 MapField", reason.as_str())
        }
        Err(MapFault::NoMemory) => Err(Fault::NoMemory),
    }
}

// Says what is wrong with a file of maps: nothing is read of it.
fn refuse_map(
    rt: &HostRuntime,
    file: &str,
    fault: &str,
    reason: &str,
) -> Result<Option<Vec<NamedMap>>, Fault> {
    let file = shown_text(rt.alloc(), file)?;
    refuse(rt, file.as_str(), fault, reason);
    Ok(None)
}
