//! Where a field stands in a TOML text.
ghost use Rattle.std.specs.Prelude.{◌≤◌, IfSome};

/// Where a field stands in a TOML text.
#[derive(Clone, Copy, Debug, Drop)]
pub struct Located<'t> {
    /// The line, counted from 1.
    pub line: u64,
    /// What stands in the line, without the blanks around it.
    pub text: &'t str,
}

// What a line begins.
enum Begins<'t> {
    // The table, or one of the tables, of this name. A table in a table has a point in its name.
    Table(&'t str),
    // The value of this name.
    Value(&'t str),
    // Nothing: it is empty, a comment, or goes on with what began before.
    Nothing,
}

/// The first line that begins a field: the field of a table, or of the document itself where the table's name is the
/// empty text. `[field]`, `[[field]]` and `field.more = ..` begin it too. `None` where no line does.
pub fn locate<'t>(text: &'t str, table: &str, field: &str) -> Option<Located<'t>>
    ensures { IfSome result (λ found. 1 ≤ found.line) }
{
    let mut inside = "";
    let mut number: u64 = 0;
    for line in text.lines() {
        number = number.saturating_add(1);
        let line = line.trim();
        let is_found = match beginning(line) {
            Begins::Table(name) => {
                inside = name;
                is_table(name, table, field)
            }
            Begins::Value(name) => inside == table && name == field,
            Begins::Nothing => false,
        };
        if is_found {
            return Some(Located {
                line: number.max(1),
                text: line,
            });
        }
    }
    None
}

// What a line begins, without the blanks around it.
fn beginning(line: &str) -> Begins<'_> {
    if line.starts_with('#') {
        return Begins::Nothing;
    }
    if line.starts_with('[') {
        return Begins::Table(table_name(line));
    }
    match line.split_once('=') {
        Some((name, _)) => Begins::Value(first_name(name)),
        None => Begins::Nothing,
    }
}

// The name between the brackets of a line.
fn table_name(line: &str) -> &str {
    let name = line.trim_start_matches('[');
    match name.split_once(']') {
        Some((name, _)) => name.trim(),
        None => name,
    }
}

// The first name of those that points part, without blanks and quotes around it.
fn first_name(names: &str) -> &str {
    let name = match names.split_once('.') {
        Some((name, _)) => name,
        None => names,
    };
    bare(name)
}

// A name without blanks and quotes around it.
fn bare(name: &str) -> &str {
    name.trim().trim_matches('"')
}

// Whether the table of this name is a field of a table, or of the document itself.
fn is_table(name: &str, table: &str, field: &str) -> bool {
    if table.is_empty() {
        return first_name(name) == field;
    }
    match name.split_once('.') {
        Some((outer, inner)) => bare(outer) == table && first_name(inner) == field,
        None => false,
    }
}
