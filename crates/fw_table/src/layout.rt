//! Columns that line up.
ghost use Rattle.std.specs.Prelude.{◌≡◌, false, IfOk, OnOk, string_bytes};
ghost use Rattle.fw_table.specs.Shown.{is_acting_in_lines, AreShownLines};

use crate::shown::Shown;
use std::alloc::{AllocError, Global};
use unicode_width::UnicodeWidthStr;

/// On which side of its column a text stands.
#[derive(Clone, Copy, Debug, Drop, PartialEq, Eq)]
pub enum Align {
    /// Texts.
    Left,
    /// Numbers.
    Right,
}

/// A line of a table.
#[derive(Debug)]
pub enum Line {
    /// A text for each column.
    Cells(Vec<String>),
    /// Dashes as wide as each column.
    Rule,
}

impl Drop for Line {
    fn drop(self) {
        match self {
            Self::Cells(_) | Self::Rule => {}
        }
    }
}

/// A line of a table as a terminal may show it.
#[derive(Debug, Drop)]
enum ShownLine {
    Cells(Vec<Shown>),
    Rule,
}

/// What parts two columns, in spaces.
const GAP: usize = 2;

/// The text of a table: its lines, each ended by a line feed, with each column as wide as its widest text and two spaces between columns.
/// Nothing stands behind the last text of a line. Of a text the characters that act on a terminal, line feeds among them, are shown as their
/// codes ([`shown_text`](crate::shown_text)): so no text of a table forges a line or sends an escape.
pub fn table_text(alloc: Global, aligns: &[Align], lines: &[Line]) -> Result<String, AllocError>
    ensures { IfOk result (λ text. AreShownLines (string_bytes text)) }
{
    let lines = shown_lines(alloc, lines)?;
    let widths = widths_of(alloc, aligns.len(), lines.as_slice())?;
    let mut text = String::new(alloc);
    for line in &lines {
        push_line(&mut text, aligns, widths.as_slice(), line)?;
    }
    Ok(text)
}

// The lines of a table as a terminal may show them.
fn shown_lines(alloc: Global, lines: &[Line]) -> Result<Vec<ShownLine>, AllocError> {
    let mut shown = Vec::with_capacity(alloc, lines.len())?;
    for line in lines {
        shown.push(shown_line(alloc, line)?)?;
    }
    Ok(shown)
}

// A line of a table as a terminal may show it.
fn shown_line(alloc: Global, line: &Line) -> Result<ShownLine, AllocError> {
    match line {
        Line::Cells(cells) => Ok(ShownLine::Cells(shown_cells(alloc, cells.as_slice())?)),
        Line::Rule => Ok(ShownLine::Rule),
    }
}

// Texts as a terminal may show them.
fn shown_cells(alloc: Global, cells: &[String]) -> Result<Vec<Shown>, AllocError> {
    let mut shown = Vec::with_capacity(alloc, cells.len())?;
    for cell in cells {
        shown.push(Shown::of_text(alloc, cell.as_str())?)?;
    }
    Ok(shown)
}

// How wide each column is: as wide as its widest text.
fn widths_of(alloc: Global, columns: usize, lines: &[ShownLine]) -> Result<Vec<usize>, AllocError> {
    let mut widths = vec![in alloc; 0usize; columns]?;
    for line in lines {
        if let ShownLine::Cells(cells) = line {
            widen(widths.as_mut_slice(), cells.as_slice());
        }
    }
    Ok(widths)
}

// Makes each column as wide as the text that it has here.
fn widen(widths: &mut [usize], cells: &[Shown]) {
    for (width, cell) in widths.iter_mut().zip(cells) {
        *width = (*width).max(cell.as_str().width());
    }
}

// Adds a line and its end.
#[tactic(auto, unfolding(crate::specs::Shown::is_acting_in_lines, crate::specs::Shown::is_acting))]
fn push_line(
    text: &mut String,
    aligns: &[Align],
    widths: &[usize],
    line: &ShownLine,
) -> Result<(), AllocError>
    ensures { OnOk result (AreShownLines (string_bytes text.old)
        → AreShownLines (string_bytes text.new)) }
{
    match line {
        ShownLine::Cells(cells) => push_cells(text, aligns, widths, cells.as_slice())?,
        ShownLine::Rule => push_rule(text, widths)?,
    }
    push_repeated(text, '\n', 1)?;
    Ok(())
}

// Adds the texts of a line, each in its column.
#[tactic(auto, unfolding(crate::specs::Shown::is_acting_in_lines, crate::specs::Shown::is_acting))]
fn push_cells(
    text: &mut String,
    aligns: &[Align],
    widths: &[usize],
    cells: &[Shown],
) -> Result<(), AllocError>
    ensures { OnOk result (AreShownLines (string_bytes text.old)
        → AreShownLines (string_bytes text.new)) }
{
    let mut owed = 0;
    for (place, cell) in cells.iter().enumerate() {
        let width = widths.get(place).copied().unwrap_or(0);
        let blank = width.saturating_sub(cell.as_str().width());
        let align = aligns.get(place).copied().unwrap_or(Align::Left);
        let (before, after) = match align {
            Align::Left => (0, blank),
            Align::Right => (blank, 0),
        };
        push_repeated(text, ' ', owed)?;
        push_repeated(text, ' ', before)?;
        push_cell(text, cell)?;
        owed = after.saturating_add(GAP);
    }
    Ok(())
}

// Adds a text of a column.
fn push_cell(text: &mut String, cell: &Shown) -> Result<(), AllocError>
    ensures { OnOk result (AreShownLines (string_bytes text.old)
        → AreShownLines (string_bytes text.new)) }
{
    text.push_str(cell.as_str())?;
    Ok(())
}

// Adds dashes as wide as each column.
#[tactic(auto, unfolding(crate::specs::Shown::is_acting_in_lines, crate::specs::Shown::is_acting))]
fn push_rule(text: &mut String, widths: &[usize]) -> Result<(), AllocError>
    ensures { OnOk result (AreShownLines (string_bytes text.old)
        → AreShownLines (string_bytes text.new)) }
{
    for (place, width) in widths.iter().enumerate() {
        if place > 0 {
            push_repeated(text, ' ', GAP)?;
        }
        push_repeated(text, '-', *width)?;
    }
    Ok(())
}

// Adds a character so many times.
fn push_repeated(text: &mut String, what: char, times: usize) -> Result<(), AllocError>
    requires { is_acting_in_lines what ≡ false }
    ensures { OnOk result (AreShownLines (string_bytes text.old)
        → AreShownLines (string_bytes text.new)) }
{
    for _ in 0..times {
        text.push(what)?;
    }
    Ok(())
}
