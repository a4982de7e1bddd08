//! Selections as text: a table, CSV or JSON, of the whole range or by period, of all groups or of the largest.
//!
//! [`selections_of`] makes the selections, and [`written`] writes them as a [`Sheet`] says. [`shown_group`] is the name of a group. [`read_maps`] reads what stands for the values of keys.
#![tactic(auto)]

mod csv_text;
mod json;
mod map_file;
mod names;
mod parts;
mod rows;
mod sheet;
mod table;

pub use map_file::{MapFault, MapField, NamedMap, is_same_source, map_of, read_maps, source_named};
pub use names::shown_group;
pub use parts::{SelectedPart, Selections, selections_of};
pub use sheet::{KeyName, Sheet, SheetFormat, written};
