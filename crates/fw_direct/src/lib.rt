//! Direct reports as documents: what shards of a warehouse cost by the groups of a tag, period by period and under no policy, as one text of JSON.
//!
//! [`direct_text`] writes the direct reports of a warehouse, and [`read_document`] reads them. A [`Sheet`] takes those of many shards, adds them up
//! and charges them under a policy: [`Sheet::series`] is what one warehouse with all rows reports. Costs are nanos, 10^-9 of the currency's unit, and
//! hours are counted from 1970.
#![tactic(auto)]

mod document;
mod fault;
mod laws;
mod member;
mod part;
mod periods;
mod sheet;
mod text;

pub use document::{DirectDocument, read_document};
pub use fault::DocumentFault;
pub use laws::what_is_charged_is_the_series;
pub use part::{DirectPart, direct_parts};
pub use periods::periods_by;
pub use sheet::Sheet;
pub use text::direct_text;
