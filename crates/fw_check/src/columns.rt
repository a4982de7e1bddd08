//! Which columns a header lacks, and which it has twice.
ghost use Rattle.std.specs.Prelude.{◌≡◌, [], get_or};
ghost use Rattle.std.specs.Str.{bytes_eq};
ghost use Rattle.csv.specs.Records.{fields_of};
ghost use Rattle.fw_rows.specs.Columns.{columns, required};
ghost use Rattle.fw_check.specs.Headers.{double_fault, fault_behind, fault_if, is_kept, is_name_among, kept_fault, missing_fault, times_named};

use crate::fields::field_bytes;
use csv::ByteRecord;
use fw_rows::{Column, Keep};

/// What is wrong with a column of a header.
#[derive(Clone, Copy, Debug, Drop, PartialEq, Eq)]
pub(crate) enum HeaderFault {
    /// The header doesn't have it.
    Missing,
    /// The header has it more than once.
    Double,
}

/// The columns that each header must have.
pub(crate) const REQUIRED: [Column; 6] = [
    Column::BilledCost,
    Column::EffectiveCost,
    Column::BillingCurrency,
    Column::ChargeCategory,
    Column::ChargePeriodStart,
    Column::ChargePeriodEnd,
];

/// What is wrong with a column that a header must have.
pub(crate) fn missing_fault(header: &ByteRecord, column: Column) -> Option<HeaderFault>
    ensures { result ≡ missing_fault (fields_of header.now) column }
{
    fault_if(column.place_in(header).is_none(), HeaderFault::Missing)
}

/// What is wrong with a column that a header may have just once.
pub(crate) fn double_fault(header: &ByteRecord, column: Column) -> Option<HeaderFault>
    ensures { result ≡ double_fault (fields_of header.now) column }
{
    fault_if(times_in(header, column.name()) > 1, HeaderFault::Double)
}

/// What is wrong with a column of a header that is kept behind some: nothing where it is one of these.
pub(crate) fn fault_behind(header: &ByteRecord, before: &[Keep], name: &str) -> Option<HeaderFault>
    ensures { result ≡ fault_behind (fields_of header.now) before.now name.now }
{
    if is_kept(before, name) {
        return None;
    }
    kept_fault(header, name)
}

// Whether a column is kept.
fn is_kept(keeps: &[Keep], name: &str) -> bool
    ensures { result ≡ is_kept keeps.now name.now }
{
    keeps.iter().any(|keep| keep.column() == name)
}

// What is wrong with a kept column of a header, beyond what each header is checked for.
fn kept_fault(header: &ByteRecord, name: &str) -> Option<HeaderFault>
    ensures { result ≡ kept_fault (fields_of header.now) name.now }
{
    let times = times_in(header, name);
    if times == 0 {
        return fault_if(!is_required_name(name), HeaderFault::Missing);
    }
    if times > 1 {
        return fault_if(!is_read(name), HeaderFault::Double);
    }
    None
}

// A fault, where it is one.
fn fault_if(is: bool, fault: HeaderFault) -> Option<HeaderFault>
    ensures { result ≡ fault_if is fault }
{
    if is { Some(fault) } else { None }
}

// Whether each header must have a column of this name.
fn is_required_name(name: &str) -> bool
    ensures { result ≡ is_name_among name.now required }
{
    REQUIRED.iter().any(|column| column.name() == name)
}

// Whether a column is read by this name.
fn is_read(name: &str) -> bool
    ensures { result ≡ is_name_among name.now columns }
{
    Column::ALL.iter().any(|column| column.name() == name)
}

// How often a header has a column.
fn times_in(header: &ByteRecord, name: &str) -> usize
    ensures { result ≡ times_named (fields_of header.now) name.now }
{
    let mut times = 0;
    for place in 0..header.len() {
        if is_name_at(header, place, name) {
            times += 1;
        }
    }
    times
}

/// Whether the field of a header at a place is a name.
pub(crate) fn is_name_at(header: &ByteRecord, place: usize, name: &str) -> bool
    ensures { result ≡ bytes_eq name.now (get_or (fields_of header.now) place []) }
{
    name.as_bytes() == field_bytes(header, place)
}
