//! Faults of rows.
use fw_rows::RowFault;

/// The code and the name of a fault.
pub fn code_of(fault: RowFault) -> &'static str {
    match fault {
        RowFault::MissingColumn(_) => "H1 MissingColumn",
        RowFault::DoubleColumn(_) => "H2 DoubleColumn",
        RowFault::Record { fault, .. } => fault.name(),
        RowFault::NoRows => "V14 NoRows",
        RowFault::TooManyRows => "V15 TooManyRows",
        RowFault::NoMemory => "NoMemory",
    }
}

/// The column of a fault that is of a header; the empty text where it is of none.
pub(crate) fn column_of(fault: RowFault) -> &'static str {
    match fault {
        RowFault::MissingColumn(column) | RowFault::DoubleColumn(column) => column.name(),
        RowFault::Record { .. } | RowFault::NoRows | RowFault::TooManyRows | RowFault::NoMemory => {
            ""
        }
    }
}
