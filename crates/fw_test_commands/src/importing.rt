//! Parts that are imported twice, in another form, and with other rows.
use crate::ended::check_all;
use crate::stores::{Faulty, NEVER, ROOM, created};
use fw_disk::Mode;
use fw_import::{ImportFault, Importer, Outcome, import_part};
use fw_recover::{Store, StoreFault};
use fw_rows::RowFault;
use fw_serve::serve;
use std::alloc::Global;
use std::thread::Threads;

const TEXT: &str =
    "BilledCost,EffectiveCost,BillingCurrency,ChargeCategory,ChargePeriodStart,ChargePeriodEnd,SkuId\n\
    1,2,USD,Usage,2024-01-01T00:00Z,2024-01-01T01:00Z,a\n\
    3,4,USD,Usage,2024-01-01T01:00Z,2024-01-01T02:00Z,b\n";

/// The same rows, spelled otherwise.
const SAME: &str =
    "SkuId,BilledCost,EffectiveCost,BillingCurrency,ChargeCategory,ChargePeriodStart,ChargePeriodEnd\r\n\
    \"a\",1.0,2e0,USD,Usage,2024-01-01T00:00:00Z,2024-01-01T01:00Z\r\n\
    b,+3,4,USD,Usage,2024-01-01T01:00Z,2024-01-01T02:00Z";

/// One row fewer.
const SHORTER: &str =
    "BilledCost,EffectiveCost,BillingCurrency,ChargeCategory,ChargePeriodStart,ChargePeriodEnd,SkuId\n\
    1,2,USD,Usage,2024-01-01T00:00Z,2024-01-01T01:00Z,a\n";

/// Another SKU in the last row.
const OTHER: &str =
    "BilledCost,EffectiveCost,BillingCurrency,ChargeCategory,ChargePeriodStart,ChargePeriodEnd,SkuId\n\
    1,2,USD,Usage,2024-01-01T00:00Z,2024-01-01T01:00Z,a\n\
    3,4,USD,Usage,2024-01-01T01:00Z,2024-01-01T02:00Z,c\n";

/// Texts with their numbers, and what becomes of each: `A` it is added, `S` it is there, `D` something else is there, `G` a number is
/// missing, `R` the text is refused, `W` what is there was withdrawn.
const IMPORTS: &[(&str, u64, char)] = &[
    (TEXT, 2, 'G'),
    (TEXT, 1, 'A'),
    (TEXT, 1, 'S'),
    (SAME, 1, 'S'),
    (SHORTER, 1, 'D'),
    (OTHER, 1, 'D'),
    (SHORTER, 2, 'A'),
    (TEXT, 2, 'D'),
    (SHORTER, 2, 'S'),
    (SAME, 1, 'S'),
    ("BilledCost\n1\n", 3, 'R'),
];

/// What becomes of a text.
fn letter(
    alloc: Global,
    store: &mut Store<Faulty>,
    importer: &mut Importer<'_>,
    text: &str,
    number: u64,
) -> Result<char, StoreFault> {
    match import_part(alloc, store, importer, number, text.as_bytes()) {
        Ok(taken) => match taken.outcome {
            Outcome::Added => Ok('A'),
            Outcome::Same => Ok('S'),
        },
        Err(ImportFault::Differs) => Ok('D'),
        Err(ImportFault::Withdrawn) => Ok('W'),
        Err(ImportFault::Gap { .. }) => Ok('G'),
        Err(ImportFault::Rows(RowFault::NoMemory)) => Err(StoreFault::NoMemory),
        Err(ImportFault::Rows(_)) => Ok('R'),
        Err(ImportFault::NoMemory) => Err(StoreFault::NoMemory),
        Err(ImportFault::Store(fault)) => Err(fault),
        Err(_) => Ok('?'),
    }
}

/// The place of the first import that is answered otherwise.
fn first_wrong(
    alloc: Global,
    store: &mut Store<Faulty>,
    imports: &[(&str, u64, char)],
) -> Result<Option<usize>, StoreFault> {
    let mut importer = Importer::new(alloc, "a");
    for (place, (text, number, wanted)) in imports.iter().enumerate() {
        if letter(alloc, store, &mut importer, text, *number)? != *wanted {
            return Ok(Some(place));
        }
    }
    Ok(None)
}

/// The same in a new warehouse.
fn first_wrong_in_all(alloc: Global) -> Result<Option<usize>, StoreFault> {
    let mut store = created(alloc, ROOM, NEVER, Mode::Once)?;
    first_wrong(alloc, &mut store, IMPORTS)
}

#[test]
fn imports_each_part_once(rt: HostRuntime) {
    check_all(&rt, first_wrong_in_all(rt.alloc()));
}

/// A commitment, and a purchase that is added to it as the first entry of `a`.
const ADDED: &str = "commit b 1 8
id = \"cd\"
category = \"Usage\"
start = \"2024-01-01T00:00Z\"
hours = 1
capacity = \"1\"
unit = \"Hours\"
skus = [\"a\"]
purchase = [{ at = \"2024-01-01T00:00Z\", billed = \"1\" }]
add a 1 3
id = \"cd\"
at = \"2024-01-01T00:00Z\"
billed = \"1\"
";

/// What becomes of texts behind it: no post has the number 1.
const BEHIND_ADDED: &[(&str, u64, char)] = &[
    (TEXT, 1, 'D'),
    (TEXT, 3, 'G'),
    (TEXT, 2, 'A'),
    (SAME, 2, 'S'),
    (SHORTER, 2, 'D'),
];

/// Sends a script to a store. An answer that isn't the right one is out of memory.
fn send(
    rt: &(impl Threads + Sync),
    alloc: Global,
    store: &mut Store<Faulty>,
    script: &str,
    wanted: &str,
) -> Result<(), StoreFault> {
    let mut answers = Vec::new(alloc);
    let served = serve(rt, alloc, &mut script.as_bytes(), &mut answers, store, 1);
    if served.is_ok() && answers.as_slice() == wanted.as_bytes() {
        Ok(())
    } else {
        Err(StoreFault::NoMemory)
    }
}

/// The place of the first of these imports that is answered otherwise.
fn first_wrong_behind(
    rt: &(impl Threads + Sync),
    alloc: Global,
) -> Result<Option<usize>, StoreFault> {
    let mut store = created(alloc, ROOM, NEVER, Mode::Once)?;
    send(rt, alloc, &mut store, ADDED, "accepted 1\naccepted 2\n")?;
    first_wrong(alloc, &mut store, BEHIND_ADDED)
}

#[test]
fn an_added_purchase_is_no_post(rt: HostRuntime) {
    check_all(&rt, first_wrong_behind(&rt, rt.alloc()));
}

/// What becomes of texts once the first post was withdrawn by the second entry.
const BEHIND_WITHDRAWN: &[(&str, u64, char)] = &[
    (TEXT, 1, 'W'),
    (SHORTER, 1, 'W'),
    (TEXT, 2, 'D'),
    (TEXT, 3, 'A'),
    (SAME, 3, 'S'),
];

/// The place of the first of these imports that is answered otherwise.
fn first_wrong_withdrawn(
    rt: &(impl Threads + Sync),
    alloc: Global,
) -> Result<Option<usize>, StoreFault> {
    let mut store = created(alloc, ROOM, NEVER, Mode::Once)?;
    let added = first_wrong(alloc, &mut store, &[(TEXT, 1, 'A')])?;
    if added.is_some() {
        return Ok(added);
    }
    send(rt, alloc, &mut store, "withdraw a 2 1\n", "accepted 2\n")?;
    first_wrong(alloc, &mut store, BEHIND_WITHDRAWN)
}

#[test]
fn a_withdrawn_post_is_not_taken_for_imported(rt: HostRuntime) {
    check_all(&rt, first_wrong_withdrawn(&rt, rt.alloc()));
}
