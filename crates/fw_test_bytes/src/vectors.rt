//! Values by hand: their bytes, what they print as, and what their bytes are no more once they are spoiled.
use crate::decoders::What;

/// A changed byte: its place, what it is then, and the place of the fault.
pub(crate) type Change = (usize, u8, usize);

/// How many bytes are left, and the place of the fault.
pub(crate) type Front = (usize, usize);

/// A tax of one nano over the first hour of 1970; all else is null.
pub(crate) const TAX: [u8; 45] = [
    1, 0, 0, 0, 0, 0, 0, 0, 1, 0, 0, 0, 0, 0, 0, 0, 3, 0, 0, 0, 0, 0, 0, 0, 0, 0, 0x10, 0x0e, 0, 0,
    0, 0, 0, 0, 0, 0, 0, 0, 0, 0, 0, 0, 0, 0, 0,
];

/// A usage row in which nothing is null: a correction of minus one nano billed and two effective, over the second hour
/// of 1970; discount `sp-1`, unused, to a spend; seven nanos of `h`; SKU `v`, sub-account `a`; tags `a` of `x`, and `b`
/// of no text.
pub(crate) const FULL: [u8; 95] = [
    255, 255, 255, 255, 255, 255, 255, 255, 2, 0, 0, 0, 0, 0, 0, 0, 1, 1, 16, 14, 0, 0, 0, 0, 0, 0,
    32, 28, 0, 0, 0, 0, 0, 0, 1, 4, 0, 0, 0, 115, 112, 45, 49, 2, 2, 1, 7, 0, 0, 0, 0, 0, 0, 0, 1,
    1, 0, 0, 0, 104, 1, 1, 0, 0, 0, 118, 1, 1, 0, 0, 0, 97, 2, 0, 0, 0, 1, 0, 0, 0, 97, 1, 0, 0, 0,
    120, 1, 0, 0, 0, 98, 0, 0, 0, 0,
];

/// The full row as a tax without a status.
pub(crate) const FULL_TAX: [u8; 95] = [
    255, 255, 255, 255, 255, 255, 255, 255, 2, 0, 0, 0, 0, 0, 0, 0, 3, 1, 16, 14, 0, 0, 0, 0, 0, 0,
    32, 28, 0, 0, 0, 0, 0, 0, 1, 4, 0, 0, 0, 115, 112, 45, 49, 2, 0, 1, 7, 0, 0, 0, 0, 0, 0, 0, 1,
    1, 0, 0, 0, 104, 1, 1, 0, 0, 0, 118, 1, 1, 0, 0, 0, 97, 2, 0, 0, 0, 1, 0, 0, 0, 97, 1, 0, 0, 0,
    120, 1, 0, 0, 0, 98, 0, 0, 0, 0,
];

/// Changes of the tax.
pub(crate) const TAX_CHANGES: &[Change] = &[
    (7, 0x7f, 0),
    (15, 0x80, 8),
    (16, 0, 16),
    (16, 6, 16),
    (17, 2, 17),
    (25, 1, 18),
    (33, 1, 26),
    (34, 2, 34),
    (35, 3, 35),
    (36, 3, 36),
    (37, 2, 37),
    (38, 2, 38),
    (39, 2, 39),
    (40, 2, 40),
    (42, 2, 41),
    // A text of no byte.
    (34, 1, 35),
    (38, 1, 39),
    // A tag that isn't there.
    (41, 1, 45),
    // A kind and a status without an id, and a period that ends before it starts.
    (35, 1, 0),
    (36, 1, 0),
    (19, 0x20, 0),
];

/// Changes of the full row.
pub(crate) const FULL_CHANGES: &[Change] = &[
    (53, 0x7f, 46),
    // An id, a tag's key and its text that are no UTF-8, and an id that is longer than the bytes.
    (39, 0xff, 35),
    (80, 0xff, 76),
    (85, 0xff, 81),
    (36, 1, 35),
    // A tag more than there is.
    (72, 3, 95),
    // An id without a kind, a usage row's id without a status, one key twice, and keys that fall.
    (43, 0, 0),
    (44, 0, 0),
    (80, b'b', 0),
    (80, b'c', 0),
];

/// Fronts of the full row.
pub(crate) const FULL_FRONTS: &[Front] = &[
    (0, 0),
    (7, 0),
    (15, 8),
    (16, 16),
    (20, 18),
    (34, 34),
    (38, 35),
    (75, 72),
    (76, 76),
    (94, 91),
];

/// A commitment to usage. Id `c1`, account `a`, the tag `s` of no text and the tag `t` of `v`; from hour 3 on, two
/// hours of five nanos each; the unit `h`, the SKUs `a` and `b`; a purchase of seven nanos in second 9, and one of
/// eight in second 10.
pub(crate) const USAGE: [u8; 107] = [
    2, 0, 0, 0, b'c', b'1', 1, 1, 1, 0, 0, 0, b'a', // the tags, at 13
    2, 0, 0, 0, 1, 0, 0, 0, b's', 0, 0, 0, 0, 1, 0, 0, 0, b't', 1, 0, 0, 0, b'v',
    // the term, at 36
    3, 0, 0, 0, 2, 0, 0, 0, 5, 0, 0, 0, 0, 0, 0, 0, // the unit, at 52
    1, 0, 0, 0, b'h', 2, 0, 0, 0, 1, 0, 0, 0, b'a', 1, 0, 0, 0, b'b',
    // the purchases, at 71
    2, 0, 0, 0, 9, 0, 0, 0, 0, 0, 0, 0, 7, 0, 0, 0, 0, 0, 0, 0, 10, 0, 0, 0, 0, 0, 0, 0, 8, 0, 0,
    0, 0, 0, 0, 0,
];

/// The commitment to usage with a first purchase of about 7 * 10^16 nanos. A second like it is too much.
pub(crate) const DEAR: [u8; 107] = [
    2, 0, 0, 0, b'c', b'1', 1, 1, 1, 0, 0, 0, b'a', 2, 0, 0, 0, 1, 0, 0, 0, b's', 0, 0, 0, 0, 1, 0,
    0, 0, b't', 1, 0, 0, 0, b'v', 3, 0, 0, 0, 2, 0, 0, 0, 5, 0, 0, 0, 0, 0, 0, 0, 1, 0, 0, 0, b'h',
    2, 0, 0, 0, 1, 0, 0, 0, b'a', 1, 0, 0, 0, b'b', 2, 0, 0, 0, 9, 0, 0, 0, 0, 0, 0, 0, 7, 0, 0, 0,
    0, 0, 0, 1, 10, 0, 0, 0, 0, 0, 0, 0, 8, 0, 0, 0, 0, 0, 0, 0,
];

/// Changes of the commitment to usage.
pub(crate) const USAGE_CHANGES: &[Change] = &[
    // The id: of no byte, longer than the bytes, no UTF-8.
    (0, 0, 0),
    (3, 1, 0),
    (4, 0xff, 0),
    (6, 0, 6),
    (6, 3, 6),
    // The account: neither there nor not there, of no byte.
    (7, 2, 7),
    (8, 0, 8),
    // The tags: too many, a key and a text that are too long, and a text that is no UTF-8.
    (14, 2, 13),
    (18, 5, 17),
    (23, 5, 22),
    (35, 0xff, 31),
    // The first hour, and none, and too many of them.
    (39, 5, 36),
    (40, 0, 40),
    (42, 1, 40),
    // The capacity: nothing, negative, above 10^17.
    (44, 0, 44),
    (51, 0x80, 44),
    (51, 2, 44),
    (52, 0, 52),
    // The SKUs: none, too many, of no byte, no UTF-8.
    (57, 0, 57),
    (58, 2, 57),
    (61, 0, 61),
    (70, 0xff, 66),
    // The purchases: none, too many, too late, negative, above 10^17.
    (71, 0, 71),
    (71, 65, 71),
    (80, 1, 75),
    (90, 0x80, 83),
    (90, 2, 83),
    (106, 0x80, 99),
    // A purchase more than there is.
    (71, 3, 107),
    // A key twice, and keys that fall; a SKU twice, and SKUs that fall.
    (21, b't', 0),
    (21, b'u', 0),
    (70, b'a', 0),
    (65, b'c', 0),
];

/// Fronts of the commitment to usage.
pub(crate) const USAGE_FRONTS: &[Front] = &[
    (0, 0),
    (5, 0),
    (6, 6),
    (12, 8),
    (20, 17),
    (51, 44),
    (70, 66),
    (90, 83),
    (106, 99),
];

/// A commitment to spend that is as large as it may be in each number. Id `c`, no account, no tags; from hour
/// 70,389,527 on, 26,304 hours of 10^17 nanos each; a rate of one part per million for `a`, and one of a million for
/// `b`; a purchase of 10^17 nanos in second 253,402,300,799.
pub(crate) const SPEND: [u8; 69] = [
    1, 0, 0, 0, b'c', 2, 0, 0, 0, 0, 0, // the term, at 11
    0x17, 0x0f, 0x32, 0x04, 0xc0, 0x66, 0, 0, 0, 0, 0x8a, 0x5d, 0x78, 0x45, 0x63, 0x01,
    // the rates, at 27
    2, 0, 0, 0, 1, 0, 0, 0, b'a', 1, 0, 0, 0, 1, 0, 0, 0, b'b', 0x40, 0x42, 0x0f, 0,
    // the purchases, at 49
    1, 0, 0, 0, 0x7f, 0x41, 0xf4, 0xff, 0x3a, 0, 0, 0, 0, 0, 0x8a, 0x5d, 0x78, 0x45, 0x63, 0x01,
];

/// Changes of the commitment to spend.
pub(crate) const SPEND_CHANGES: &[Change] = &[
    (5, 3, 5),
    // The first hour of the year 10000, an hour more, a nano more.
    (11, 0x18, 11),
    (15, 0xc1, 15),
    (19, 1, 19),
    // The rates: none, too many, of no byte, of no part, of more than a million.
    (27, 0, 27),
    (28, 2, 27),
    (31, 0, 31),
    (36, 0, 36),
    (45, 0x41, 45),
    // The first second of the year 10000, a nano more.
    (53, 0x80, 53),
    (61, 1, 61),
    // A SKU twice, and SKUs that fall.
    (44, b'a', 0),
    (35, b'c', 0),
];

/// A policy. Key `team`; `y` gives to `a` by the weight 1,000,000,000 and to `b` by 0; `x` gives in proportion, and so
/// do the lines without the key.
pub(crate) const POLICY: [u8; 59] = [
    4, 0, 0, 0, b't', b'e', b'a', b'm', 3, 0, 0, 0, // the first rule, at 12
    1, 0, 0, 0, b'y', 1, 2, 0, 0, 0, // its targets, at 22
    1, 0, 0, 0, b'a', 0x00, 0xca, 0x9a, 0x3b, 0, 0, 0, 0, 1, 0, 0, 0, b'b', 0, 0, 0, 0, 0, 0, 0, 0,
    // the other rules, at 48
    1, 0, 0, 0, b'x', 2, 0, 0, 0, 0, 2,
];

/// Changes of the policy.
pub(crate) const POLICY_CHANGES: &[Change] = &[
    // The key: of no byte, longer than the bytes, no UTF-8.
    (0, 0, 0),
    (3, 1, 0),
    (4, 0xff, 0),
    (8, 65, 8),
    (12, 200, 12),
    (16, 0xff, 12),
    (17, 0, 17),
    (17, 3, 17),
    // The targets: none, too many, no UTF-8, and a weight that is too great.
    (18, 0, 18),
    (19, 2, 18),
    (26, 0xff, 22),
    (27, 1, 27),
    (47, 1, 40),
    (53, 0, 53),
    (58, 3, 58),
    // A rule more than there is.
    (8, 4, 59),
    // A target twice, and targets that fall.
    (39, b'a', 0),
    (26, b'c', 0),
    // A group that gives twice; targets that give, one of them to itself.
    (52, b'y', 0),
    (39, b'x', 0),
    (39, b'y', 0),
];

/// Fronts of the policy.
pub(crate) const POLICY_FRONTS: &[Front] = &[
    (0, 0),
    (11, 8),
    (16, 12),
    (17, 17),
    (21, 18),
    (34, 27),
    (53, 53),
    (58, 58),
];

/// A purchase that is added to `cd-1`: two nanos in second 1,704,070,800, an hour into the year 2024.
pub(crate) const ADDED: [u8; 24] = [
    4, 0, 0, 0, b'c', b'd', b'-', b'1', // the second, at 8
    0x90, 0x0e, 0x92, 0x65, 0, 0, 0, 0, // the amount, at 16
    2, 0, 0, 0, 0, 0, 0, 0,
];

/// Changes of the purchase that is added.
pub(crate) const ADDED_CHANGES: &[Change] = &[
    // The id: of no byte, longer than the bytes, no UTF-8.
    (0, 0, 0),
    (3, 1, 0),
    (4, 0xff, 0),
    // The second: of the year 10054, and later.
    (12, 0x3b, 8),
    (15, 1, 8),
    // The amount: negative, above 10^17.
    (23, 0x80, 16),
    (23, 2, 16),
];

/// Fronts of the purchase that is added.
pub(crate) const ADDED_FRONTS: &[Front] = &[(0, 0), (7, 0), (8, 8), (15, 8), (16, 16), (23, 16)];

/// Kind 5, from `billing`, number 4: that purchase, as another program spelled it.
const ADD: [u8; 44] = [
    0x07, 0x00, 0x00, 0x00, 0x62, 0x69, 0x6c, 0x6c, 0x69, 0x6e, 0x67, 0x04, 0x00, 0x00, 0x00, 0x00,
    0x00, 0x00, 0x00, 0x05, 0x04, 0x00, 0x00, 0x00, 0x63, 0x64, 0x2d, 0x31, 0x90, 0x0e, 0x92, 0x65,
    0x00, 0x00, 0x00, 0x00, 0x02, 0x00, 0x00, 0x00, 0x00, 0x00, 0x00, 0x00,
];

/// Kind 4, from `billing`, number 4: its entry 2 is withdrawn, as another program spelled it.
const WITHDRAWAL: [u8; 28] = [
    0x07, 0x00, 0x00, 0x00, 0x62, 0x69, 0x6c, 0x6c, 0x69, 0x6e, 0x67, 0x04, 0x00, 0x00, 0x00, 0x00,
    0x00, 0x00, 0x00, 0x04, 0x02, 0x00, 0x00, 0x00, 0x00, 0x00, 0x00, 0x00,
];

/// The origin `a`.
const ORIGIN: [u8; 5] = [1, 0, 0, 0, b'a'];

/// The number 1.
const SEQ: [u8; 8] = [1, 0, 0, 0, 0, 0, 0, 0];

/// Kind 3: the policy with the key `t` and no rules.
const SET_POLICY: [u8; 10] = [3, 1, 0, 0, 0, b't', 0, 0, 0, 0];

/// Kind 2: 10 nanos of the unit `h` of the SKU `s` in each of the first 24 hours of 1970, bought in second 5 for
/// 7 nanos.
const COMMIT: [u8; 62] = [
    2, 1, 0, 0, 0, b'c', 1, 0, 0, 0, 0, 0, 0, 0, 0, 0, 24, 0, 0, 0, 10, 0, 0, 0, 0, 0, 0, 0, 1, 0,
    0, 0, b'h', 1, 0, 0, 0, 1, 0, 0, 0, b's', 1, 0, 0, 0, 5, 0, 0, 0, 0, 0, 0, 0, 7, 0, 0, 0, 0, 0,
    0, 0,
];

/// A row of usage in the first hour of 1970: 9 nanos billed, 8 effective, and nothing else.
const ROW: [u8; 45] = [
    9, 0, 0, 0, 0, 0, 0, 0, 8, 0, 0, 0, 0, 0, 0, 0, 1, 0, 0, 0, 0, 0, 0, 0, 0, 0, 16, 14, 0, 0, 0,
    0, 0, 0, 0, 0, 0, 0, 0, 0, 0, 0, 0, 0, 0,
];

/// Kind 3 again, from `a`, number 1, as another program spelled it.
const OUTSIDE: [u8; 23] = [
    0x01, 0x00, 0x00, 0x00, 0x61, 0x01, 0x00, 0x00, 0x00, 0x00, 0x00, 0x00, 0x00, 0x03, 0x01, 0x00,
    0x00, 0x00, 0x74, 0x00, 0x00, 0x00, 0x00,
];

/// The parts that a value's bytes are made of, and what it prints.
pub(crate) const VALUES: &[(What, &[&[u8]], &str)] = &[
    (
        What::Row,
        &[&TAX],
        "Row { fields: RowFields { billed: Nanos { count: 1 }, effective: Nanos { count: 1 }, category: Tax, \
        is_correction: false, start: 0, end: 3600, discount: None, quantity: None, unit: None, sku: None, \
        sub_account: None, tags: Tags { items: [] } } }",
    ),
    (
        What::Row,
        &[&FULL],
        "Row { fields: RowFields { billed: Nanos { count: -1 }, effective: Nanos { count: 2 }, category: \
        Usage, is_correction: true, start: 3600, end: 7200, discount: Some(Discount { id: \"sp-1\", kind: \
        Spend, status: Some(Unused) }), quantity: Some(Nanos { count: 7 }), unit: Some(\"h\"), sku: \
        Some(\"v\"), sub_account: Some(\"a\"), tags: Tags { items: [Tag { key: \"a\", value: \"x\" }, Tag { \
        key: \"b\", value: \"\" }] } } }",
    ),
    (
        What::Row,
        &[&FULL_TAX],
        "Row { fields: RowFields { billed: Nanos { count: -1 }, effective: Nanos { count: 2 }, category: Tax, \
        is_correction: true, start: 3600, end: 7200, discount: Some(Discount { id: \"sp-1\", kind: Spend, \
        status: None }), quantity: Some(Nanos { count: 7 }), unit: Some(\"h\"), sku: Some(\"v\"), \
        sub_account: Some(\"a\"), tags: Tags { items: [Tag { key: \"a\", value: \"x\" }, Tag { key: \"b\", \
        value: \"\" }] } } }",
    ),
    (
        What::Commitment,
        &[&USAGE],
        "Commitment { fields: CommitmentFields { id: \"c1\", terms: Usage { unit: \"h\", skus: [\"a\", \"b\"] \
        }, sub_account: Some(\"a\"), tags: Tags { items: [Tag { key: \"s\", value: \"\" }, Tag { key: \"t\", \
        value: \"v\" }] }, start: 3, hours: 2, capacity: Nanos { count: 5 }, purchases: [Purchase { at: 9, \
        billed: Nanos { count: 7 } }, Purchase { at: 10, billed: Nanos { count: 8 } }] } }",
    ),
    (
        What::Commitment,
        &[&DEAR],
        "Commitment { fields: CommitmentFields { id: \"c1\", terms: Usage { unit: \"h\", skus: [\"a\", \"b\"] \
        }, sub_account: Some(\"a\"), tags: Tags { items: [Tag { key: \"s\", value: \"\" }, Tag { key: \"t\", \
        value: \"v\" }] }, start: 3, hours: 2, capacity: Nanos { count: 5 }, purchases: [Purchase { at: 9, \
        billed: Nanos { count: 72057594037927943 } }, Purchase { at: 10, billed: Nanos { count: 8 } }] } }",
    ),
    (
        What::Commitment,
        &[&SPEND],
        "Commitment { fields: CommitmentFields { id: \"c\", terms: Spend { rates: [Rate { sku: \"a\", ppm: 1 \
        }, Rate { sku: \"b\", ppm: 1000000 }] }, sub_account: None, tags: Tags { items: [] }, start: \
        70389527, hours: 26304, capacity: Nanos { count: 100000000000000000 }, purchases: [Purchase { at: \
        253402300799, billed: Nanos { count: 100000000000000000 } }] } }",
    ),
    (
        What::Policy,
        &[&POLICY],
        "Policy { key: \"team\", rules: [Rule { from: \"y\", give: Fixed([Target { group: \"a\", weight: \
        1000000000 }, Target { group: \"b\", weight: 0 }]) }, Rule { from: \"x\", give: Proportional }, Rule \
        { from: \"\", give: Proportional }] }",
    ),
    (
        What::Policy,
        &[&[1, 0, 0, 0, b't', 0, 0, 0, 0]],
        "Policy { key: \"t\", rules: [] }",
    ),
    (
        What::Added,
        &[&ADDED],
        "AddedPurchase { id: \"cd-1\", purchase: Purchase { at: 1704070800, billed: Nanos { count: 2 } } }",
    ),
    (
        What::Entry,
        &[&OUTSIDE],
        "Entry { origin: \"a\", seq: 1, command: SetPolicy(Policy { key: \"t\", rules: [] }) }",
    ),
    (
        What::EntryOfTwo,
        &[&OUTSIDE],
        "Entry { origin: \"a\", seq: 1, command: SetPolicy(Policy { key: \"t\", rules: [] }) }",
    ),
    (
        What::EntryOfTwo,
        &[&ADD],
        "Entry { origin: \"billing\", seq: 4, command: AddPurchase(AddedPurchase { id: \"cd-1\", purchase: \
        Purchase { at: 1704070800, billed: Nanos { count: 2 } } }) }",
    ),
    (
        What::EntryOfTwo,
        &[&WITHDRAWAL],
        "Entry { origin: \"billing\", seq: 4, command: Withdraw(2) }",
    ),
    (
        What::Entry,
        &[&ORIGIN, &SEQ, &COMMIT],
        "Entry { origin: \"a\", seq: 1, command: Commit(Commitment { fields: CommitmentFields { id: \"c\", \
        terms: Usage { unit: \"h\", skus: [\"s\"] }, sub_account: None, tags: Tags { items: [] }, start: 0, \
        hours: 24, capacity: Nanos { count: 10 }, purchases: [Purchase { at: 5, billed: Nanos { count: 7 } \
        }] } }) }",
    ),
    (
        What::Entry,
        &[&ORIGIN, &SEQ, &[1, 1, 0, 0, 0], &ROW],
        "Entry { origin: \"a\", seq: 1, command: Post([Row { fields: RowFields { billed: Nanos { count: 9 }, \
        effective: Nanos { count: 8 }, category: Usage, is_correction: false, start: 0, end: 3600, discount: \
        None, quantity: None, unit: None, sku: None, sub_account: None, tags: Tags { items: [] } } }]) }",
    ),
    (
        What::Entry,
        &[&ORIGIN, &SEQ, &[1, 3, 0, 0, 0], &ROW, &ROW, &ROW],
        "Entry { origin: \"a\", seq: 1, command: Post([Row { fields: RowFields { billed: Nanos { count: 9 }, \
        effective: Nanos { count: 8 }, category: Usage, is_correction: false, start: 0, end: 3600, discount: \
        None, quantity: None, unit: None, sku: None, sub_account: None, tags: Tags { items: [] } } }, Row { \
        fields: RowFields { billed: Nanos { count: 9 }, effective: Nanos { count: 8 }, category: Usage, \
        is_correction: false, start: 0, end: 3600, discount: None, quantity: None, unit: None, sku: None, \
        sub_account: None, tags: Tags { items: [] } } }, Row { fields: RowFields { billed: Nanos { count: 9 \
        }, effective: Nanos { count: 8 }, category: Usage, is_correction: false, start: 0, end: 3600, \
        discount: None, quantity: None, unit: None, sku: None, sub_account: None, tags: Tags { items: [] } } \
        }]) }",
    ),
];

/// Parts, and the place of the fault in what they make together.
pub(crate) const FAULTS: &[(What, &[&[u8]], Option<usize>)] = &[
    // Numbers and texts that are cut off, and a text that is no UTF-8.
    (What::U32, &[&[1, 2, 3]], Some(0)),
    (What::U64, &[&[1, 2, 3, 4, 5, 6, 7]], Some(0)),
    (What::I64, &[], Some(0)),
    (What::Text, &[&[3, 0, 0, 0, 97, 98]], Some(0)),
    (What::Text, &[&[1, 0, 0, 0, 0xff, 5]], Some(0)),
    // Short texts of 256 bytes and of 257; tags' texts of 1,024 and of 1,025; keys of as many.
    (What::ShortText, &[&[0, 1, 0, 0], &[b'a'; 256]], None),
    (What::ShortText, &[&[1, 1, 0, 0], &[b'a'; 257]], Some(0)),
    (What::TagText, &[&[0, 4, 0, 0], &[b'a'; 1_024]], None),
    (What::TagText, &[&[1, 4, 0, 0], &[b'a'; 1_025]], Some(0)),
    (
        What::Policy,
        &[&[0, 4, 0, 0], &[b'a'; 1_024], &[0; 4]],
        None,
    ),
    (
        What::Policy,
        &[&[1, 4, 0, 0], &[b'a'; 1_025], &[0; 4]],
        Some(0),
    ),
    // Origins of 64 bytes, of 65, of none, and with a slash; the number 0, and one that is cut off.
    (
        What::Entry,
        &[&[64, 0, 0, 0], &[b'x'; 64], &SEQ, &SET_POLICY],
        None,
    ),
    (
        What::Entry,
        &[&[65, 0, 0, 0], &[b'x'; 65], &SEQ, &SET_POLICY],
        Some(0),
    ),
    (What::Entry, &[&[0; 4], &SEQ, &SET_POLICY], Some(0)),
    (
        What::Entry,
        &[&[3, 0, 0, 0, b'a', b'/', b'b'], &SEQ, &SET_POLICY],
        Some(0),
    ),
    (What::Entry, &[&ORIGIN, &[0; 8], &SET_POLICY], Some(5)),
    (What::Entry, &[&ORIGIN, &[1, 0, 0, 0, 0, 0, 0]], Some(5)),
    // No kind, two that are none, and one that the first form hasn't.
    (What::Entry, &[&ORIGIN, &SEQ], Some(13)),
    (
        What::Entry,
        &[&ORIGIN, &SEQ, &[0, 1, 0, 0, 0, b't', 0, 0, 0, 0]],
        Some(13),
    ),
    (
        What::Entry,
        &[&ORIGIN, &SEQ, &[4, 1, 0, 0, 0, b't', 0, 0, 0, 0]],
        Some(13),
    ),
    (
        What::Entry,
        &[&ORIGIN, &SEQ, &[9, 1, 0, 0, 0, b't', 0, 0, 0, 0]],
        Some(13),
    ),
    // The second form has the kinds 4 and 5, and the first one hasn't.
    (What::Entry, &[&ADD], Some(19)),
    (What::EntryOfTwo, &[&ADD], None),
    (What::Entry, &[&WITHDRAWAL], Some(19)),
    (What::EntryOfTwo, &[&WITHDRAWAL], None),
    (
        What::EntryOfTwo,
        &[&ORIGIN, &SEQ, &[0, 1, 0, 0, 0, b't', 0, 0, 0, 0]],
        Some(13),
    ),
    (What::EntryOfTwo, &[&ORIGIN, &SEQ, &[6], &ADDED], Some(13)),
    // The number of a post that is cut off, the number 0, and the greatest one.
    (
        What::EntryOfTwo,
        &[&ORIGIN, &SEQ, &[4, 1, 0, 0, 0, 0, 0, 0]],
        Some(14),
    ),
    (
        What::EntryOfTwo,
        &[&ORIGIN, &SEQ, &[4, 0, 0, 0, 0, 0, 0, 0, 0]],
        None,
    ),
    (What::EntryOfTwo, &[&ORIGIN, &SEQ, &[4], &[255; 8]], None),
    // A purchase whose amount is cut off, and one that is negative.
    (
        What::EntryOfTwo,
        &[&ORIGIN, &SEQ, &[5, 1, 0, 0, 0, b'c'], &SEQ, &[1, 0, 0]],
        Some(27),
    ),
    (
        What::EntryOfTwo,
        &[&ORIGIN, &SEQ, &[5, 1, 0, 0, 0, b'c'], &SEQ, &[255; 8]],
        Some(27),
    ),
    // No post, or one of far too many rows: a fault at the number of rows.
    (
        What::Entry,
        &[&ORIGIN, &SEQ, &[1, 0, 0, 0, 0], &ROW],
        Some(14),
    ),
    (
        What::Entry,
        &[&ORIGIN, &SEQ, &[1, 255, 255, 0, 0], &ROW],
        Some(14),
    ),
    // 4,096 rows of which one is there: a fault where the second would start.
    (
        What::Entry,
        &[&ORIGIN, &SEQ, &[1, 0, 16, 0, 0], &ROW],
        Some(63),
    ),
];
