//! Each code that the program prints, by its letter and number, in the order of the formats' tables, and last the one fault without a number.
//!
//! They stand in several tables, each behind a function. The proof of a function that names a table contains all the table's words,
//! and with one table of all codes it is over the prover's step limit.
use crate::explanation::Explanation;

/// The codes of what is wrong with a CSV.
pub(crate) fn export_codes() -> &'static [Explanation] {
    EXPORT_CODES
}

/// The codes of what is wrong with a commitment, a purchase that is added to one, a policy, or maps of values.
pub(crate) fn document_codes() -> &'static [Explanation] {
    DOCUMENT_CODES
}

/// The codes of what is wrong with an entry or a question.
pub(crate) fn entry_codes() -> &'static [Explanation] {
    ENTRY_CODES
}

/// The codes of what is wrong with the files that a command reads and writes, or with what an origin sends again.
pub(crate) fn file_codes() -> &'static [Explanation] {
    FILE_CODES
}

/// The codes of what is wrong with reports of shards, and with the parts of exports.
pub(crate) fn shard_codes() -> &'static [Explanation] {
    SHARD_CODES
}

/// The codes of what is wrong with a warehouse's folder and files, or with what is written of them, and last the one fault without a number.
pub(crate) fn store_codes() -> &'static [Explanation] {
    STORE_CODES
}

const EXPORT_CODES: &[Explanation] = &[
    Explanation {
        code: "H1",
        name: "MissingColumn",
        expected: "a column of this name",
        meaning: "the header of the CSV lacks a column that it must have; the answer names the first one",
        remedy: "Add the column: BilledCost, EffectiveCost, BillingCurrency, ChargeCategory, ChargePeriodStart and ChargePeriodEnd must all be there, with these exact names.",
    },
    Explanation {
        code: "H2",
        name: "DoubleColumn",
        expected: "one column of this name",
        meaning: "the header of the CSV has a column that is read more than once; the answer names the first one",
        remedy: "Drop all of them but one.",
    },
    Explanation {
        code: "H3",
        name: "LongHeader",
        expected: "a header of at most 2 MiB",
        meaning: "the header of the CSV is longer than 2 MiB",
        remedy: "Look for a quote in the header that is not closed, and whether the file is a CSV at all.",
    },
    Explanation {
        code: "V1",
        name: "Fields",
        expected: "as many fields as the header",
        meaning: "a record has more or fewer fields than the header; the answer has the record's number, and 1 is the first behind the header",
        remedy: "Look for a comma that is not inside quotes, or for a line feed inside a field without quotes.",
    },
    Explanation {
        code: "V2",
        name: "NotUtf8",
        expected: "UTF-8 text",
        meaning: "a field of one of the fifteen columns that are read is not UTF-8",
        remedy: "Convert the export, e.g. with iconv -f latin1 -t utf-8.",
    },
    Explanation {
        code: "V3",
        name: "Category",
        expected: "Usage, Purchase, Tax, Credit or Adjustment",
        meaning: "ChargeCategory is none of the words Usage, Purchase, Tax, Credit and Adjustment",
        remedy: "Map the provider's own word to one of these five; case matters.",
    },
    Explanation {
        code: "V4",
        name: "Class",
        expected: "nothing or Correction",
        meaning: "ChargeClass is neither empty nor Correction",
        remedy: "Leave it empty, unless the row corrects one of an earlier bill.",
    },
    Explanation {
        code: "V5",
        name: "Cost",
        expected: "a number: digits with at most one point, as 1000.00, at most 100,000,000",
        meaning: "BilledCost or EffectiveCost is no amount: it is empty, no number, longer than 40 bytes, of an exponent above 40, or more than 100,000,000 units either way",
        remedy: "Write digits with at most one point, as 1000.00: no thousands separators, no currency signs, and no empty field.",
    },
    Explanation {
        code: "V6",
        name: "Currency",
        expected: "the currency of the warehouse",
        meaning: "BillingCurrency is not the currency of the warehouse",
        remedy: "A warehouse has one currency, given when it was created (--currency). Keep another warehouse for rows in another one.",
    },
    Explanation {
        code: "V7",
        name: "Time",
        expected: "a time on a whole second from 1970 to 9999-12-30T22:00:00Z, as 2024-01-01T00:00:00Z",
        meaning: "ChargePeriodStart or ChargePeriodEnd is no instant, has a fraction of a second that is not zero, or lies before 1970",
        remedy: "Write it as 2024-01-31T14:00:00Z. A time without Z or an offset is refused.",
    },
    Explanation {
        code: "V8",
        name: "PeriodOrder",
        expected: "a time that is not before ChargePeriodStart",
        meaning: "ChargePeriodEnd is before ChargePeriodStart; they may be equal",
        remedy: "Exchange the two, or correct the later one.",
    },
    Explanation {
        code: "V9",
        name: "Commitment",
        expected: "Usage or Spend, exactly where CommitmentDiscountId is set",
        meaning: "CommitmentDiscountId and CommitmentDiscountCategory are not both there or both empty, or the category is neither Usage nor Spend",
        remedy: "Fill in both, or leave both empty.",
    },
    Explanation {
        code: "V10",
        name: "Status",
        expected: "Used or Unused where CommitmentDiscountId is set; it may be empty where the charge isn't Usage",
        meaning: "CommitmentDiscountStatus does not go with the id: there without one, neither Used nor Unused, or missing beside the id of a Usage charge",
        remedy: "Leave it empty where CommitmentDiscountId is empty; else write Used or Unused.",
    },
    Explanation {
        code: "V11",
        name: "Quantity",
        expected: "nothing or a number, as 0.5",
        meaning: "ConsumedQuantity is neither empty nor a number",
        remedy: "Write digits with at most one point, or leave it empty.",
    },
    Explanation {
        code: "V12",
        name: "BadTags",
        expected: "nothing or a JSON object of texts, true, false and null",
        meaning: "Tags is neither empty nor a JSON object of texts, true, false and null",
        remedy: "In a CSV the object stands in quotes with each of its own quotes doubled: \"{\"\"team\"\":\"\"web\"\"}\".",
    },
    Explanation {
        code: "V13",
        name: "TooLong",
        expected: "at most 256 bytes; at most 256 tags with keys and values of at most 1,024 bytes",
        meaning: "a text has more than 256 bytes, there are more than 256 tags, or a tag's key or value has more than 1,024 bytes",
        remedy: "Shorten it, or leave the tag out.",
    },
    Explanation {
        code: "V14",
        name: "NoRows",
        expected: "a record behind the header",
        meaning: "no record follows the header",
        remedy: "Post nothing for an empty export.",
    },
    Explanation {
        code: "V15",
        name: "TooManyRows",
        expected: "at most 4,096 records",
        meaning: "the post has more than 4,096 records",
        remedy: "Cut the export between its records, and repeat the header in each part; focusd import does so.",
    },
    Explanation {
        code: "V16",
        name: "LongRecord",
        expected: "a record of at most 4 MiB",
        meaning: "a record is longer than 4 MiB",
        remedy: "Look for a quote that is not closed, in this record or before it.",
    },
    Explanation {
        code: "V17",
        name: "TagTwice",
        expected: "tags without the key of a kept column",
        meaning: "Tags has the tag already that a kept column is to be",
        remedy: "Name another tag for the column: --keep COLUMN=TAG.",
    },
];

const DOCUMENT_CODES: &[Explanation] = &[
    Explanation {
        code: "C1",
        name: "Syntax",
        expected: "TOML in UTF-8",
        meaning: "the commitment, or the purchase that is added to one, is no TOML in UTF-8",
        remedy: "Texts stand in quotes, and in a commitment each purchase begins with a line [[purchase]].",
    },
    Explanation {
        code: "C2",
        name: "Field",
        expected: "",
        meaning: "a field of the commitment, or of the purchase that is added to one, is missing, of another kind, or can't be read; the answer names it. `unknown` is a field that a commitment, or such a purchase, hasn't",
        remedy: "Compare with the table of commitments in docs/FORMATS.md.",
    },
    Explanation {
        code: "C3",
        name: "Limit",
        expected: "",
        meaning: "a field of the commitment, or of the purchase that is added to one, is past its limits; the answer names it",
        remedy: "Compare with the table of commitments in docs/FORMATS.md.",
    },
    Explanation {
        code: "P1",
        name: "Syntax",
        expected: "TOML in UTF-8",
        meaning: "the policy is no TOML in UTF-8",
        remedy: "Texts stand in quotes, and each rule begins with a line [[rule]].",
    },
    Explanation {
        code: "P2",
        name: "Field",
        expected: "",
        meaning: "a field of the policy is missing, of another kind, or can't be read; the answer names it. A rule has either `to` or `proportional`",
        remedy: "Compare with the table of policies in docs/FORMATS.md.",
    },
    Explanation {
        code: "P3",
        name: "Limit",
        expected: "",
        meaning: "a field of the policy is past its limits; the answer names it",
        remedy: "Compare with the table of policies in docs/FORMATS.md.",
    },
    Explanation {
        code: "P4",
        name: "DoubleFrom",
        expected: "",
        meaning: "two rules give the cost of one group away",
        remedy: "Join them into one rule with all its targets.",
    },
    Explanation {
        code: "P5",
        name: "TargetIsFrom",
        expected: "",
        meaning: "a rule gives to a group that a rule gives away",
        remedy: "Give to the groups that are charged in the end: costs move once.",
    },
    Explanation {
        code: "A1",
        name: "NoToml",
        expected: "TOML in UTF-8",
        meaning: "the file that is to be added is no TOML in UTF-8",
        remedy: "Texts stand in quotes, and each purchase or rule begins with a line [[purchase]] or [[rule]].",
    },
    Explanation {
        code: "A2",
        name: "NoKind",
        expected: "",
        meaning: "the file that is to be added is neither a commitment, which has id, category, start, hours, capacity and purchase, nor a policy, which has key and rule, nor a purchase for a commitment that is there, which has id, at and billed",
        remedy: "Look whether it is the right file, and whether its names are spelled right.",
    },
    Explanation {
        code: "A3",
        name: "TwoKinds",
        expected: "",
        meaning: "the file that is to be added has fields of a policy, and of a commitment or a purchase",
        remedy: "Put each into a file of its own.",
    },
    Explanation {
        code: "A4",
        name: "OtherKey",
        expected: "",
        meaning: "the policy that is to be added takes the place of one by another key, and --yes was not given",
        remedy: "Give --yes, where it is meant that costs by the old key are not shared any more.",
    },
    Explanation {
        code: "N1",
        name: "MapSyntax",
        expected: "",
        meaning: "a file of maps is not UTF-8, or no TOML",
        remedy: "Write [[map]], key = \"environment\" and values = { prod = \"production\" }, each on a line of its own; focusd report --help has an example.",
    },
    Explanation {
        code: "N2",
        name: "MapField",
        expected: "",
        meaning: "a field of a file of maps is missing, unknown or wrong",
        remedy: "Correct the field that the line names; docs/FORMATS.md has all fields of a map.",
    },
];

const ENTRY_CODES: &[Explanation] = &[
    Explanation {
        code: "E1",
        name: "Origin",
        expected: "",
        meaning: "the entry's origin is not made of 1 to 64 ASCII letters, digits, `-`, `_` and `.`",
        remedy: "Rename the sender, e.g. billing-eu.",
    },
    Explanation {
        code: "E2",
        name: "Seq",
        expected: "",
        meaning: "the entry's number is no whole number from 1 to 2^64 - 1",
        remedy: "Number each sender's entries 1, 2, 3 ..",
    },
    Explanation {
        code: "E3",
        name: "TooLarge",
        expected: "",
        meaning: "the entry has more than 4,194,304 bytes in the form in which it is kept",
        remedy: "Cut the post into smaller ones.",
    },
    Explanation {
        code: "J1",
        name: "Full",
        expected: "",
        meaning: "with this post more than 4,194,304 rows would have been posted to the warehouse, those of withdrawn posts among them",
        remedy: "Begin another warehouse, e.g. one for each quarter. Where posts were withdrawn, focusd compact makes one without their rows.",
    },
    Explanation {
        code: "J2",
        name: "DoubleId",
        expected: "",
        meaning: "a commitment of this id was accepted before",
        remedy: "Give each commitment an id of its own.",
    },
    Explanation {
        code: "J3",
        name: "IdInUse",
        expected: "",
        meaning: "a row that counts carries the commitment's id as its CommitmentDiscountId",
        remedy: "The provider has amortised that commitment already in its rows: don't add it.",
    },
    Explanation {
        code: "J4",
        name: "OwnCommitment",
        expected: "an id that no commitment of the warehouse has",
        meaning: "a row of the post carries the id of a commitment that was accepted before as its CommitmentDiscountId",
        remedy: "Post the rows as they were before the provider amortised them, without that CommitmentDiscountId.",
    },
    Explanation {
        code: "J5",
        name: "TooManyCommitments",
        expected: "",
        meaning: "256 commitments were accepted before, and the warehouse takes no more",
        remedy: "Begin another warehouse.",
    },
    Explanation {
        code: "J6",
        name: "NoSuchPost",
        expected: "",
        meaning: "the origin has had no post of this number accepted, so there is none to withdraw",
        remedy: "Give the number of a post of the same origin: an origin withdraws its own posts alone, and neither commitments nor policies.",
    },
    Explanation {
        code: "J7",
        name: "Withdrawn",
        expected: "",
        meaning: "the post is withdrawn already",
        remedy: "Nothing is to be done: its rows count no more. To bring them back, post them again under the origin's next number.",
    },
    Explanation {
        code: "J8",
        name: "NoSuchCommitment",
        expected: "",
        meaning: "the warehouse has no commitment of the id that the purchase is added to",
        remedy: "Correct the id, which must be that of a commitment that was accepted, or send that commitment first. Then send the purchase again.",
    },
    Explanation {
        code: "J9",
        name: "PurchaseLimit",
        expected: "",
        meaning: "with this purchase the commitment would have more than 64 purchases, or they would come to more than 100,000,000 units",
        remedy: "Look for a wrong amount, and for a purchase that was added twice. Purchases that are still to be sent can be joined into one: only their sum counts.",
    },
    Explanation {
        code: "Q1",
        name: "Range",
        expected: "",
        meaning: "the range has no hour, or more than 26,304 (three years)",
        remedy: "The end comes after the start and is not in the range: --from 2024-01 --to 2024-02 is January.",
    },
    Explanation {
        code: "Q2",
        name: "TotalTooLarge",
        expected: "",
        meaning: "the direct costs of the groups, taken as positive and summed up, come to more than 10,000,000,000 units",
        remedy: "Ask for a shorter range, and look for a row with a wrong cost.",
    },
];

const FILE_CODES: &[Explanation] = &[
    Explanation {
        code: "F1",
        name: "Read",
        expected: "",
        meaning: "standard input, or a file that was given, could not be read; focusd run ran no command, focusd load loaded nothing, and focusd import keeps the posts before it",
        remedy: "Look at what feeds the pipe, or at the file that the message names: whether it is there, is a file and may be read. Then run the command again.",
    },
    Explanation {
        code: "F2",
        name: "Write",
        expected: "",
        meaning: "standard output could not be written; what was accepted stays accepted",
        remedy: "Look for a full disk. Send the entries again whose answers didn't come out: none counts twice.",
    },
    Explanation {
        code: "F3",
        name: "TooLong",
        expected: "",
        meaning: "the script, or a file that was given to focusd load, has more than 2^30 bytes, or a file of TOML more than 2^25; nothing was run, loaded or added",
        remedy: "Cut a script into several, and run them one after the other. Give a long CSV to focusd import, which takes files of any length.",
    },
    Explanation {
        code: "G1",
        name: "Counts",
        expected: "",
        meaning: "focusd load was given more than 64 files; nothing was loaded",
        remedy: "Load at most 64 files at a time, each time under another --origin; or give all of them to focusd import, which takes any number.",
    },
    Explanation {
        code: "G2",
        name: "Readers",
        expected: "",
        meaning: "the warehouse could not be shared with the analysts of focusd load; nothing was loaded",
        remedy: "Ask for fewer by --analysts, and run the command again.",
    },
    Explanation {
        code: "G3",
        name: "Unpublished",
        expected: "",
        meaning: "files were stored by focusd load, and could not be shown to its analysts; they are there when the folder is opened again",
        remedy: "Run the command again with the same files: none counts twice.",
    },
    Explanation {
        code: "R1",
        name: "Differs",
        expected: "",
        meaning: "an entry of this origin and number is in the warehouse already and has other rows than the file; nothing more was imported",
        remedy: "The file has changed or grown since, or the files are in another order, or another export was imported under this origin. Give each export an --origin of its own; focusd replace puts an export in the place of one that was imported before.",
    },
    Explanation {
        code: "R2",
        name: "Withdrawn",
        expected: "",
        meaning: "the post of this number was withdrawn, so its rows count no more, and the file has them; nothing more was imported",
        remedy: "Run focusd replace with this origin: it has the file's rows count, in the place of what the origin sent before.",
    },
    Explanation {
        code: "R3",
        name: "Gap",
        expected: "",
        meaning: "an entry of the origin before this one is missing; nothing more was imported",
        remedy: "List all files of the origin, from the first one on, and run the command again.",
    },
    Explanation {
        code: "R4",
        name: "Across",
        expected: "",
        meaning: "a post has rows in the range of --from and --to, and rows outside of it; nothing was done",
        remedy: "Choose a range that has all hours of the post, or none.",
    },
    Explanation {
        code: "R5",
        name: "Outside",
        expected: "",
        meaning: "the files have rows outside of the range of --from and --to; nothing was done",
        remedy: "Choose a range that has all hours of the files.",
    },
    Explanation {
        code: "R6",
        name: "Unfinished",
        expected: "",
        meaning: "the replacement of another origin's rows is not finished; nothing was done",
        remedy: "Run that replacement again first, with the same files: it goes on where it stopped.",
    },
];

const SHARD_CODES: &[Explanation] = &[
    Explanation {
        code: "W1",
        name: "NoDirectReport",
        expected: "",
        meaning: "a text that `focusd report --direct` printed is expected, and this is none",
        remedy: "Print the report again by `focusd report --direct`, and give its output as it is.",
    },
    Explanation {
        code: "W2",
        name: "OtherTag",
        expected: "",
        meaning: "the reports are of different tags, or of another one than --tag names",
        remedy: "Print all reports with the same --tag, and charge each tag by itself.",
    },
    Explanation {
        code: "W3",
        name: "OtherCurrency",
        expected: "",
        meaning: "the reports are in different currencies",
        remedy: "Charge the warehouses of each currency by themselves.",
    },
    Explanation {
        code: "W4",
        name: "OtherPeriod",
        expected: "",
        meaning: "a report has hours of several of the periods that --by asks for, in one sum",
        remedy: "Print the reports with the same --by as the charge, or a shorter one, or charge without --by.",
    },
    Explanation {
        code: "W5",
        name: "OutsideRange",
        expected: "",
        meaning: "a report has hours that are not in the range of --from and --to",
        remedy: "Print the report for hours in the range, or make the range of the charge wider; without --from and --to it has the hours of all reports.",
    },
    Explanation {
        code: "W6",
        name: "OutOfRange",
        expected: "",
        meaning: "the absolute costs of all reports come to more than 10^37 nanos",
        remedy: "Look for a report that is no report of a warehouse: the costs of the rows of a warehouse come to far less.",
    },
    Explanation {
        code: "W7",
        name: "Exists",
        expected: "",
        meaning: "a part of an export would take the place of a file",
        remedy: "Name an empty folder by --out, or move the file.",
    },
    Explanation {
        code: "W8",
        name: "OtherHeader",
        expected: "",
        meaning: "the files that are cut have different headers",
        remedy: "Cut them by themselves, each into a folder of its own.",
    },
    Explanation {
        code: "W9",
        name: "OtherKind",
        expected: "",
        meaning: "the document is of another kind than the option takes",
        remedy: "Give the TOML of a policy to --policy, and that of a commitment to --commitments.",
    },
    Explanation {
        code: "W10",
        name: "NotWritten",
        expected: "",
        meaning: "a part of an export could not be written",
        remedy: "Look for a full disk, or a folder that can't be written to, and run the command again.",
    },
];

const STORE_CODES: &[Explanation] = &[
    Explanation {
        code: "K1",
        name: "Io",
        expected: "",
        meaning: "the folder, or a file in it, can't be opened, or another program has it open; nothing was changed",
        remedy: "Look whether the folder is there, whether you may read and write it, and whether another focusd runs on it.",
    },
    Explanation {
        code: "S1",
        name: "NoHouse",
        expected: "",
        meaning: "the folder holds no warehouse",
        remedy: "Give the right folder, or make one by --create of focusd run, import or load.",
    },
    Explanation {
        code: "S2",
        name: "Corrupt",
        expected: "",
        meaning: "the files of the warehouse are damaged, at the file and offset that focusd verify prints",
        remedy: "Restore the folder from a back-up. Leave the damaged files as they are: nothing in them was changed.",
    },
    Explanation {
        code: "S3",
        name: "Device",
        expected: "",
        meaning: "a read, a write or a sync of the warehouse's files failed",
        remedy: "Look for a full or failing disk. Then run again and send what wasn't accepted: none counts twice.",
    },
    Explanation {
        code: "S4",
        name: "Failed",
        expected: "",
        meaning: "the device failed in an earlier command of this run: no further entry is taken, and no checkpoint made, until the warehouse is opened again",
        remedy: "Run again, and send what wasn't accepted.",
    },
    Explanation {
        code: "S5",
        name: "Generations",
        expected: "",
        meaning: "the warehouse has had 2^64 - 1 checkpoints, and can have no further one; nothing was changed",
        remedy: "Nothing is lost: it works on without checkpoints.",
    },
    Explanation {
        code: "S6",
        name: "TooLarge",
        expected: "",
        meaning: "the files have no room for this entry, this checkpoint or a new warehouse; nothing was changed",
        remedy: "Begin another warehouse.",
    },
    Explanation {
        code: "S7",
        name: "Exists",
        expected: "",
        meaning: "a warehouse was to be made in a folder that holds one already",
        remedy: "Leave --create out to go on with it, or give another folder.",
    },
    Explanation {
        code: "S8",
        name: "OldSide",
        expected: "",
        meaning: "the warehouse is in an older form, which can hold neither a withdrawal nor a purchase that is added to a commitment; nothing was changed",
        remedy: "Write it in the present form by focusd checkpoint, or by the line checkpoint in a script. Then send the entry again.",
    },
    Explanation {
        code: "D1",
        name: "TooManyLines",
        expected: "",
        meaning: "the entry can't be dumped: its CSV would have more than 1,000,000 lines, the most of an entry in a script; its texts are full of line feeds, and it came by focusd import",
        remedy: "Keep the export that it was imported from. The script that was printed ends before this entry; to go on without it, import its rows in smaller parts into another warehouse.",
    },
    Explanation {
        code: "D2",
        name: "Differs",
        expected: "",
        meaning: "the entry can't be dumped: what a script can say of it reads as another entry; it has a value that no text reads as, as a time after 9999-12-30T22:00:00Z, or focusd has a defect",
        remedy: "The script that was printed ends before this entry. Files that no other program has written have no such value: then report the defect, with the entry's origin and number.",
    },
    Explanation {
        code: "NoMemory",
        name: "",
        expected: "",
        meaning: "the system gave focusd no more memory; what was accepted stays accepted, and nothing else was changed",
        remedy: "Close other programs, or raise the limit of memory that focusd runs under. Then run the command again and send what wasn't accepted: none counts twice.",
    },
];
