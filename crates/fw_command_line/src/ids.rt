//! The ids by which what the command line took is asked for.

/// The id of the option that takes all posts of an origin.
pub const ALL: &str = "all";

/// The id of the option that says how many analysts view a warehouse while files are loaded.
pub const ANALYSTS: &str = "analysts";

/// The id of the option that asks as of the first so many entries.
pub const AS_OF: &str = "as-of";

/// The id of the option that says when the hours begin that a range is compared with.
pub const BEFORE: &str = "before";

/// The id of the option that says when these hours end.
pub const BEFORE_TO: &str = "before-to";

/// The id of the option that cuts the range of a report into periods, or names one more key of a comparison.
pub const BY: &str = "by";

/// The id of the argument that is a code.
pub const CODE: &str = "code";

/// The id of the option that names a column whose texts are groups.
pub const COLUMN: &str = "column";

/// The id of the option that names the commitments by which an export is cut.
pub const COMMITMENTS: &str = "commitments";

/// The id of the option that creates the warehouse.
pub const CREATE: &str = "create";

/// The id of the option that names the currency.
pub const CURRENCY: &str = "currency";

/// The id of the option that names the form that exports have.
pub const DIALECT: &str = "dialect";

/// The id of the option that prints the digest of a warehouse.
pub const DIGEST: &str = "digest";

/// The id of the option that names the folder of the warehouse.
pub const DIR: &str = "dir";

/// The id of the option that prints a report without the policy, as a document.
pub const DIRECT: &str = "direct";

/// The id of the option that writes nothing.
pub const DRY_RUN: &str = "dry-run";

/// The id of the option that names the digest that a warehouse should have.
pub const EXPECT: &str = "expect";

/// The id of the argument that names files.
pub const FILES: &str = "files";

/// The id of the option that names the format of an answer.
pub const FORMAT: &str = "format";

/// The id of the option that says when the range begins.
pub const FROM: &str = "from";

/// The id of the option that names the folder of a warehouse that is made, or says how many piles a period of an export is cut into.
pub const INTO: &str = "into";

/// The id of the option that keeps a column as a tag.
pub const KEEP: &str = "keep";

/// The id of the option that takes so many hours, days or months at the end of the rows.
pub const LAST: &str = "last";

/// The id of the option that names the file of maps.
pub const MAP: &str = "map";

/// The id of the option that names the month of a range.
pub const MONTH: &str = "month";

/// The id of the argument that says what is listed.
pub const LISTED: &str = "listed";

/// The id of the option that leaves it to the system when the parts of an export are on the disk.
pub const NO_SYNC: &str = "no-sync";

/// The id of the option that shows one group alone.
pub const ONLY: &str = "only";

/// The id of the option that names who sends the entries, or the first part of such names.
pub const ORIGIN: &str = "origin";

/// The id of the option that names the folder of the parts of an export.
pub const OUT: &str = "out";

/// The id of the option that names the file of a policy.
pub const POLICY: &str = "policy";

/// The id of the option that names the tag that has prices.
pub const PRICE_TAG: &str = "price-tag";

/// The id of the option that prints no progress.
pub const QUIET: &str = "quiet";

/// The id of the option that names an entry by its number among its origin's.
pub const SEQ: &str = "seq";

/// The id of the option that has a refused entry end the program with a status of its own.
pub const STRICT: &str = "strict";

/// The id of the option that names the tag whose amounts are summed.
pub const SUM: &str = "sum";

/// The id of the option that has a command say what it did for programs.
pub const SUMMARY: &str = "summary";

/// The id of the option that names the tag.
pub const TAG: &str = "tag";

/// The id of the option that says when the range ends.
pub const TO: &str = "to";

/// The id of the option that shows the groups that are charged most.
pub const TOP: &str = "top";

/// The id of the option that sums all groups.
pub const TOTAL_ONLY: &str = "total-only";

/// The id of the option that takes the lines on which a key has a value.
pub const WHERE: &str = "where";

/// The id of the option that leaves out the lines on which a key has a value.
pub const WHERE_NOT: &str = "where-not";

/// The id of the option that says how many workers read posts and make a report.
pub const WORKERS: &str = "workers";

/// The id of the option that goes on without asking.
pub const YES: &str = "yes";
