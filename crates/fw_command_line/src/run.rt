//! `focusd run`: a script is read from standard input and answered.
use crate::options::{
    command_with, create_option, currency_option, dir_option, strict_option, workers_option,
};
use clap::Command;
use std::alloc::{AllocError, Global};

const SCRIPT: &str = "Commands of a script, one a line, which a line feed alone ends:
  post ORIGIN SEQUENCE LINES     accept the charge rows of the CSV on the next LINES lines
  commit ORIGIN SEQUENCE LINES   accept the commitment whose TOML stands on the next LINES lines
  add ORIGIN SEQUENCE LINES      add the purchase whose TOML stands on the next LINES lines to its commitment
  withdraw ORIGIN SEQUENCE POST  count no more the rows that ORIGIN posted under the number POST
  policy ORIGIN SEQUENCE LINES   share costs by the policy whose TOML stands on the next LINES lines
  report KEY FROM TO             sum the costs of the hours from FROM up to, not including, TO, by the tag KEY
  lines FROM TO                  list what these hours cost, line by line: purchases, rows, used and unused parts
  state                          count the entries, rows and commitments, and whether a policy holds (1) or not (0)
  checkpoint                     write the whole warehouse anew, so that the next run opens it without reading a long log

ORIGIN names the sender: 1 to 64 ASCII letters, digits, `-`, `_` and `.`. SEQUENCE numbers this origin's entries: 1, 2, 3 ..
So an entry that is sent again is not billed twice, and a skipped number is reported.
LINES is at most 1,000,000 and counts line feeds, also those within quotes; a post has at most 4,096 rows.
FROM and TO are instants on whole hours, as 2024-01-01T00:00Z, at most 26,304 hours apart.
KEY is a tag's key; rows without the tag are in the group of the empty text.

An entry is answered `accepted N`, where N counts the accepted entries of all origins; `already L`, where its number was
accepted before and L is the origin's last; `gap E`, where the origin's next number would be E; or `refused CODE NAME`
and the column, record or field. Only an accepted entry uses its number up.
A checkpoint is answered `checkpointed`. It costs as much as writing the whole warehouse: make one whenever as many rows
came since the last one as there were before it.
A report and lines are answered `bytes N` and a CSV of N bytes, or `refused` and why.
A command that runs out of memory is answered `no memory`, and changes nothing.
An entry or a checkpoint that the folder refuses is answered `store CODE NAME`. After `store S3 Device`, where a read, a write
or a sync failed, each further one is answered `store S4 Failed`: run the program again, and send what wasn't accepted.
Other lines are answered `bad command`; an entry with too few lines after it `bad end`.

With --dir the warehouse is kept in two files of the folder, `left` and `right`. An entry is answered `accepted` only when it is
on the disk, by the word of the system. Only one program at a time can have the folder open.

With --strict a script that lost an entry ends with status 3, and a line on standard error says how many answers are `refused`,
`gap`, `bad command`, `bad end`, `store` or `no memory`. What is printed stays the same.

Exit status: 0 where the script was served, 1 where the folder, reading, writing or memory failed (with one line `focusd: CODE
NAME` on standard error), 2 where the command line is wrong, 3 with --strict where there is such an answer.

Example: what a script has is kept in a folder, and the answers in a file
  focusd run --dir costs --create < october.script > october.answers";

/// The command's part of the command line.
pub(crate) fn command<'a>(alloc: Global) -> Result<Command<'a>, AllocError> {
    let parameters = [
        currency_option(),
        dir_option().saying(
            "The folder of the warehouse, which has to be there; without it the warehouse is in memory",
        ),
        create_option("Creates the warehouse in the folder; without --dir it changes nothing"),
        workers_option(
            "How many workers read posts ahead and share the rows of a report: 1 to 64; each answer stays the same",
        ),
        strict_option(),
    ];
    command_with(
        alloc,
        "run",
        "Reads a script from standard input and prints the answers",
        SCRIPT,
        &parameters,
    )
}
