//! A file's text as the entry that is posted.
ghost use Rattle.std.specs.Prelude.{◌≡◌, IfOk, IfErr};
ghost use Rattle.fw_load.specs.Files.{origin_of, IsFileOf, IsNoFile};
ghost use Rattle.fw_serve.specs.ReplyText.{reply_text};

use fw_charge::Currency;
use fw_column_rows::read_columns;
use fw_entry::{Command, Entry};
use fw_serve::{Reply, entry_reply, row_reply};
use std::alloc::{AllocError, Global};

/// The rows of a text as the first entry of the file's origin, or the reply that says why there is none.
pub(crate) fn entry_of(
    alloc: Global,
    currency: Currency,
    name: &str,
    number: u64,
    text: &[u8],
) -> Result<Entry, Reply>
    ensures file { IfOk result (IsFileOf currency name.now number text.now) }
    ensures none { IfErr result (λ reply. IsNoFile currency name.now number text.now
        (reply_text reply)) }
{
    let rows = match read_columns(alloc, text, currency) {
        Ok(rows) => rows,
        Err(fault) => return Err(row_reply(fault)),
    };
    let Ok(origin) = origin_of_file(alloc, name, number) else {
        return Err(Reply::NoMemory);
    };
    match Entry::new(alloc, origin.as_slice(), 1, Command::Post(rows)) {
        Ok(entry) => Ok(entry),
        Err(fault) => Err(entry_reply(fault)),
    }
}

// The origin of a file: the name, a point, and the file's number.
fn origin_of_file(alloc: Global, name: &str, number: u64) -> Result<Vec<u8>, AllocError>
    ensures { IfOk result (λ origin. origin.items ≡ origin_of name.now number) }
{
    let mut digits = itoa::Buffer::new();
    let mut origin = Vec::new(alloc);
    origin.extend_from_slice(name.as_bytes())?;
    origin.push(b'.')?;
    origin.extend_from_slice(digits.format(number).as_bytes())?;
    Ok(origin)
}
