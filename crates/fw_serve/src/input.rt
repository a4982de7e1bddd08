//! The whole script, read before any of its commands is run.
ghost use Rattle.std.specs.Prelude.{◌≡◌, ◌≢◌, ◌<◌, ◌≤◌, length, take, IfOk, IfErr, IfSome, Err};
ghost use Rattle.std.specs.Io.KnownBytes.{Consumes, IsAtEnd};
ghost use Rattle.fw_serve.specs.Served.{most_bytes};

use crate::fault::ServeFault;
use fw_ahead::Posts;
use fw_rows::Currency;
use fw_script::ScriptText;
use std::alloc::Global;
use std::io::Read;
use std::thread::Threads;

/// The most bytes of a script.
const MOST_BYTES: usize = 1 << 30;

/// How many bytes one read asks for.
const READ_BYTES: usize = 64 * 1024;

/// Reads the script to its end, while workers read the posts of what came of it. A read that fails, an interrupted one too, is `Read`; a script of more than
/// 2^30 bytes is `TooLong`. Where it fails, no worker reads any more.
pub(crate) fn read_script<R: Read>(
    rt: &impl Threads,
    alloc: Global,
    reader: &mut R,
    posts: &mut Posts,
    currency: Currency,
) -> Result<ScriptText, ServeFault>
    ensures whole { IfOk result (λ script. IfSome (R.remaining reader.old) (λ bytes.
        script ≡ bytes)) }
    ensures short { IfOk result (λ script. length script ≤ most_bytes) }
    ensures too_long { result ≡ Err ServeFault.TooLong
        → IfSome (R.remaining reader.old) (λ bytes. most_bytes < length bytes) }
    ensures reads { result ≢ Err ServeFault.Write }
{
    let read = read_to_end(rt, alloc, reader, posts, currency);
    if read.is_err() {
        posts.stop(rt);
    }
    read
}

// The same, where workers may still read when it fails.
fn read_to_end<R: Read>(
    rt: &impl Threads,
    alloc: Global,
    reader: &mut R,
    posts: &mut Posts,
    currency: Currency,
) -> Result<ScriptText, ServeFault>
    ensures whole { IfOk result (λ script. IfSome (R.remaining reader.old) (λ bytes.
        script ≡ bytes)) }
    ensures short { IfOk result (λ script. length script ≤ most_bytes) }
    ensures too_long { result ≡ Err ServeFault.TooLong
        → IfSome (R.remaining reader.old) (λ bytes. most_bytes < length bytes) }
    ensures reads { result ≢ Err ServeFault.Write }
{
    let mut script = ScriptText::new(alloc);
    let mut room = MOST_BYTES;
    let mut buffer = [0; READ_BYTES];
    loop {
        let count = read_some(reader, &mut buffer)?;
        if count == 0 {
            posts.read_rest(rt, alloc, &mut script, currency)?;
            return Ok(script);
        }
        if count > room {
            return Err(ServeFault::TooLong);
        }
        room -= count;
        script.add(&buffer[..count])?;
        posts.read_ahead(rt, alloc, &mut script, currency)?;
    }
}

/// Reads a text of at most `limit` bytes to its end; the limit itself is at most 2^30. A read that fails, an interrupted one too, is `Read`, a
/// longer text is `TooLong`, and out of memory it is `NoMemory`.
pub fn read_within<R: Read>(
    alloc: Global,
    reader: &mut R,
    limit: usize,
) -> Result<Vec<u8>, ServeFault>
    requires { limit ≤ most_bytes }
    ensures whole { IfOk result (λ text. IfSome (R.remaining reader.old) (λ bytes.
        text.items ≡ bytes)) }
    ensures short { IfOk result (λ text. length text.items ≤ limit) }
    ensures too_long { result ≡ Err ServeFault.TooLong
        → IfSome (R.remaining reader.old) (λ bytes. limit < length bytes) }
    ensures reads { result ≢ Err ServeFault.Write }
{
    let mut text = Vec::new(alloc);
    let mut buffer = [0; READ_BYTES];
    loop {
        let count = read_some(reader, &mut buffer)?;
        if count == 0 {
            return Ok(text);
        }
        text.extend_from_slice(&buffer[..count])?;
        if text.len() > limit {
            return Err(ServeFault::TooLong);
        }
    }
}

// One read into the buffer, which isn't empty: how many bytes it gave, which stand first there. It gives none only at the end of the input.
fn read_some<R: Read>(reader: &mut R, buffer: &mut [u8]) -> Result<usize, ServeFault>
    requires { 0 < length buffer.old }
    ensures fits { IfOk result (λ count. count ≤ length buffer.new) }
    ensures read { IfOk result (λ count. Consumes (R.remaining reader.old) (R.remaining reader.new)
        (take count buffer.new) × (count ≡ 0 → IsAtEnd (R.remaining reader.new))) }
    ensures faults { IfErr result (λ why. why ≡ ServeFault.Read) }
{
    match reader.read(buffer) {
        Ok(count) => Ok(count),
        Err(_) => Err(ServeFault::Read),
    }
}
