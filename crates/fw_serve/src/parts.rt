//! Bytes that go to a writer whole, or up to the place where it fails.
ghost use Rattle.std.specs.Prelude.{◌≡◌, OnOk, IfErr, map};
ghost use Rattle.std.specs.List.{concat};
ghost use Rattle.std.specs.Io.KnownBytes.{Appends};
ghost use Rattle.fw_serve.specs.Writing.{WritesPart};

use crate::fault::ServeFault;
use std::io::Write;

/// Writes the parts one after another.
pub(crate) fn write_parts<W: Write>(writer: &mut W, parts: &[&[u8]]) -> Result<(), ServeFault>
    ensures whole { OnOk result (Appends (W.contents writer.old) (W.contents writer.new)
        (concat (map (λ part. part.now) parts.now))) }
    ensures part { IfErr result (λ why. (why ≡ ServeFault.Write)
        × WritesPart (W.contents writer.old) (W.contents writer.new)
        (concat (map (λ part. part.now) parts.now))) }
{
    for part in parts {
        write_part(writer, part)?;
    }
    Ok(())
}

// Writes one part. A writer that takes no byte has failed, as has one that is interrupted.
fn write_part<W: Write>(writer: &mut W, part: &[u8]) -> Result<(), ServeFault>
    ensures whole { OnOk result (Appends (W.contents writer.old) (W.contents writer.new) part.now) }
    ensures part { IfErr result (λ why. (why ≡ ServeFault.Write)
        × WritesPart (W.contents writer.old) (W.contents writer.new) part.now) }
{
    let mut rest = part;
    while !rest.is_empty() {
        match writer.write(rest) {
            Ok(0) => return Err(ServeFault::Write),
            Ok(count) => rest = &rest[count..],
            Err(_) => return Err(ServeFault::Write),
        }
    }
    Ok(())
}
