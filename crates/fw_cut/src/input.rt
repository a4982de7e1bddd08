//! Reading on until there is enough to cut.
ghost use Rattle.std.specs.Prelude.{◌≡◌, ◌⊎◌, ◌++◌, ◌<◌, ◌≤◌, ◌^◌, ℕ, List, false, true, length, IfOk, OnOk};
ghost use Rattle.std.specs.Io.KnownBytes.{Consumes, IsAtEnd};

use crate::fault::CutFault;
use std::io::Read;

/// How many bytes are read together.
pub(crate) const PIECE: usize = 64 * 1024;

/// Reads on until there are at least `enough` bytes, or the end of the reader is reached, and says whether it is. It reads whole pieces, in however few
/// bytes the reader gives them: what is there then doesn't depend on how a pipe was filled.
pub(crate) fn fill<R: Read>(
    reader: &mut R,
    text: &mut Vec<u8>,
    enough: usize,
) -> Result<bool, CutFault>
    requires { enough ≤ 2 ^ 30 }
    ensures { IfOk result (λ at_end. (more : List ℕ) × (text.new.items ≡ text.old.items ++ more)
        × Consumes (R.remaining reader.old) (R.remaining reader.new) more
        × ((enough ≤ length text.new.items) ⊎ (at_end ≡ true))
        × (at_end ≡ true → IsAtEnd (R.remaining reader.new))) }
{
    while text.len() < enough {
        if read_piece(reader, text)? {
            return Ok(true);
        }
    }
    Ok(false)
}

// Reads a whole piece, or to the end of the reader, and says whether that is reached.
fn read_piece<R: Read>(reader: &mut R, text: &mut Vec<u8>) -> Result<bool, CutFault>
    requires { length text.old.items ≤ 2 ^ 30 }
    ensures { IfOk result (λ at_end. (more : List ℕ) × (text.new.items ≡ text.old.items ++ more)
        × Consumes (R.remaining reader.old) (R.remaining reader.new) more
        × (at_end ≡ false → 0 < length more)
        × (at_end ≡ true → IsAtEnd (R.remaining reader.new))) }
{
    let mut room = PIECE;
    while room > 0 {
        let count = read_some(reader, text, room)?;
        if count == 0 {
            return Ok(true);
        }
        room -= count;
    }
    Ok(false)
}

// One read of at most so many bytes, which go to the end of the text. It gives none only at the end of the reader.
fn read_some<R: Read>(reader: &mut R, text: &mut Vec<u8>, room: usize) -> Result<usize, CutFault>
    requires some { 0 < room }
    requires few { room ≤ 65536 }
    requires short { length text.old.items ≤ 2 ^ 31 }
    ensures { IfOk result (λ count. (piece : List ℕ) × (text.new.items ≡ text.old.items ++ piece)
        × (length piece ≡ count) × Consumes (R.remaining reader.old) (R.remaining reader.new) piece
        × (count ≤ room) × (count ≡ 0 → IsAtEnd (R.remaining reader.new))) }
{
    let filled = text.len();
    text.resize(filled + room, 0)?;
    match reader.read(&mut text[filled..]) {
        Ok(count) => {
            text.truncate(filled + count);
            Ok(count)
        }
        Err(error) => Err(CutFault::Read(error)),
    }
}
