//! The headers of the two sides, and which side is in use.
ghost use Rattle.std.specs.Option.{ForSome};
ghost use Rattle.std.specs.Prelude.{◌≡◌, ◌⊎◌, ◌+◌, ◌<◌, ◌≤◌, ℕ, List, length, take, drop, IfSome, IfNone, IfOk, IfErr, IsErrOf, IsTrue};
ghost use Rattle.std.specs.Int.{from_le_bytes};
ghost use Rattle.std.specs.Int.Width.{w64};
ghost use Rattle.fw_bytes.specs.Spelling.{number64};
ghost use Rattle.fw_disk.specs.declared.volume.Side.{Side};
ghost use Rattle.fw_disk.specs.Volume.{Rose};
ghost use Rattle.fw_entry_bytes.specs.declared.form.Form.{Form};
ghost use Rattle.fw_recover.specs.declared.fault.StoreFault.TheVariants.{NoHouse, Corrupt, Device};
ghost use Rattle.fw_recover.specs.Sides.{magic, IsOpen};
ghost use Rattle.fw_recover.specs.Stands.{IsNewest, StandsForNone};
ghost use Rattle.fw_recover.specs.Corrupt.{LacksAt, CorruptAt};
ghost use Rattle.fw_recover.specs.Headers.{HasHeader, IsHeader, BeginsWith};
ghost use Rattle.fw_recover.specs.Opening.{OnlyReads, IsOpenFault};

use crate::StoreFault;
use fw_disk::{Side, Volume};
use fw_entry_bytes::Form;

/// What the header of an open side says.
#[derive(Clone, Copy, Debug)]
pub struct Header {
    /// The form of all that follows the magic word: of the body and of the log.
    pub form: Form,
    /// Its generation, from 1 on: a side that is made anew has a greater one than the side in use.
    pub generation: u64,
    /// The length of the body, in bytes. The first gate of the log is 25 bytes further on in the file.
    pub body_len: u64,
}

/// The side in use and its header: of the open sides the one of greater generation. It reads the two headers and nothing
/// else.
///
/// `Device` where a read failed; `Corrupt` where an open side has no sound header, Left first, or both sides have one
/// generation; `NoHouse` where no side is open. Whatever is answered, no byte changes, and a crash leaves nothing that it
/// could not leave before.
pub fn side_in_use<V: Volume>(volume: &mut V) -> Result<(Side, Header), StoreFault>
    ensures found { IfOk result (λ r. IsTrue V.tells
        → IsNewest (V.view volume.old).seen r.0
        × HasHeader r.1.form r.1.generation r.1.body_len ((V.view volume.old).seen r.0)) }
    ensures within { IfOk result (λ r. (0 < r.1.generation)
        × (25 + r.1.body_len < (V.view volume.old).size r.0)) }
    ensures none { IsErrOf result NoHouse → IsTrue V.tells
        → StandsForNone (V.view volume.old).seen }
    ensures corrupt { (side : Side) (at : ℕ) → IsErrOf result (Corrupt side at) → IsTrue V.tells
        → CorruptAt (V.view volume.old).seen side at }
    ensures which { IfErr result IsOpenFault }

    ensures reads { OnlyReads V.tells (V.view volume.old) (V.view volume.new) }
    ensures device { IsErrOf result Device → Rose (V.view volume.old).failures
        (V.view volume.new).failures }
{
    let left = header_of(volume, Side::Left)?;
    let right = header_of(volume, Side::Right)?;
    match (left, right) {
        (None, None) => Err(StoreFault::NoHouse),
        (Some(header), None) => Ok((Side::Left, header)),
        (None, Some(header)) => Ok((Side::Right, header)),
        (Some(left), Some(right)) => {
            if left.generation == right.generation {
                return Err(StoreFault::Corrupt {
                    side: Side::Right,
                    at: 9,
                });
            }
            if left.generation > right.generation {
                Ok((Side::Left, left))
            } else {
                Ok((Side::Right, right))
            }
        }
    }
}

/// The header of a side; none where the side isn't open.
fn header_of<V: Volume>(volume: &mut V, side: Side) -> Result<Option<Header>, StoreFault>
    ensures found { IfOk result (λ header. IsTrue V.tells
        → IsHeader header ((V.view volume.old).seen side)) }
    ensures within { IfOk result (λ header. ForSome header (λ h.
        (0 < h.generation) × (25 + h.body_len < (V.view volume.old).size side))) }
    ensures corrupt { (at_side : Side) (at : ℕ) → IsErrOf result (Corrupt at_side at)
        → (at_side ≡ side) × (IsTrue V.tells → IsOpen ((V.view volume.old).seen side)
        × LacksAt ((V.view volume.old).seen side) at) }
    ensures not_no_house { IsErrOf result NoHouse → ⊥ }
    ensures which { IfErr result IsOpenFault }

    ensures reads { OnlyReads V.tells (V.view volume.old) (V.view volume.new) }
    ensures device { IsErrOf result Device → Rose (V.view volume.old).failures
        (V.view volume.new).failures }
{
    let len = volume.len(side);
    if len < 26 {
        return Ok(None);
    }
    let mut front = [0; 25];
    let Ok(()) = volume.read(side, 0, &mut front) else {
        return Err(StoreFault::Device);
    };
    match header_in(&front, len) {
        Ok(header) => Ok(header),
        Err(at) => Err(StoreFault::Corrupt { side, at }),
    }
}

/// The header that the first 25 bytes of a file are, which has so many bytes; none where they are those of a side that isn't
/// open. The error is the place of the first fault.
fn header_in(front: &[u8], len: u64) -> Result<Option<Header>, u64>
    requires long { length front.now ≡ 25 }
    requires more { 26 ≤ len }
    ensures found { IfOk result (λ header. (file : List ℕ) → BeginsWith front.now len file
        → IsHeader header file) }
    ensures within { IfOk result (λ header. ForSome header (λ h.
        (0 < h.generation) × (25 + h.body_len < len))) }
    ensures lacks { IfErr result (λ at. (file : List ℕ) → BeginsWith front.now len file
        → IsOpen file × LacksAt file at) }
{
    if front[0] != 1 {
        return Ok(None);
    }
    let Some(form) = form_of(front) else {
        return Err(1);
    };
    let generation = number_in(front, 9);
    if generation == 0 {
        return Err(9);
    }
    let body_len = number_in(front, 17);
    if body_len >= len - 25 {
        return Err(17);
    }
    Ok(Some(Header {
        form,
        generation,
        body_len,
    }))
}

/// The form whose magic word a header has; none where it has neither.
fn form_of(header: &[u8]) -> Option<Form>
    requires { 9 ≤ length header.now }
    ensures some { IfSome result (λ form. take 8 (drop 1 header.now) ≡ magic form) }
    ensures none { IfNone result ((form : Form) → (take 8 (drop 1 header.now) ≡ magic form) → ⊥) }
{
    let (_, behind) = header.split_at(1);
    let (word, _) = behind.split_at(8);
    let (one, two) = (word_of(Form::One), word_of(Form::Two));
    if word == one.as_slice() {
        return Some(Form::One);
    }
    if word == two.as_slice() {
        return Some(Form::Two);
    }
    None
}

/// The magic word of a form.
pub(crate) fn word_of(form: Form) -> [u8; 8]
    ensures { result ≡ magic form }
{
    match form {
        Form::One => *b"FWHOUSE1",
        Form::Two => *b"FWHOUSE2",
    }
}

/// The number in the eight bytes from an offset on, the lowest first.
fn number_in(header: &[u8], at: usize) -> u64
    requires { at + 8 ≤ length header.now }
    ensures value { result ≡ from_le_bytes w64 (take 8 (drop at header.now)) }
    ensures spelled { number64 result ≡ take 8 (drop at header.now) }
{
    let (_, behind) = header.split_at(at);
    let (number, _) = behind.split_at(8);
    u64::from_le_bytes([
        number[0], number[1], number[2], number[3], number[4], number[5], number[6], number[7],
    ])
}
