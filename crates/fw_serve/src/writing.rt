//! Replies, as they are written.
ghost use Rattle.std.specs.Prelude.{◌≡◌, OnOk, IfErr};
ghost use Rattle.std.specs.Io.KnownBytes.{Appends};
ghost use Rattle.fw_serve.specs.Replies.{counts_line, refused};
ghost use Rattle.fw_serve.specs.ReplyText.{reply_text, refusal_text};
ghost use Rattle.fw_serve.specs.Writing.{WritesPart};

use crate::fault::ServeFault;
use crate::parts::write_parts;
use crate::reply::{Detail, Refusal, Reply};
use std::io::Write;

// Writes the reply, with the line feed that ends its line.
#[tactic(auto, unfolding(crate::specs::ReplyText::reply_text, crate::specs::Replies::accepted_line, crate::specs::Replies::already_line, crate::specs::Replies::gap_line, crate::specs::Replies::counted, crate::specs::Replies::store_line, crate::specs::Replies::checkpointed_line, crate::specs::Replies::no_memory_line, crate::specs::Replies::bad_command_line, crate::specs::Replies::bad_end_line))]
pub fn write_reply<W: Write>(writer: &mut W, reply: &Reply) -> Result<(), ServeFault>
    ensures whole { OnOk result (Appends (W.contents writer.old) (W.contents writer.new)
        (reply_text reply.now)) }
    ensures part { IfErr result (λ why. (why ≡ ServeFault.Write)
        × WritesPart (W.contents writer.old) (W.contents writer.new) (reply_text reply.now)) }
{
    let mut digits = itoa::Buffer::new();
    match reply {
        Reply::Accepted(number) => {
            let parts: [&[u8]; 3] = [b"accepted ", digits.format(*number).as_bytes(), b"\n"];
            write_parts(writer, &parts)
        }
        Reply::Already(last) => {
            let parts: [&[u8]; 3] = [b"already ", digits.format(*last).as_bytes(), b"\n"];
            write_parts(writer, &parts)
        }
        Reply::Gap(expected) => {
            let parts: [&[u8]; 3] = [b"gap ", digits.format(*expected).as_bytes(), b"\n"];
            write_parts(writer, &parts)
        }
        Reply::State {
            entries,
            rows,
            commitments,
            has_policy,
        } => write_counts(writer, *entries, *rows, *commitments, u8::from(*has_policy)),
        Reply::Refused(refusal) => write_refusal(writer, *refusal),
        Reply::Store(fault) => write_parts(writer, &[b"store ", fault.as_bytes(), b"\n"]),
        Reply::Checkpointed => write_parts(writer, &[b"checkpointed\n"]),
        Reply::Text(text) => {
            let parts: [&[u8]; 4] = [
                b"bytes ",
                digits.format(text.len()).as_bytes(),
                b"\n",
                text.as_slice(),
            ];
            write_parts(writer, &parts)
        }
        Reply::NoMemory => write_parts(writer, &[b"no memory\n"]),
        Reply::BadCommand => write_parts(writer, &[b"bad command\n"]),
        Reply::BadEnd => write_parts(writer, &[b"bad end\n"]),
    }
}

// Writes how many entries, rows, commitments and policies there are.
#[tactic(auto, unfolding(crate::specs::Replies::counts_line))]
fn write_counts<W: Write>(
    writer: &mut W,
    entries: u64,
    rows: u64,
    commitments: u64,
    policies: u8,
) -> Result<(), ServeFault>
    ensures whole { OnOk result (Appends (W.contents writer.old) (W.contents writer.new)
        (counts_line entries rows commitments policies)) }
    ensures part { IfErr result (λ why. (why ≡ ServeFault.Write)
        × WritesPart (W.contents writer.old) (W.contents writer.new)
        (counts_line entries rows commitments policies)) }
{
    let mut entry_digits = itoa::Buffer::new();
    let mut row_digits = itoa::Buffer::new();
    let mut commitment_digits = itoa::Buffer::new();
    let mut policy_digits = itoa::Buffer::new();
    let parts: [&[u8]; 9] = [
        b"state ",
        entry_digits.format(entries).as_bytes(),
        b" ",
        row_digits.format(rows).as_bytes(),
        b" ",
        commitment_digits.format(commitments).as_bytes(),
        b" ",
        policy_digits.format(policies).as_bytes(),
        b"\n",
    ];
    write_parts(writer, &parts)
}

// Writes why a command was refused.
#[tactic(auto, unfolding(crate::specs::ReplyText::refusal_text))]
fn write_refusal<W: Write>(writer: &mut W, refusal: Refusal) -> Result<(), ServeFault>
    ensures whole { OnOk result (Appends (W.contents writer.old) (W.contents writer.new)
        (refused (refusal_text refusal))) }
    ensures part { IfErr result (λ why. (why ≡ ServeFault.Write)
        × WritesPart (W.contents writer.old) (W.contents writer.new)
        (refused (refusal_text refusal))) }
{
    let mut digits = itoa::Buffer::new();
    let name = refusal.name.as_bytes();
    match refusal.detail {
        Detail::None => write_parts(writer, &[b"refused ", name, b"\n"]),
        Detail::Word(word) => {
            write_parts(writer, &[b"refused ", name, b" ", word.as_bytes(), b"\n"])
        }
        Detail::Number(number) => {
            let number = digits.format(number).as_bytes();
            write_parts(writer, &[b"refused ", name, b" ", number, b"\n"])
        }
    }
}
