//! How long a script may be. One of 2^30 bytes is too long for a test, so the limit is a small one here.
use crate::ended::check_all;
use fw_serve::{ServeFault, read_within};
use std::alloc::Global;
use std::io;
use std::io::Read;

// Gives the text, at most `piece` bytes at a time.
#[derive(Drop)]
struct SlowReader<'a> {
    text: &'a [u8],
    piece: usize,
}

impl Read for SlowReader<'_> {
    fn read(&mut self, buf: &mut [u8]) -> io::Result<usize> {
        let room = buf.len().min(self.piece);
        let count = self.text.read(&mut buf[..room])?;
        Ok(count.min(room))
    }
}

// A limit, how many bytes a read gives, the text, and whether it is read.
type Case = (u8, usize, &'static [u8], bool);

const CASES: &[Case] = &[
    (0, 1, b"", true),
    (0, 1, b"s", false),
    (5, 1, b"stat", true),
    (5, 1, b"state", true),
    (5, 1, b"state\n", false),
    (5, 2, b"state", true),
    (5, 2, b"state\n", false),
    (5, 64, b"state", true),
    (5, 64, b"state\n", false),
    (6, 64, b"state\n", true),
];

// Whether a text is read whole where it is within the limit, and else is too long.
fn is_read_within(alloc: Global, case: &Case) -> Result<bool, ServeFault> {
    let (limit, piece, text, is_read) = case;
    let mut reader = SlowReader {
        text,
        piece: *piece,
    };
    match read_within(alloc, &mut reader, usize::from(*limit)) {
        Ok(read) => Ok(*is_read && read.as_slice() == *text),
        Err(ServeFault::TooLong) => Ok(!*is_read),
        Err(why) => Err(why),
    }
}

// The place of the first case for which that isn't so.
fn first_misread(alloc: Global) -> Result<Option<usize>, ServeFault> {
    for (place, case) in CASES.iter().enumerate() {
        if !is_read_within(alloc, case)? {
            return Ok(Some(place));
        }
    }
    Ok(None)
}

#[test]
fn a_script_is_read_up_to_its_limit(rt: HostRuntime) {
    check_all(&rt, first_misread(rt.alloc()));
}
