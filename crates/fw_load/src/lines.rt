//! What is written of a load.
use crate::board::{Outcome, Place};
use crate::fault::LoadFault;
use fw_group::Answer;
use fw_serve::{Reply, answer_state, verdict_reply, write_reply};
use fw_snapshot::{Snapshot, Verdict};
use fw_threads::{Naming, Published};
use std::alloc::{AllocError, Global};
use std::sync::Wait;

/// A line for each file, in their order; then how many views were stale, and the counts of the warehouse.
pub(crate) fn lines<J: Naming, R: Wait>(
    rt: &R,
    alloc: Global,
    places: &[Place<Answer<Published<J>>>],
    stale: u64,
    after: &Snapshot,
) -> Result<Vec<u8>, LoadFault> {
    let mut text = Vec::new(alloc);
    for index in 0..places.len() {
        push_number(&mut text, index as u64 + 1)?;
        text.push(b' ')?;
        match &*places[index].outcome().lock(rt) {
            Some(outcome) => push_outcome(&mut text, outcome)?,
            None => text.extend_from_slice(b"closed\n")?,
        }
    }
    text.extend_from_slice(b"stale ")?;
    push_number(&mut text, stale)?;
    text.push(b'\n')?;
    push_reply(&mut text, &answer_state(after))?;
    Ok(text)
}

fn push_number(text: &mut Vec<u8>, number: u64) -> Result<(), AllocError> {
    let mut digits = itoa::Buffer::new();
    text.extend_from_slice(digits.format(number).as_bytes())
}

fn push_reply(text: &mut Vec<u8>, reply: &Reply) -> Result<(), LoadFault> {
    match write_reply(text, reply) {
        Ok(()) => Ok(()),
        Err(_) => Err(LoadFault::NoMemory),
    }
}

// The words of what became of a file.
fn push_outcome<J: Naming>(
    text: &mut Vec<u8>,
    outcome: &Outcome<Answer<Published<J>>>,
) -> Result<(), LoadFault> {
    match outcome {
        Outcome::Posted(answer) => push_answer(text, answer),
        Outcome::NotPosted(reply) => push_reply(text, reply),
    }
}

fn push_answer<J: Naming>(
    text: &mut Vec<u8>,
    answer: &Answer<Published<J>>,
) -> Result<(), LoadFault> {
    match answer {
        Answer::Accepted(_) => Ok(text.extend_from_slice(b"accepted\n")?),
        Answer::Unknown => Ok(text.extend_from_slice(b"unknown\n")?),
        Answer::Closed => Ok(text.extend_from_slice(b"closed\n")?),
        Answer::NoMemory => push_reply(text, &Reply::NoMemory),
        Answer::Already { last, seen } => {
            let verdict = Verdict::Already { last: *last };
            push_reply(text, &verdict_reply(seen.front.snapshot(), verdict))
        }
        Answer::Gap { expected, seen } => {
            let verdict = Verdict::Gap {
                expected: *expected,
            };
            push_reply(text, &verdict_reply(seen.front.snapshot(), verdict))
        }
        Answer::Refused { why, seen } => {
            push_reply(
                text,
                &verdict_reply(seen.front.snapshot(), Verdict::Refused(*why)),
            )
        }
    }
}
