//! A piece of a script, whose posts a worker reads in a thread of its own.

use crate::content::Content;
use crate::read_post::ReadPost;
use fw_column_rows::KnownTexts;
use fw_rows::Currency;
use std::alloc::{AllocError, Global};
use std::sync::Arc;
use std::sync::atomic::{AtomicBool, Ordering};
use std::thread::{JoinHandle, Threads};
use std::{mem, thread};

// The posts of a piece, the first one last, and what the worker that read them knows of tags now.
#[derive(Drop)]
struct Batch {
    posts: Vec<ReadPost>,
    known: KnownTexts,
}

// Reads the posts of a piece of a script. Those from one on for which memory is refused are left out.
fn read_batch(
    alloc: Global,
    script: &Arc<Vec<u8>>,
    currency: Currency,
    known: KnownTexts,
) -> Batch {
    let mut known = known;
    let mut posts = Vec::new(alloc);
    let mut at = 0;
    for _ in 0..script.len() {
        let Some((content, behind)) = Content::next(script, at) else {
            break;
        };
        let post = ReadPost::of_content(alloc, content, currency, &mut known);
        if posts.push(post).is_err() {
            break;
        }
        at = behind;
    }
    posts.shrink_to_fit();
    posts.reverse();
    Batch { posts, known }
}

// A thread that reads a piece.
#[derive(Drop)]
struct Reading {
    thread: JoinHandle<Batch>,
    // Whether it has read all of it.
    is_done: Arc<AtomicBool>,
}

impl Reading {
    // Has a thread read a piece. The one error is that memory or the thread is refused.
    fn start(
        rt: &impl Threads,
        alloc: Global,
        script: Arc<Vec<u8>>,
        currency: Currency,
        known: KnownTexts,
    ) -> Result<Reading, AllocError> {
        let is_done = Arc::new(alloc, AtomicBool::new(false))?;
        let says_done = Arc::try_clone(&is_done)?;
        let started = thread::spawn(rt, move || {
            let batch = read_batch(alloc, &script, currency, known);
            says_done.store(true, Ordering::SeqCst);
            batch
        });
        match started {
            Ok(thread) => Ok(Reading { thread, is_done }),
            Err(_refused) => Err(AllocError),
        }
    }
}

/// A piece of a script.
#[derive(Drop)]
pub(crate) struct Piece {
    script: Arc<Vec<u8>>,
    // The thread that reads it.
    reading: Option<Reading>,
    // Its posts, the first one last, once they are read.
    posts: Vec<ReadPost>,
}

impl Piece {
    // A piece that nobody reads yet.
    pub(crate) fn new(alloc: Global, script: Arc<Vec<u8>>) -> Piece {
        Piece {
            script,
            reading: None,
            posts: Vec::new(alloc),
        }
    }

    // Has a worker that knows these tags read it in a thread of its own. Where memory or the thread is refused nothing is read, and what a new worker knows
    // comes back: nothing.
    pub(crate) fn start(
        &mut self,
        rt: &impl Threads,
        alloc: Global,
        currency: Currency,
        known: KnownTexts,
    ) -> Option<KnownTexts> {
        let started = match Arc::try_clone(&self.script) {
            Ok(script) => Reading::start(rt, alloc, script, currency, known),
            Err(_too_many) => Err(AllocError),
        };
        match started {
            Ok(reading) => {
                self.reading = Some(reading);
                None
            }
            Err(AllocError) => Some(KnownTexts::new(alloc)),
        }
    }

    // Whether a thread has read it, and wasn't waited for yet.
    pub(crate) fn is_done(&self) -> bool {
        match &self.reading {
            Some(reading) => reading.is_done.load(Ordering::SeqCst),
            None => false,
        }
    }

    // Waits for the thread that reads it, if there is one: what its worker knows of tags now.
    pub(crate) fn finish(&mut self, rt: &impl Threads) -> Option<KnownTexts> {
        let reading = self.reading.take()?;
        let Batch { posts, known } = reading.thread.join(rt);
        self.posts = posts;
        Some(known)
    }

    // How many of its posts were read, and not taken.
    pub(crate) fn count(&self) -> usize {
        self.posts.len()
    }

    // Takes its posts, of which the first one stands last.
    pub(crate) fn take_posts(&mut self, alloc: Global) -> Vec<ReadPost> {
        mem::replace(&mut self.posts, Vec::new(alloc))
    }
}
