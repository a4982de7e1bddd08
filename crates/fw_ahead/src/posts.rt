//! The posts of a script.
ghost use Rattle.std.specs.Prelude.{◌≡◌, IfSome, OnOk};
ghost use Rattle.fw_rows.specs.Rows.{RowsRead};

use crate::piece::Piece;
use crate::read_post::ReadPost;
use fw_column_rows::{KnownTexts, read_columns_after};
use fw_columns::Columns;
use fw_rows::{Currency, RowFault};
use fw_script::ScriptText;
use std::alloc::{AllocError, Global};
use std::thread::Threads;

// A piece that a worker reads in one thread has about so many bytes: less before a command that is longer, and up to twice such a command.
const PIECE_BYTES: usize = 1 << 20;

// So many pieces are read at most before their posts are asked for.
const PIECES_AHEAD: usize = 128;

// Where so many posts were read and not asked for, no further piece is begun.
const POSTS_AHEAD: usize = 16_384;

/// The posts of a script, which are asked for in the order of its commands. Several workers read ahead, each a piece of about 1 MiB at a time, while the script
/// comes and while whoever asks does something else; one worker reads each post when it is asked for.
pub struct Posts {
    // Whether workers read ahead.
    reads_ahead: bool,
    // What each worker that doesn't read knows of tags.
    idle: Vec<KnownTexts>,
    // The pieces of the script, in order.
    pieces: Vec<Piece>,
    // The first piece that no worker was given.
    next: usize,
    // The first piece whose posts weren't taken.
    turn: usize,
    // How many posts are in the pieces whose workers are done and whose posts weren't taken.
    held: usize,
    // So many bytes are to come before a piece is cut off.
    next_cut: usize,
    // The posts of the piece before that one that weren't asked for yet, the first one last.
    read: Vec<ReadPost>,
    // The tags that are known of texts from the posts that were read when they were asked for.
    known: KnownTexts,
}

impl Drop for Posts {
    fn drop(self) {
        let Self {
            reads_ahead: _,
            idle: _,
            pieces: _,
            next: _,
            turn: _,
            held: _,
            next_cut: _,
            read: _,
            known: _,
        } = self;
    }
}

impl Posts {
    /// The posts of a script that is to come, read by so many workers. Where memory for these is refused, there are fewer.
    pub fn new(alloc: Global, workers: u32) -> Posts {
        let mut posts = Posts {
            reads_ahead: workers > 1,
            idle: Vec::new(alloc),
            pieces: Vec::new(alloc),
            next: 0,
            turn: 0,
            held: 0,
            next_cut: PIECE_BYTES,
            read: Vec::new(alloc),
            known: KnownTexts::new(alloc),
        };
        if posts.reads_ahead {
            for _ in 0..workers {
                if posts.idle.push(KnownTexts::new(alloc)).is_err() {
                    break;
                }
            }
        }
        posts
    }

    /// Has workers read what came of the script, where there are several, once there is enough for one: its whole commands are cut off then. The script's
    /// bytes stay the same. The one error is that memory ran out: then the script may have lost some.
    pub fn read_ahead(
        &mut self,
        rt: &impl Threads,
        alloc: Global,
        script: &mut ScriptText,
        currency: Currency,
    ) -> Result<(), AllocError>
        ensures { OnOk result (script.new ≡ script.old) }
    {
        if !self.reads_ahead {
            return Ok(());
        }
        if script.uncut() >= self.next_cut {
            self.cut(alloc, script)?;
        }
        self.go_on(rt, alloc, currency);
        Ok(())
    }

    /// The same, where nothing of the script is to come any more.
    pub fn read_rest(
        &mut self,
        rt: &impl Threads,
        alloc: Global,
        script: &mut ScriptText,
        currency: Currency,
    ) -> Result<(), AllocError>
        ensures { OnOk result (script.new ≡ script.old) }
    {
        self.next_cut = 0;
        self.read_ahead(rt, alloc, script, currency)
    }

    /// What the content of a post reads as, where costs are in `currency`. It was read ahead, or is read now. `NoMemory` comes where memory ran out when it was
    /// read, at any place.
    pub fn rows_of(
        &mut self,
        rt: &impl Threads,
        alloc: Global,
        content: &[u8],
        currency: Currency,
    ) -> Result<Columns, RowFault>
        ensures { RowsRead currency content.now result }
    {
        self.fetch(rt, alloc, currency);
        match self.take_rows_of(content, currency) {
            Some(rows) => rows,
            None => read_columns_after(alloc, content, currency, &mut self.known),
        }
    }

    /// Waits for the workers to end what they read. Nothing is read ahead any more.
    pub fn stop(&mut self, rt: &impl Threads) {
        for place in self.turn..self.next {
            self.finish(rt, place);
        }
        self.reads_ahead = false;
        self.turn = self.next;
        self.idle.clear();
    }

    // Cuts a piece off the script, or waits for twice as many bytes where no command is whole yet.
    fn cut(&mut self, alloc: Global, script: &mut ScriptText) -> Result<(), AllocError>
        ensures { OnOk result (script.new ≡ script.old) }
    {
        match script.cut(alloc)? {
            Some(text) => {
                self.pieces.push(Piece::new(alloc, text))?;
                self.next_cut = PIECE_BYTES;
            }
            None => self.next_cut = script.uncut().saturating_mul(2),
        }
        Ok(())
    }

    // Takes back the workers that are done, and has them read the next pieces.
    fn go_on(&mut self, rt: &impl Threads, alloc: Global, currency: Currency) {
        for place in self.turn..self.next {
            if self.is_done(place) {
                self.finish(rt, place);
            }
        }
        if self.held >= POSTS_AHEAD {
            return;
        }
        let end = self.turn.saturating_add(PIECES_AHEAD);
        for place in self.next..self.pieces.len().min(end) {
            if !self.start(rt, alloc, place, currency) {
                break;
            }
            self.next = place.saturating_add(1);
        }
    }

    // Whether the piece at a place was read, and its worker isn't taken back.
    fn is_done(&self, place: usize) -> bool {
        match self.pieces.get(place) {
            Some(piece) => piece.is_done(),
            None => false,
        }
    }

    // Has a worker that does nothing read the piece at a place: false where there is none, or no thread.
    fn start(
        &mut self,
        rt: &impl Threads,
        alloc: Global,
        place: usize,
        currency: Currency,
    ) -> bool {
        let (Some(piece), Some(known)) = (self.pieces.get_mut(place), self.idle.pop()) else {
            return false;
        };
        match piece.start(rt, alloc, currency, known) {
            None => true,
            Some(known) => {
                let _pushed = self.idle.push(known);
                false
            }
        }
    }

    // Waits for the worker that reads the piece at a place, if one does, and takes it back.
    fn finish(&mut self, rt: &impl Threads, place: usize) {
        if let Some(piece) = self.pieces.get_mut(place) {
            if let Some(known) = piece.finish(rt) {
                self.held = self.held.saturating_add(piece.count());
                let _pushed = self.idle.push(known);
            }
        }
    }

    // Takes the posts of the next pieces, where all that were read were asked for.
    fn fetch(&mut self, rt: &impl Threads, alloc: Global, currency: Currency) {
        for _ in self.turn..self.pieces.len() {
            if !self.read.is_empty() {
                break;
            }
            self.go_on(rt, alloc, currency);
            let turn = self.turn;
            if turn >= self.next {
                // No worker can read it: its posts are read when they are asked for.
                self.turn = turn.saturating_add(1);
                self.next = self.turn;
                break;
            }
            self.finish(rt, turn);
            if let Some(piece) = self.pieces.get_mut(turn) {
                self.read = piece.take_posts(alloc);
                self.held = self.held.saturating_sub(self.read.len());
            }
            self.turn = turn.saturating_add(1);
            self.go_on(rt, alloc, currency);
        }
    }

    // What the content of a post reads as, if it is the next one that was read ahead, and memory didn't run out.
    fn take_rows_of(
        &mut self,
        content: &[u8],
        currency: Currency,
    ) -> Option<Result<Columns, RowFault>>
        ensures { IfSome result (λ rows. RowsRead currency content.now rows) }
    {
        match self.read.pop()?.into_rows_of(content, currency) {
            Ok(Err(RowFault::NoMemory)) => None,
            Ok(rows) => Some(rows),
            Err(post) => {
                let _pushed = self.read.push(post);
                None
            }
        }
    }
}
