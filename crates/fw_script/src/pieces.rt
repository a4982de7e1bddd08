//! A script that comes piece by piece.
ghost use Rattle.std.specs.Prelude.{◌≡◌, ◌++◌, ◌<◌, [], length, All, MatchOption, OnOk, OnSome};
ghost use Rattle.std.specs.List.{concat};
ghost use Rattle.fw_script.specs.Commands.{FirstCommand};
ghost use Rattle.fw_script.specs.Plain.{plain_command};
ghost use Rattle.fw_script.specs.Whole.{ComeInTurn, IsPiece, texts_of};

use crate::commands::Command;
use crate::reader::Script;
use crate::whole::whole_len;
use std::alloc::{AllocError, Global};
use std::marker::Model;
use std::mem;
use std::sync::Arc;

/// The bytes of a script that comes piece by piece. Commands that are whole can be cut off as a piece, for others to read while more comes. A contract sees
/// all of its bytes.
pub struct ScriptText {
    // What was cut off: one whole command or more each.
    pieces: Vec<Arc<Vec<u8>>>,
    // What came behind it.
    last: Vec<u8>,
}

impl Drop for ScriptText {
    fn drop(self) {
        let Self { pieces: _, last: _ } = self;
    }
}

impl Model for ScriptText {
    ghost use Rattle.std.specs.Prelude.{ℕ, ◌++◌, List, All};
    ghost use Rattle.std.specs.List.{concat};
    ghost use Rattle.fw_script.specs.Whole.{IsPiece, texts_of};

    ghost Value = { List ℕ };

    ghost view = { λ t. concat (texts_of t.pieces.items) ++ t.last.items };

    ghost invariant = { λ t. All IsPiece (texts_of t.pieces.items) };
}

impl ScriptText {
    /// No bytes yet.
    pub fn new(alloc: Global) -> ScriptText
        ensures { result ≡ [] }
    {
        ScriptText {
            pieces: Vec::new(alloc),
            last: Vec::new(alloc),
        }
    }

    /// Adds bytes that came. The one error is that memory ran out: then it is as it was.
    pub fn add(&mut self, bytes: &[u8]) -> Result<(), AllocError>
        ensures { OnOk result (self.new ≡ self.old ++ bytes.now) }
    {
        self.last.extend_from_slice(bytes)
    }

    /// How many bytes were added since a piece was cut off, or weren't whole then.
    pub fn uncut(&self) -> usize {
        self.last.len()
    }

    /// Cuts the whole commands off that came since the last cut, for others to read: `None` where there are none. Its bytes stay the same. The one error is
    /// that memory ran out: then some of them may be lost.
    pub fn cut(&mut self, alloc: Global) -> Result<Option<Arc<Vec<u8>>>, AllocError>
        ensures { OnOk result (self.new ≡ self.old) }
    {
        let len = whole_len(self.last.as_slice());
        if len == 0 {
            return Ok(None);
        }
        let rest = Vec::from_slice(alloc, &self.last[len..])?;
        let mut piece = mem::replace(&mut self.last, rest);
        piece.truncate(len);
        piece.shrink_to_fit();
        let piece = Arc::new(alloc, piece)?;
        let shared = Arc::try_clone(&piece)?;
        self.pieces.push(piece)?;
        Ok(Some(shared))
    }

    /// Its commands.
    pub fn commands(&self) -> Commands<'_>
        ensures { result ≡ self.now }
    {
        Commands {
            script: Script::new(b""),
            pieces: self.pieces.as_slice(),
            last: self.last.as_slice(),
        }
    }
}

/// The commands of a [`ScriptText`]. A contract sees what isn't yet read.
#[derive(Drop)]
pub struct Commands<'a> {
    // What is left of the piece that is being read.
    script: Script<'a>,
    // The pieces behind it.
    pieces: &'a [Arc<Vec<u8>>],
    // What comes behind these.
    last: &'a [u8],
}

impl<'a> Model for Commands<'a> {
    ghost use Rattle.std.specs.Prelude.{ℕ, ◌++◌, List};
    ghost use Rattle.std.specs.List.{concat};
    ghost use Rattle.fw_script.specs.Whole.{ComeInTurn, texts_of};

    ghost Value = { List ℕ };

    ghost view = { λ c. c.script ++ (concat (texts_of c.pieces.now) ++ c.last.now) };

    ghost invariant = { λ c. ComeInTurn c.script (texts_of c.pieces.now) c.last.now };
}

impl<'a> Commands<'a> {
    /// The next command, or `None` where nothing is left. What is left then begins after the command's line and the lines that it takes. After `BadEnd` nothing
    /// is left.
    pub fn next_command(&mut self) -> Option<Command<'a>>
        ensures command { MatchOption result
            ((self.old ≡ []) × (self.new ≡ []))
            (λ c. FirstCommand self.old (plain_command c) self.new) }
        ensures shorter { OnSome result (length self.new < length self.old) }
    {
        if let Some(command) = self.script.next_command() {
            return Some(command);
        }
        let (text, pieces, last) = next_part(self.pieces, self.last);
        self.script = Script::new(text);
        self.pieces = pieces;
        self.last = last;
        self.script.next_command()
    }
}

// What comes next of pieces and what is behind them, and what comes after that.
fn next_part<'a>(
    pieces: &'a [Arc<Vec<u8>>],
    last: &'a [u8],
) -> (&'a [u8], &'a [Arc<Vec<u8>>], &'a [u8])
    requires { All IsPiece (texts_of pieces.now) }
    ensures same { concat (texts_of pieces.now) ++ last.now
        ≡ result.0.now ++ (concat (texts_of result.1.now) ++ result.2.now) }
    ensures in_turn { ComeInTurn result.0.now (texts_of result.1.now) result.2.now }
    ensures some { result.0.now ≡ [] → concat (texts_of result.1.now) ++ result.2.now ≡ [] }
{
    match pieces.split_first() {
        Some((piece, behind)) => (piece.as_slice(), behind, last),
        None => (last, pieces, b""),
    }
}
