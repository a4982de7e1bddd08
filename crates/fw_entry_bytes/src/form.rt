//! Forms of the warehouse's bytes.
ghost use Rattle.std.specs.Prelude.{◌≡◌};
ghost use Rattle.fw_entry_bytes.specs.Forms.{has_kind, has_entry};

use fw_entry::{CommandKind, Entry};

/// A form of the warehouse's bytes: which kinds of entries may stand in them. A later form has all that the earlier ones have.
#[derive(Clone, Copy, Debug, Drop, PartialEq, Eq)]
pub enum Form {
    /// What earlier versions of the program wrote: a side with the magic word FWHOUSE1. It has the kinds 1 to 3: rows, commitments and policies.
    One,
    /// What is written now: a side with the magic word FWHOUSE2. It has all kinds: those of the first form, withdrawals, and purchases that are added.
    Two,
}

impl Form {
    /// The greatest kind of the first form.
    const LAST_OF_ONE: u8 = 3;

    /// Whether the form has a kind of entries.
    pub fn has_kind(self, kind: CommandKind) -> bool
        ensures { result ≡ has_kind self kind }
    {
        match self {
            Form::One => kind.code() <= Form::LAST_OF_ONE,
            Form::Two => true,
        }
    }

    /// Whether the form has an entry, by its kind.
    pub fn has_entry(self, entry: &Entry) -> bool
        ensures { result ≡ has_entry self entry.now }
    {
        self.has_kind(entry.command().kind())
    }
}
