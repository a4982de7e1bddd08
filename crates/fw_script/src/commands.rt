//! The commands of a script.
ghost use Rattle.std.specs.Prelude.{◌≡◌};

/// What an entry brings.
#[derive(Clone, Copy, Debug, Drop, PartialEq, Eq)]
pub enum EntryKind {
    /// Charge rows, as CSV.
    Post,
    /// A commitment, as TOML.
    Commit,
    /// A policy, as TOML.
    Policy,
    /// A purchase that is added to a commitment, as TOML.
    AddPurchase,
    /// A withdrawal of a post of the same origin, which has no lines.
    Withdraw,
}

impl EntryKind {
    ghost use Rattle.fw_script.specs.Commands.{entry_word};

    /// The word that begins the line of such an entry.
    #[tactic(auto, unfolding(crate::specs::Commands::entry_word))]
    pub fn word(self) -> &'static str
        ensures { result.now ≡ entry_word self }
    {
        match self {
            EntryKind::Post => "post",
            EntryKind::Commit => "commit",
            EntryKind::Policy => "policy",
            EntryKind::AddPurchase => "add",
            EntryKind::Withdraw => "withdraw",
        }
    }
}

/// A command, which borrows from the script that it stands in.
#[derive(Clone, Copy, Debug, Drop, PartialEq, Eq)]
pub enum Command<'a> {
    /// `post ORIGIN SEQUENCE LINES`, `commit ..`, `policy ..` or `add ..`, and the lines that follow it, or
    /// `withdraw ORIGIN SEQUENCE TARGET`.
    Entry {
        kind: EntryKind,
        /// The origin, as it stands: nothing is checked of it here.
        origin: &'a [u8],
        /// The sequence number, as it stands: nothing is checked of it here, and `sequence_number` reads it.
        sequence: &'a [u8],
        /// The lines that follow, each with the line feed that ends it. The last line of a script may have none. Of a withdrawal it
        /// is the target, the sequence number of the post, as it stands in the line: `sequence_number` reads it.
        content: &'a [u8],
    },
    /// `report KEY FROM TO`.
    Report {
        /// The tag key: all that stands between the command's word and the last two words. It may be empty and may hold spaces.
        key: &'a str,
        /// The first hour, in hours since 1970.
        from: u64,
        /// The hour after the last one, in hours since 1970.
        to: u64,
    },
    /// `lines FROM TO`.
    Lines {
        /// The first hour, in hours since 1970.
        from: u64,
        /// The hour after the last one, in hours since 1970.
        to: u64,
    },
    /// `state`.
    State,
    /// `checkpoint`.
    Checkpoint,
    /// A line that is none of the commands.
    BadCommand,
    /// A command that asks for more lines than follow it. The script ends with it.
    BadEnd,
}
