//! Replies to commands.

/// What stands behind the name of a refusal.
#[derive(Clone, Copy, Debug, Drop, PartialEq, Eq)]
pub enum Detail {
    /// Nothing.
    None,
    /// A column or a field.
    Word(&'static str),
    /// The number of a record, counted from 1.
    Number(u32),
}

/// Why a command was refused. Its line is `refused`, the code and the name, and the detail, parted by single spaces.
#[derive(Clone, Copy, Debug, Drop, PartialEq, Eq)]
pub struct Refusal {
    /// The code and the name, as `V1 Fields`.
    pub name: &'static str,
    pub detail: Detail,
}

/// What a command is answered. After every reply but `Accepted` the warehouse is what it was before.
#[derive(Debug)]
pub enum Reply {
    /// The content is the entry of this number, counted from 1.
    Accepted(u64),
    /// The origin has had an entry of this number accepted: nothing is done again. The number is that of its last entry.
    Already(u64),
    /// The entry's number isn't the next one of its origin, which is this.
    Gap(u64),
    /// The command was refused.
    Refused(Refusal),
    /// The store refused the command, or has failed in it: the code and the name, as `S3 Device`.
    Store(&'static str),
    /// The checkpoint is made.
    Checkpointed,
    /// The text that was asked for.
    Text(Vec<u8>),
    /// How many entries, rows and commitments there are, and whether a policy holds.
    State {
        entries: u64,
        rows: u64,
        commitments: u64,
        has_policy: bool,
    },
    /// Out of memory.
    NoMemory,
    /// The line was no command.
    BadCommand,
    /// Fewer lines followed than the command asked for.
    BadEnd,
}

impl Drop for Reply {
    fn drop(self) {
        match self {
            Self::Accepted(_)
            | Self::Already(_)
            | Self::Gap(_)
            | Self::Refused(_)
            | Self::Store(_)
            | Self::Checkpointed
            | Self::Text(_)
            | Self::State {
                entries: _,
                rows: _,
                commitments: _,
                has_policy: _,
            }
            | Self::NoMemory
            | Self::BadCommand
            | Self::BadEnd => {}
        }
    }
}
