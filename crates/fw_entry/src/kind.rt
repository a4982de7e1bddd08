//! Kinds of commands.
ghost use Rattle.std.specs.Prelude.{◌≡◌};

/// The kind of a command.
#[derive(Clone, Copy, Debug, Drop, PartialEq, Eq)]
pub enum CommandKind {
    /// Rows are posted.
    Post,
    /// A commitment is made.
    Commit,
    /// A policy is set.
    SetPolicy,
    /// A post is withdrawn.
    Withdraw,
    /// A purchase is added to a commitment.
    AddPurchase,
}

impl CommandKind {
    ghost use Rattle.fw_entry.specs.Kinds.{kind_code, kind_meant};

    /// The byte that stands for the kind: 1 to 5, in this order.
    pub fn code(self) -> u8
        ensures { result ≡ kind_code self }
    {
        match self {
            CommandKind::Post => 1,
            CommandKind::Commit => 2,
            CommandKind::SetPolicy => 3,
            CommandKind::Withdraw => 4,
            CommandKind::AddPurchase => 5,
        }
    }

    /// The kind that a byte stands for; `None` where it stands for none.
    pub fn from_code(code: u8) -> Option<CommandKind>
        ensures { result ≡ kind_meant code }
    {
        match code {
            1 => Some(CommandKind::Post),
            2 => Some(CommandKind::Commit),
            3 => Some(CommandKind::SetPolicy),
            4 => Some(CommandKind::Withdraw),
            5 => Some(CommandKind::AddPurchase),
            _ => None,
        }
    }
}
