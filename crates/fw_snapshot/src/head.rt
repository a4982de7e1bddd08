//! The head of an accepted entry.
ghost use Rattle.std.specs.Prelude.{◌≡◌, [], string_bytes};
ghost use Rattle.std.specs.Option.{option_copied, option_to_list};
ghost use Rattle.fw_snapshot.specs.Heads.{command_of, row_count};
ghost use Rattle.fw_snapshot.specs.History.{committed};
ghost use Rattle.fw_snapshot.specs.HeadView.{content_view};
ghost use Rattle.fw_snapshot.specs.Posts.{target_of};

use fw_terms::{AddedPurchase, Commitment, Policy};
use std::marker::Model;
use std::sync::Arc;

/// What an accepted entry brought.
pub enum Content {
    /// So many rows, which stand in the segments of the state.
    Post { rows: u32 },
    /// A commitment.
    Commit(Commitment),
    /// A policy, which the state shares where it is the one that holds.
    SetPolicy(Arc<Policy>),
    /// The number of a post of the same sender, which is withdrawn.
    Withdraw(u64),
    /// A purchase that is added to a commitment.
    AddPurchase(AddedPurchase),
}

impl Drop for Content {
    fn drop(self) {
        match self {
            Self::Post { rows: _ }
            | Self::Commit(_)
            | Self::SetPolicy(_)
            | Self::Withdraw(_)
            | Self::AddPurchase(_) => {}
        }
    }
}

impl Content {
    /// How many rows there are: none where it is no post.
    pub(crate) fn rows(&self) -> usize
        ensures { result ≡ row_count (content_view self.now) }
    {
        match self {
            Content::Post { rows } => *rows as usize,
            Content::Commit(_)
            | Content::SetPolicy(_)
            | Content::Withdraw(_)
            | Content::AddPurchase(_) => 0,
        }
    }

    /// The commitment, if it is one.
    pub(crate) fn commitment(&self) -> Option<&Commitment>
        ensures { option_to_list (option_copied result)
            ≡ committed (command_of (content_view self.now) []) }
    {
        match self {
            Content::Commit(commitment) => Some(commitment),
            Content::Post { .. }
            | Content::SetPolicy(_)
            | Content::Withdraw(_)
            | Content::AddPurchase(_) => None,
        }
    }

    /// The number of the post that it withdraws, if it withdraws one.
    pub(crate) fn target(&self) -> Option<u64>
        ensures { result ≡ target_of (command_of (content_view self.now) []) }
    {
        match self {
            Content::Withdraw(seq) => Some(*seq),
            Content::Post { .. }
            | Content::Commit(_)
            | Content::SetPolicy(_)
            | Content::AddPurchase(_) => None,
        }
    }
}

/// An accepted entry without its rows.
pub struct Head {
    origin: Arc<String>,
    seq: u64,
    content: Content,
}

impl Drop for Head {
    fn drop(self) {
        let Self {
            origin: _,
            seq: _,
            content: _,
        } = self;
    }
}

impl Model for Head {
    ghost use Rattle.fw_snapshot.specs.Heads.{HeadValue};

    ghost Value = { HeadValue };

    ghost use Rattle.fw_snapshot.specs.HeadView.{head_view};

    ghost view = { head_view };
}

impl Head {
    /// The head of an entry of this origin and number.
    pub(crate) fn new(origin: Arc<String>, seq: u64, content: Content) -> Head
        ensures { result ≡ record {
          origin = string_bytes origin.value;
          seq = seq;
          content = content_view content;
        } }
    {
        Head {
            origin,
            seq,
            content,
        }
    }

    /// Who sent the entry.
    pub fn origin(&self) -> &str
        ensures { result.now ≡ self.now.origin }
    {
        self.origin.as_str()
    }

    /// The entry's number among those of its origin, counted from 1.
    pub fn seq(&self) -> u64
        ensures { result ≡ self.now.seq }
    {
        self.seq
    }

    /// What the entry brought.
    pub fn content(&self) -> &Content
        ensures { content_view result.now ≡ self.now.content }
    {
        &self.content
    }
}
