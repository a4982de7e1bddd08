//! The commitment discount that a row belongs to.
ghost use Rattle.std.specs.Prelude.{◌≡◌, Some, string_bytes, IfOk, MatchOption};

use std::alloc::{AllocError, Global};
use std::marker::Model;

/// CommitmentDiscountCategory: what a commitment is to.
#[derive(Clone, Copy, Debug, Drop, PartialEq, Eq)]
pub enum DiscountKind {
    /// A quantity of use.
    Usage,
    /// An amount of cost.
    Spend,
}

impl DiscountKind {
    ghost use Rattle.fw_charge.specs.Codes.{kind_word, kind_code, kind_of};
    ghost use Rattle.fw_charge.specs.declared.discount.DiscountKind.{DiscountKind};

    /// The word of the kind in the column CommitmentDiscountCategory.
    #[tactic(auto, unfolding(crate::specs::Codes::kind_word))]
    pub fn word(self) -> &'static str
        ensures { result.now ≡ kind_word self }
    {
        match self {
            DiscountKind::Usage => "Usage",
            DiscountKind::Spend => "Spend",
        }
    }

    /// The kind with this word, or `None` where no kind has it.
    #[tactic(auto, unfolding(crate::specs::Codes::kind_word))]
    pub fn from_word(word: &str) -> Option<DiscountKind>
        ensures { MatchOption result ((k : DiscountKind) → ¬ (word.now ≡ kind_word k))
            (λ k. word.now ≡ kind_word k) }
    {
        match word {
            "Usage" => Some(DiscountKind::Usage),
            "Spend" => Some(DiscountKind::Spend),
            _ => None,
        }
    }

    /// The code of the kind where rows are kept: 1 or 2. A kind that is null has the code 0.
    #[tactic(auto, unfolding(crate::specs::Codes::kind_code))]
    pub fn code(self) -> u8
        ensures { result ≡ kind_code (Some self) }
    {
        match self {
            DiscountKind::Usage => 1,
            DiscountKind::Spend => 2,
        }
    }

    /// The kind with this code, or `None` where no kind has it, as 0.
    pub fn from_code(code: u8) -> Option<DiscountKind>
        ensures { result ≡ kind_of code }
    {
        match code {
            1 => Some(DiscountKind::Usage),
            2 => Some(DiscountKind::Spend),
            _ => None,
        }
    }
}

/// CommitmentDiscountStatus: whether a charge consumed a part of a commitment.
#[derive(Clone, Copy, Debug, Drop, PartialEq, Eq)]
pub enum DiscountStatus {
    /// The charge consumed it.
    Used,
    /// Nothing consumed it.
    Unused,
}

impl DiscountStatus {
    ghost use Rattle.fw_charge.specs.Codes.{status_word, status_code, status_of};
    ghost use Rattle.fw_charge.specs.declared.discount.DiscountStatus.{DiscountStatus};

    /// The word of the status in the column CommitmentDiscountStatus.
    #[tactic(auto, unfolding(crate::specs::Codes::status_word))]
    pub fn word(self) -> &'static str
        ensures { result.now ≡ status_word self }
    {
        match self {
            DiscountStatus::Used => "Used",
            DiscountStatus::Unused => "Unused",
        }
    }

    /// The status with this word, or `None` where no status has it.
    #[tactic(auto, unfolding(crate::specs::Codes::status_word))]
    pub fn from_word(word: &str) -> Option<DiscountStatus>
        ensures { MatchOption result ((s : DiscountStatus) → ¬ (word.now ≡ status_word s))
            (λ s. word.now ≡ status_word s) }
    {
        match word {
            "Used" => Some(DiscountStatus::Used),
            "Unused" => Some(DiscountStatus::Unused),
            _ => None,
        }
    }

    /// The code of the status where rows are kept: 1 or 2. A status that is null has the code 0.
    #[tactic(auto, unfolding(crate::specs::Codes::status_code))]
    pub fn code(self) -> u8
        ensures { result ≡ status_code (Some self) }
    {
        match self {
            DiscountStatus::Used => 1,
            DiscountStatus::Unused => 2,
        }
    }

    /// The status with this code, or `None` where no status has it, as 0.
    pub fn from_code(code: u8) -> Option<DiscountStatus>
        ensures { result ≡ status_of code }
    {
        match code {
            1 => Some(DiscountStatus::Used),
            2 => Some(DiscountStatus::Unused),
            _ => None,
        }
    }
}

/// The commitment discount that a row belongs to.
#[derive(Debug)]
pub struct Discount {
    id: String,
    kind: DiscountKind,
    status: Option<DiscountStatus>,
}

impl Drop for Discount {
    fn drop(self) {
        let Self {
            id: _,
            kind: _,
            status: _,
        } = self;
    }
}

impl Model for Discount {
    ghost use Rattle.std.specs.Prelude.{string_bytes};
    ghost use Rattle.fw_charge.specs.Charge.{DiscountText};

    ghost Value = { DiscountText };

    ghost view = { λ d. record { id = string_bytes d.id; kind = d.kind; status = d.status } };
}

impl Discount {
    /// The discount with this id, kind and status.
    pub fn of_fields(id: String, kind: DiscountKind, status: Option<DiscountStatus>) -> Discount
        ensures { result ≡ record { id = string_bytes id; kind = kind; status = status } }
    {
        Discount { id, kind, status }
    }

    /// CommitmentDiscountId.
    pub fn id(&self) -> &str
        ensures { result.now ≡ self.now.id }
    {
        self.id.as_str()
    }

    /// CommitmentDiscountCategory.
    pub fn kind(&self) -> DiscountKind
        ensures { result ≡ self.now.kind }
    {
        self.kind
    }

    /// CommitmentDiscountStatus, or `None` where it is null.
    pub fn status(&self) -> Option<DiscountStatus>
        ensures { result ≡ self.now.status }
    {
        self.status
    }

    /// An equal discount.
    pub fn copy(&self, _alloc: Global) -> Result<Discount, AllocError>
        ensures { IfOk result (λ copy. copy ≡ self.now) }
    {
        Ok(Discount {
            id: self.id.clone()?,
            kind: self.kind,
            status: self.status,
        })
    }
}
