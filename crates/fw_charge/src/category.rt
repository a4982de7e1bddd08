//! What kind of charge a row is.
ghost use Rattle.std.specs.Prelude.{◌≡◌, MatchOption};

/// ChargeCategory: what kind of charge a row is.
#[derive(Clone, Copy, Debug, Drop, PartialEq, Eq)]
pub enum Category {
    /// The use of a service.
    Usage,
    /// A purchase, as of a commitment to later use.
    Purchase,
    /// A tax.
    Tax,
    /// A credit that lowers the costs.
    Credit,
    /// A correction of the costs outside the other kinds.
    Adjustment,
}

impl Category {
    ghost use Rattle.fw_charge.specs.Codes.{category_word, category_code, category_of};
    ghost use Rattle.fw_charge.specs.declared.category.Category.{Category};

    /// How many categories there are. Their codes are 1 to this.
    pub const COUNT: usize = 5;

    /// The greatest code of a category. The least is 1.
    pub const LAST_CODE: u8 = Category::COUNT as u8;

    /// The categories, in the order of their codes.
    pub const ALL: [Category; Category::COUNT] = [
        Category::Usage,
        Category::Purchase,
        Category::Tax,
        Category::Credit,
        Category::Adjustment,
    ];

    /// The word of the category in the column ChargeCategory.
    #[tactic(auto, unfolding(crate::specs::Codes::category_word))]
    pub fn word(self) -> &'static str
        ensures { result.now ≡ category_word self }
    {
        match self {
            Category::Usage => "Usage",
            Category::Purchase => "Purchase",
            Category::Tax => "Tax",
            Category::Credit => "Credit",
            Category::Adjustment => "Adjustment",
        }
    }

    /// The category with this word, or `None` where no category has it.
    #[tactic(auto, unfolding(crate::specs::Codes::category_word))]
    pub fn from_word(word: &str) -> Option<Category>
        ensures { MatchOption result ((k : Category) → ¬ (word.now ≡ category_word k))
            (λ k. word.now ≡ category_word k) }
    {
        match word {
            "Usage" => Some(Category::Usage),
            "Purchase" => Some(Category::Purchase),
            "Tax" => Some(Category::Tax),
            "Credit" => Some(Category::Credit),
            "Adjustment" => Some(Category::Adjustment),
            _ => None,
        }
    }

    /// The code of the category where rows are kept: 1 to [`Category::LAST_CODE`].
    #[tactic(auto, unfolding(crate::specs::Codes::category_code))]
    pub fn code(self) -> u8
        ensures { result ≡ category_code self }
    {
        match self {
            Category::Usage => 1,
            Category::Purchase => 2,
            Category::Tax => 3,
            Category::Credit => 4,
            Category::Adjustment => 5,
        }
    }

    /// The category with this code, or `None` where no category has it.
    pub fn from_code(code: u8) -> Option<Category>
        ensures { result ≡ category_of code }
    {
        match code {
            1 => Some(Category::Usage),
            2 => Some(Category::Purchase),
            3 => Some(Category::Tax),
            4 => Some(Category::Credit),
            5 => Some(Category::Adjustment),
            _ => None,
        }
    }
}
