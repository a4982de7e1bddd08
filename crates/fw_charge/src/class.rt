//! ChargeClass: whether a row corrects a charge of an earlier billing period. It is kept as a `bool`.
ghost use Rattle.std.specs.Prelude.{◌≡◌, Bool, MatchOption};
ghost use Rattle.fw_charge.specs.Codes.{class_word, class_code, class_of};

/// Whether a text of the column ChargeClass is that of a correction: `false` where it is empty, for null, `true` where it is
/// `Correction`, and `None` where it is anything else.
#[tactic(auto, unfolding(crate::specs::Codes::class_word))]
pub fn class_from_word(word: &str) -> Option<bool>
    ensures { MatchOption result ((c : Bool) → ¬ (word.now ≡ class_word c))
        (λ c. word.now ≡ class_word c) }
{
    match word {
        "" => Some(false),
        "Correction" => Some(true),
        _ => None,
    }
}

/// The code of a class where rows are kept: 1 for a correction, 0 for any other row.
#[tactic(auto, unfolding(crate::specs::Codes::class_code))]
pub fn class_code(is_correction: bool) -> u8
    ensures { result ≡ class_code is_correction }
{
    u8::from(is_correction)
}

/// Whether the class with this code is that of a correction, or `None` where no class has it.
pub fn class_from_code(code: u8) -> Option<bool>
    ensures { result ≡ class_of code }
{
    match code {
        0 => Some(false),
        1 => Some(true),
        _ => None,
    }
}
