//! Proof-only functions: they say something of the crate's constants, and do nothing.
ghost use Rattle.std.specs.Prelude.{◌≡◌, ◌≤◌, map};
ghost use Rattle.std.specs.List.{range_with_len};
ghost use Rattle.fw_charge.specs.Charge.{hour_of, last_hour, last_second, longest_short_text, most_post_rows, seconds_per_hour};
ghost use Rattle.fw_charge.specs.Codes.{category_code, category_count};
ghost use Rattle.fw_charge.specs.Tags.{most_tags, longest_tag_text};

use crate::category::Category;
use crate::row::MOST_POST_ROWS;
use crate::short_text::LONGEST_SHORT_TEXT;
use crate::tags::{Tag, Tags};
use crate::time::{LAST_HOUR, LAST_SECOND, SECONDS_PER_HOUR};

/// Each constant is the limit that the rules of a row name.
#[tactic(auto, unfolding(crate::specs::Charge::hour_of))]
pub fn limits_agree()
    ensures tags { Tags.MOST ≡ most_tags }
    ensures tag_text { Tag.LONGEST ≡ longest_tag_text }
    ensures short_text { LONGEST_SHORT_TEXT ≡ longest_short_text }
    ensures second { LAST_SECOND ≡ last_second }
    ensures hour { SECONDS_PER_HOUR ≡ seconds_per_hour }
    ensures last_hour { LAST_HOUR ≡ last_hour }
    ensures last_is_last { hour_of last_second ≡ last_hour }
    ensures post { MOST_POST_ROWS ≡ most_post_rows }
{}

/// The codes of the categories, in the order of [`Category::ALL`], are 1 to [`Category::LAST_CODE`].
#[tactic(auto, using(crate::proofs::CodeFacts::category_within), unfolding(crate::specs::Codes::category_code))]
pub fn categories_are_counted()
    ensures count { Category.COUNT ≡ category_count }
    ensures last { Category.LAST_CODE ≡ category_count }
    ensures codes { map category_code Category.ALL ≡ range_with_len 1 category_count }
    ensures within { (k : Category) → (1 ≤ category_code k) × (category_code k ≤ category_count) }
{}
