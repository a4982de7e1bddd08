//! The lines of a text.
ghost use Rattle.std.specs.Prelude.{◌≡◌, ◌≢◌, ℕ, List, [], ◌∷◌, ◌++◌, MatchOption};
ghost use Rattle.fw_script.specs.Lines.{StartsWithLine, FollowsLines, StartsWithLines};

use crate::words::split_at_first;

/// The first line of a text, without the line feed that ends it, and what follows it, or `None` where the text is empty.
pub fn next_line(text: &[u8]) -> Option<(&[u8], &[u8])>
    ensures { MatchOption result (text.now ≡ [])
        (λ parts. StartsWithLine text.now parts.0.now parts.1.now) }
{
    if text.is_empty() {
        return None;
    }
    Some(split_at_first(b'\n', text).unwrap_or((text, b"")))
}

/// What follows the first `count` lines of a text, or `None` where the text has fewer.
fn after_lines(count: u32, text: &[u8]) -> Option<&[u8]>
    ensures { MatchOption result
        ((following : List ℕ) → ¬ FollowsLines count text.now following)
        (λ following. FollowsLines count text.now following.now) }
{
    let mut rest = text;
    for _ in 0..count {
        let (_, following) = next_line(rest)?;
        rest = following;
    }
    Some(rest)
}

/// The first `count` lines of a text, with the line feeds that end them, and what follows them, or `None` where the text has
/// fewer.
pub fn split_lines(count: u32, text: &[u8]) -> Option<(&[u8], &[u8])>
    ensures { MatchOption result
        ((following : List ℕ) → ¬ FollowsLines count text.now following)
        (λ parts. StartsWithLines count text.now parts.0.now parts.1.now) }
{
    let following = after_lines(count, text)?;
    let lines = &text[..text.len() - following.len()];
    Some((lines, following))
}
