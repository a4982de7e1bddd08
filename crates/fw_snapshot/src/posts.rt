//! Where the rows of each origin's entries stand among all rows that were posted.
ghost use Rattle.std.specs.Prelude.{◌≡◌, ◌∷◌, ◌++◌, [], ℕ, List, IfOk, length, string_bytes, if◌then◌else◌};
ghost use Rattle.std.specs.Str.{bytes_eq};
ghost use Rattle.fw_snapshot.specs.Posts.{named_in, span_in, spans_at};

use fw_persistent::{Map, Sequence};
use std::alloc::{AllocError, Global};
use std::sync::Arc;

/// Where the rows of an entry stand among all rows that were posted: behind so many, and how many they are. There are none where it is no post.
#[derive(Clone, Copy, Drop)]
pub struct Span {
    pub start: usize,
    pub rows: usize,
}

/// How many entries an origin has.
pub(crate) fn entries_from(origins: &Map<Sequence<Span>>, origin: &str) -> u64
    ensures { result ≡ length (spans_at origin.now origins.now) }
{
    match origins.get(origin) {
        Some(spans) => spans.len() as u64,
        None => 0,
    }
}

/// Where the rows of an origin's post of this number stand: `None` where the entry of this number is no post, or there is none.
#[tactic(auto, unfolding(crate::specs::Posts::span_in))]
pub(crate) fn span_of(origins: &Map<Sequence<Span>>, origin: &str, seq: u64) -> Option<Span>
    ensures { result ≡ span_in (spans_at origin.now origins.now) seq }
{
    let spans = origins.get(origin)?;
    if seq == 0 || seq > spans.len() as u64 {
        return None;
    }
    let span = spans.get(seq as usize - 1);
    if span.rows == 0 {
        return None;
    }
    Some(*span)
}

/// Where the rows stand of the post that an entry of this origin withdraws, if it withdraws one.
#[tactic(auto, unfolding(crate::specs::Posts::named_in))]
pub(crate) fn span_named(
    origins: &Map<Sequence<Span>>,
    origin: &str,
    target: Option<u64>,
) -> Option<Span>
    ensures { result ≡ named_in (spans_at origin.now origins.now) target }
{
    match target {
        Some(seq) => span_of(origins, origin, seq),
        None => None,
    }
}

/// The spans with one more behind those of an origin.
pub(crate) fn origins_after(
    alloc: Global,
    origins: &Map<Sequence<Span>>,
    origin: &Arc<String>,
    span: Span,
) -> Result<Map<Sequence<Span>>, AllocError>
    ensures { IfOk result (λ after. (other : List ℕ)
        → spans_at other after ≡ spans_at other origins.now
        ++ (if bytes_eq other (string_bytes origin.now.value) then span ∷ [] else [])) }
{
    let spans = match origins.get(origin.as_str()) {
        Some(spans) => spans.push(alloc, span)?,
        None => Sequence::new().push(alloc, span)?,
    };
    origins.put(alloc, origin, spans)
}
