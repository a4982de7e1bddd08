//! The reader and the writer of a state.
ghost use Rattle.std.specs.Prelude.{◌≡◌, ◌++◌, ◌<◌, ◌≤◌, [], ℕ, List, length, map, true, unwrap_or, All, OnOk, IfOk};
ghost use Rattle.fw_bytes.specs.Reading.{Gives, seen, times};
ghost use Rattle.fw_bytes.specs.Spelling.{listed, text, Fits64};
ghost use Rattle.fw_charge.specs.Charge.{Charge};
ghost use Rattle.fw_charge.specs.Currencies.{IsCode};
ghost use Rattle.fw_entry.specs.Spelling.{IsEntry};
ghost use Rattle.fw_snapshot.specs.Building.{left_rows, next_entry, with_next};
ghost use Rattle.fw_snapshot.specs.History.{rows_posted};
ghost use Rattle.fw_snapshot.specs.Judging.{most_rows, IsLegal};
ghost use Rattle.fw_posted.specs.Rows.{segment_rows};
ghost use Rattle.fw_snapshot.specs.Heads.{head_of, row_count, row_counts};
ghost use Rattle.fw_snapshot.specs.Verdicts.{goes_behind};
ghost use Rattle.fw_segment.specs.HeadView.{content_view, head_view};
ghost use Rattle.fw_segment.specs.Heads.{IsHead, heads};
ghost use Rattle.fw_segment.specs.Segments.{segment, segment_at};
ghost use Rattle.fw_segment.specs.States.{Spells, SpellsByColumn, SpellsJoined, continued, currency_at, parts_at, rows_at, state_at, state_from};
ghost use Rattle.fw_segment.specs.declared.layout.SegmentLayout.TheVariants as layout;
ghost use Rattle.fw_row_table.specs.Table.{most_column_rows};

use crate::heads::{ReadHead, heads_of, put_head};
use crate::layout::SegmentLayout;
use crate::segments::{put_segment, segment_of};
use fw_bytes::{ReadError, put_u32, put_u64, str_at, u32_at};
use fw_charge::Currency;
use fw_columns::Columns;
use fw_entry_bytes::Form;
use fw_persistent::Sequence;
use fw_snapshot::{JoinedState, State, StateBuilder};
use std::alloc::{AllocError, Global};

/// The bytes before the first head: the length of the currency, its three letters, and the number of heads.
const BYTES_BEFORE_HEADS: usize = 15;

/// A currency, and the bytes after it. Takes no memory.
#[tactic(auto, unfolding(crate::specs::States::currency_at, fw_bytes::specs::Reading::checked))]
fn currency_of(bytes: &[u8]) -> Result<(Currency, &[u8]), ReadError>
    ensures { Gives (λ x. (x.0, x.1.now)) result (currency_at bytes.now) }
{
    let (code, rest) = str_at(bytes)?;
    match Currency::new(code.as_bytes()) {
        Some(currency) => Ok((currency, rest)),
        None => Err(ReadError::Corrupt(bytes.len())),
    }
}

/// The parts of a state: its currency, its heads, and its segments.
#[derive(Drop)]
struct Parts {
    currency: Currency,
    heads: Vec<ReadHead>,
    segments: Sequence<Columns>,
}

/// Up to how many rows the segments of a body are joined as they are read. A checkpoint writes long ones. A body of very short ones, as another
/// program may write it, takes no more memory than its rows do.
const FEW_ROWS: usize = 32;

/// Segments without their last one, and the last one, with the next one behind them: it is joined to the last one where they have few rows together.
fn with_next(
    alloc: Global,
    segments: Sequence<Columns>,
    last: Option<Columns>,
    next: Columns,
) -> Result<(Sequence<Columns>, Columns), AllocError>
    ensures { IfOk result (λ x.
        segment_rows x.0 ++ x.1 ≡ (segment_rows segments ++ unwrap_or last []) ++ next) }
{
    let Some(last) = last else {
        return Ok((segments, next));
    };
    if last.len() + next.len() <= FEW_ROWS {
        let joined = Columns::concat(alloc, &last, &next)?;
        return Ok((segments, joined));
    }
    let segments = segments.push(alloc, last)?;
    Ok((segments, next))
}

/// Segments, with the last one behind them, if there is one.
fn with_last(
    alloc: Global,
    segments: Sequence<Columns>,
    last: Option<Columns>,
) -> Result<Sequence<Columns>, AllocError>
    ensures { IfOk result (λ all. segment_rows all ≡ segment_rows segments ++ unwrap_or last []) }
{
    match last {
        Some(last) => segments.push(alloc, last),
        None => Ok(segments),
    }
}

/// The rows of so many segments, in segments. Memory is taken as each is read, not for the count.
fn segments_after(
    alloc: Global,
    count: u32,
    bytes: &[u8],
) -> Result<(Sequence<Columns>, &[u8]), ReadError>
    ensures { Gives (λ x. (segment_rows x.0, x.1.now)) result
        (seen segment_rows (times segment_at count) bytes.now) }
{
    let mut segments = Sequence::new();
    let mut last: Option<Columns> = None;
    let mut rest = bytes;
    for _ in 0..count {
        match segment_of(alloc, rest) {
            Ok((next, after)) => {
                let (before, joined) = with_next(alloc, segments, last, next)?;
                segments = before;
                last = Some(joined);
                rest = after;
            }
            Err(e) => return Err(e),
        }
    }
    let segments = with_last(alloc, segments, last)?;
    Ok((segments, rest))
}

/// The segments behind their number.
#[tactic(auto, unfolding(crate::specs::States::rows_at, fw_bytes::specs::Reading::list_at, fw_bytes::specs::Reading::seen))]
fn segments_of(alloc: Global, bytes: &[u8]) -> Result<(Sequence<Columns>, &[u8]), ReadError>
    ensures { Gives (λ x. (segment_rows x.0, x.1.now)) result (rows_at bytes.now) }
{
    let (count, rest) = u32_at(bytes)?;
    match segments_after(alloc, count, rest) {
        Ok((segments, rest)) => Ok((segments, rest)),
        Err(e) => Err(e),
    }
}

/// The parts of a state, in order, and the bytes after them.
#[tactic(auto, unfolding(crate::specs::States::parts_at, fw_bytes::specs::Reading::both))]
fn parts_of(alloc: Global, form: Form, bytes: &[u8]) -> Result<(Parts, &[u8]), ReadError>
    ensures parts { Gives (λ x. (
      (
        x.0.currency,
        (map head_view x.0.heads.items, segment_rows x.0.segments),
      ),
      x.1.now,
    )) result
        (parts_at form bytes.now) }
    ensures heads { IfOk result (λ x. All IsHead (map head_view x.0.heads.items)) }
{
    match currency_of(bytes) {
        Ok((currency, rest)) => {
            let (heads, rest) = heads_of(alloc, form, rest)?;
            match segments_of(alloc, rest) {
                Ok((segments, rest)) => Ok((
                    Parts {
                        currency,
                        heads,
                        segments,
                    },
                    rest,
                )),
                Err(e) => Err(e),
            }
        }
        Err(e) => Err(e),
    }
}

/// How many rows there are in segments.
fn rows_in(segments: &Sequence<Columns>) -> u128
    ensures { result ≡ length (segment_rows segments.now) }
{
    let mut rows = 0;
    for place in 0..segments.len() {
        rows += segments.get(place).len() as u128;
    }
    rows
}

/// How many rows heads say that there are.
fn rows_said(heads: &[ReadHead]) -> u128
    requires { All IsHead (map head_view heads.now) }
    ensures { result ≡ row_counts (map head_view heads.now) }
{
    let mut rows = 0;
    for head in heads {
        rows += head.rows() as u128;
    }
    rows
}

/// Puts the entry of a head behind the others, and answers whether it was, as [`StateBuilder::add`] says.
fn add(alloc: Global, builder: &mut StateBuilder, head: ReadHead) -> Result<bool, AllocError>
    requires head { IsHead (head_view head) }
    requires enough { row_count (content_view head.content) ≤ length (left_rows builder.old) }
    ensures answer { IfOk result (λ added. added
        ≡ goes_behind builder.old.history.entries (next_entry builder.old (head_view head))) }
    ensures added { IfOk result (λ added. added ≡ true
        → builder.new ≡ with_next builder.old (head_view head)) }
{
    let ReadHead {
        origin,
        seq,
        content,
    } = head;
    let content = content.kept(alloc)?;
    builder.add(&origin, seq, content)
}

/// The state after the entries of heads, or a fault at the first that isn't accepted after those before it: so many bytes are left from the first
/// head on.
fn state_after(
    alloc: Global,
    builder: StateBuilder,
    heads: Vec<ReadHead>,
    left: usize,
) -> Result<State, ReadError>
    requires heads { All IsHead (map head_view heads.items) }
    requires count { length (left_rows builder) ≡ row_counts (map head_view heads.items) }
    ensures { Gives (λ s. s) result (continued left builder.history (map head_view heads.items)
        (left_rows builder)) }
{
    let mut builder = builder;
    let mut left = left;
    for head in heads {
        let len = head.encoded_len();
        if !add(alloc, &mut builder, head)? {
            return Err(ReadError::Corrupt(left));
        }
        left = left.saturating_sub(len);
    }
    Ok(builder.finish()?)
}

/// The state of parts that are all of so many bytes.
#[tactic(auto, unfolding(crate::specs::States::state_from, crate::specs::States::replayed_state))]
fn state_of_parts(alloc: Global, parts: Parts, total: usize) -> Result<State, ReadError>
    requires { All IsHead (map head_view parts.heads.items) }
    ensures { Gives (λ s. s) result (state_from total
        (parts.currency, (map head_view parts.heads.items, segment_rows parts.segments))) }
{
    let Parts {
        currency,
        heads,
        segments,
    } = parts;
    if rows_in(&segments) != rows_said(&heads) {
        return Err(ReadError::Corrupt(total));
    }
    let builder = StateBuilder::new(alloc, currency, segments)?;
    state_after(
        alloc,
        builder,
        heads,
        total.saturating_sub(BYTES_BEFORE_HEADS),
    )
}

/// The state that is all of the bytes.
#[tactic(auto, unfolding(crate::specs::States::state_at, fw_entry_bytes::specs::Whole::whole))]
pub fn state_of(alloc: Global, form: Form, bytes: &[u8]) -> Result<State, ReadError>
    ensures { Gives (λ s. s) result (state_at form bytes.now) }
{
    match parts_of(alloc, form, bytes) {
        Ok((parts, [])) => state_of_parts(alloc, parts, bytes.len()),
        Ok((_, rest)) => Err(ReadError::Corrupt(rest.len())),
        Err(e) => Err(e),
    }
}

/// Writes the heads of a state: their number, and each in turn.
#[tactic(auto, unfolding(crate::specs::Heads::heads))]
fn put_heads(out: &mut Vec<u8>, state: &State) -> Result<(), AllocError>
    ensures spelled { OnOk result (out.new.items
        ≡ out.old.items ++ heads (map head_of state.now.entries)) }
    ensures count { Fits64 (length state.now.entries) }
    ensures legal { IsLegal state.now.entries }
    ensures each { All IsEntry state.now.entries }
{
    let count = state.entries();
    put_u64(out, count as u64)?;
    for place in 0..count {
        put_head(out, state.head(place))?;
    }
    Ok(())
}

/// Writes segments by column: their number, and each in turn.
fn put_segments(out: &mut Vec<u8>, segments: &Sequence<Columns>) -> Result<(), AllocError>
    requires { length segments.now ≤ most_rows }
    ensures spelled { OnOk result (out.new.items
        ≡ out.old.items ++ listed (segment layout.Columns) segments.now) }
    ensures sized { OnOk result (All (λ rows. (0 < length rows) × (length rows ≤ most_column_rows))
        segments.now) }
{
    let count = segments.len();
    put_u32(out, count as u32)?;
    for place in 0..count {
        put_segment(out, segments.get(place), SegmentLayout::Columns)?;
    }
    Ok(())
}

/// Appends the bytes of a state, each of its segments as one, by column: a spelling of it, behind what the buffer holds.
///
/// # Errors
/// [`AllocError`] where memory ran out. Then nothing is promised of what the buffer holds.
pub fn append_state(out: &mut Vec<u8>, one: &State) -> Result<(), AllocError>
    ensures spelled { OnOk result ((body : List ℕ) × (out.new.items ≡ out.old.items ++ body)
        × Spells body one.now) }
    ensures by_column { OnOk result ((body : List ℕ) × (out.new.items ≡ out.old.items ++ body)
        × (segments : List (List Charge)) × SpellsByColumn body one.now segments) }
{
    append_by_column(out, one, one.segments())?;
    Ok(())
}

/// Appends the bytes of a state whose short segments are joined, each of them by column: a spelling of it, behind what the buffer holds.
///
/// # Errors
/// [`AllocError`] where memory ran out. Then nothing is promised of what the buffer holds.
pub fn append_joined(out: &mut Vec<u8>, one: &JoinedState) -> Result<(), AllocError>
    ensures { OnOk result ((body : List ℕ) × (out.new.items ≡ out.old.items ++ body)
        × Spells body one.now.history × SpellsJoined body one.now.history one.now.segments) }
{
    append_by_column(out, one.state(), one.segments())?;
    Ok(())
}

/// Appends the bytes of a state by these segments of its rows, each of them by column.
fn append_by_column(
    out: &mut Vec<u8>,
    state: &State,
    segments: &Sequence<Columns>,
) -> Result<(), AllocError>
    requires posted { segment_rows segments.now ≡ rows_posted state.now.entries }
    requires few { length segments.now ≤ most_rows }
    ensures { OnOk result ((body : List ℕ) × (out.new.items ≡ out.old.items ++ body)
        × SpellsByColumn body state.now segments.now) }
{
    put_currency(out, state.currency())?;
    put_heads(out, state)?;
    put_segments(out, segments)?;
    Ok(())
}

/// Writes a currency: three letters behind their number.
fn put_currency(out: &mut Vec<u8>, currency: Currency) -> Result<(), AllocError>
    ensures spelled { OnOk result (out.new.items ≡ out.old.items ++ text currency) }
    ensures valid { IsCode currency }
{
    let code = currency.code();
    put_u32(out, code.len() as u32)?;
    out.extend_from_slice(code)
}
