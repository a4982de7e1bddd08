//! The state of a warehouse.
ghost use Rattle.std.specs.Prelude.{◌≡◌, ◌<◌, ◌≤◌, ◌++◌, ◌∷◌, [], length, map, slice_get, All, Some, IfOk};
ghost use Rattle.std.specs.Option.{option_copied};
ghost use Rattle.fw_entry.specs.Spelling.{IsEntry};
ghost use Rattle.fw_posted.specs.Rows.{segment_rows};
ghost use Rattle.fw_snapshot.specs.Heads.{head_of};
ghost use Rattle.fw_snapshot.specs.History.{rows_posted, rows_of, committed_of, commitments_of, policy_of, entries_from};
ghost use Rattle.fw_snapshot.specs.History.{is_withdrawn};
ghost use Rattle.fw_snapshot.specs.Judging.{judged, IsLegal, carries, has_post, is_registered, most_rows, most_commitments};
ghost use Rattle.fw_snapshot.specs.declared.verdict.Verdict.TheVariants as verdict;

use crate::head::Head;
use crate::parts::{
    carried_after, commitments_after, commitments_in, committed, content_of, policy_after, posted,
    posted_after, registered_after, row_count, share_list, share_policy, shared_text,
    withdrawn_after,
};
use crate::posts::{Span, entries_from, origins_after, span_named, span_of};
use fw_charge::Currency;
use fw_columns::Columns;
use fw_entry::Entry;
use fw_persistent::{Counters, Map, Sequence};
use fw_posted::{CountingSegments, PostedRows};
use fw_terms::{Commitment, Policy};
use std::alloc::{AllocError, Global};
use std::marker::Model;
use std::sync::Arc;

mod building;
mod joined;

pub use building::StateBuilder;
pub use joined::JoinedState;

/// The state of a warehouse: its currency, and the entries that it accepted, in order.
///
/// A state is never changed. [`State::apply`] makes another, which shares the entries and rows of the first, so it costs what the entry brings,
/// however much was accepted before. A withdrawal costs the number of segments that its rows stand in, however long these are.
pub struct State {
    alloc: Global,
    currency: Currency,
    heads: Sequence<Head>,
    // the rows that were posted, and which of them count
    posted: PostedRows,
    commitments: Option<Arc<Vec<Commitment>>>,
    policy: Option<Arc<Policy>>,
    // where the rows of each origin's entries stand, in the order of its entries
    origins: Map<Sequence<Span>>,
    // how many commitments have each id
    registered: Counters,
    // how many posts have a row that carries each id
    carried: Counters,
    // how many of these are withdrawn
    withdrawn: Counters,
}

impl Drop for State {
    fn drop(self) {
        let Self {
            alloc: _,
            currency: _,
            heads: _,
            posted: _,
            commitments: _,
            policy: _,
            origins: _,
            registered: _,
            carried: _,
            withdrawn: _,
        } = self;
    }
}

impl Model for State {
    ghost use Rattle.fw_snapshot.specs.History.{History};

    ghost Value = { History };

    ghost use Rattle.fw_snapshot.specs.StateView.{state_view, KeepsState};

    ghost view = { state_view };

    ghost invariant = { KeepsState };
}

impl State {
    /// The state of a warehouse of this currency that has accepted nothing. It takes no memory.
    pub fn empty(alloc: Global, currency: Currency) -> State
        ensures { result ≡ record { currency = currency; entries = [] } }
    {
        State {
            alloc,
            currency,
            heads: Sequence::new(),
            posted: PostedRows::new(),
            commitments: None,
            policy: None,
            origins: Map::new(),
            registered: Counters::new(),
            carried: Counters::new(),
            withdrawn: Counters::new(),
        }
    }

    /// The state after an entry that is accepted. The old one stays as it is, and the two share what was accepted before. Of a post the state
    /// keeps the columns, which it shares with the entry.
    /// The error comes where memory ran out.
    pub fn apply(&self, entry: &Entry) -> Result<State, AllocError>
        requires { judged self.now.entries entry.now ≡ verdict.Accept }
        ensures { IfOk result (λ state. state
            ≡ record {
              currency = self.now.currency;
              entries = self.now.entries ++ entry.now
                  ∷ [];
            }) }
    {
        let alloc = self.alloc;
        let command = entry.command();
        let rows = posted(command);
        let commitment = committed(command);
        let content = content_of(alloc, command)?;
        let named = span_named(&self.origins, entry.origin(), content.target());
        let origin = shared_text(alloc, self.origins.key(entry.origin()), entry.origin())?;
        let policy = policy_after(&self.policy, &content)?;
        let commitments = commitments_after(alloc, &self.commitments, &content)?;
        let posted = posted_after(alloc, &self.posted, rows, named)?;
        let span = Span {
            start: self.posted.len(),
            rows: row_count(rows),
        };
        let origins = origins_after(alloc, &self.origins, &origin, span)?;
        let registered = registered_after(alloc, &self.registered, commitment)?;
        let carried = carried_after(alloc, &self.carried, rows)?;
        let withdrawn = withdrawn_after(alloc, &self.withdrawn, &self.posted, named)?;
        let heads = self
            .heads
            .push(alloc, Head::new(origin, entry.seq(), content))?;
        Ok(State {
            alloc,
            currency: self.currency,
            heads,
            posted,
            commitments,
            policy,
            origins,
            registered,
            carried,
            withdrawn,
        })
    }

    /// The same state, which shares everything. It takes no memory. The error comes only where something has as many owners as can be counted.
    pub fn copy(&self) -> Result<State, AllocError>
        ensures { IfOk result (λ copy. copy ≡ self.now) }
    {
        let heads = self.heads.copy()?;
        let posted = self.posted.copy()?;
        let commitments = share_list(&self.commitments)?;
        let policy = share_policy(&self.policy)?;
        let origins = self.origins.copy()?;
        let registered = self.registered.copy()?;
        let carried = self.carried.copy()?;
        let withdrawn = self.withdrawn.copy()?;
        Ok(State {
            alloc: self.alloc,
            currency: self.currency,
            heads,
            posted,
            commitments,
            policy,
            origins,
            registered,
            carried,
            withdrawn,
        })
    }

    /// The same state, whose rows are in few segments: from the front, each segment is joined with the next one as long as they have at most
    /// 65,536 rows together. It costs what the rows of the segments cost that are joined; the others are shared.
    pub fn merged(&self) -> Result<State, AllocError>
        ensures { IfOk result (λ merged. merged ≡ self.now) }
    {
        let mut merged = self.copy()?;
        merged.posted = merged.posted.merged(merged.alloc)?;
        Ok(merged)
    }

    /// The same state, in which the columns of the rows that count are made. Reports on a state after withdrawals make them where they aren't, each
    /// time; on this one they don't. It costs the rows of the segments in which rows were withdrawn since the last time. Where there are none it takes
    /// no memory.
    pub fn settled(&self) -> Result<State, AllocError>
        ensures { IfOk result (λ settled. settled ≡ self.now) }
    {
        let mut settled = self.copy()?;
        settled.posted = settled.posted.settled(settled.alloc)?;
        Ok(settled)
    }

    /// What the state takes its memory from.
    pub(crate) fn allocator(&self) -> Global {
        self.alloc
    }

    /// The currency of the warehouse.
    pub fn currency(&self) -> Currency
        ensures { result ≡ self.now.currency }
    {
        self.currency
    }

    /// How many entries were accepted. Each was the next of its origin, and went with those before it.
    pub fn entries(&self) -> usize
        ensures count { result ≡ length self.now.entries }
        ensures valid { IsLegal self.now.entries }
        ensures each { All IsEntry self.now.entries }
    {
        self.heads.len()
    }

    /// How many rows were ever posted: at most 4,194,304.
    pub fn rows_posted(&self) -> usize
        ensures count { result ≡ length (rows_posted self.now.entries) }
        ensures few { result ≤ most_rows }
    {
        self.posted.len()
    }

    /// How many rows count, which are those of the posts that aren't withdrawn: at most 4,194,304.
    pub fn rows(&self) -> usize
        ensures count { result ≡ length (rows_of self.now.entries) }
        ensures few { result ≤ most_rows }
    {
        self.posted.counting_len()
    }

    /// How many commitments there are: at most 256.
    pub fn commitments(&self) -> usize
        ensures count { result ≡ length (commitments_of self.now.entries) }
        ensures committed { result ≡ length (committed_of self.now.entries) }
        ensures few { result ≤ most_commitments }
    {
        commitments_in(&self.commitments).len()
    }

    /// The head of the entry at a place, counted from 0.
    pub fn head(&self, place: usize) -> &Head
        requires { place < length self.now.entries }
        ensures { slice_get (map head_of self.now.entries) place ≡ Some result.now }
    {
        self.heads.get(place)
    }

    /// The heads of the entries, in order.
    pub fn heads(&self) -> &Sequence<Head>
        ensures { result.now ≡ map head_of self.now.entries }
    {
        &self.heads
    }

    /// The rows that were ever posted, in order, in segments of 1 to 65,536 rows each, and so in at most 4,194,304
    /// segments. Those of withdrawn posts are among them: [`State::counting_segments`] has the rows that count.
    pub fn segments(&self) -> &Sequence<Columns>
        ensures posted { segment_rows result.now ≡ rows_posted self.now.entries }
        ensures few { length result.now ≤ most_rows }
    {
        self.posted.segments()
    }

    /// The rows that count, in order, in segments of 1 to 65,536 rows each, and so in at most 4,194,304 segments: those of the posts that
    /// aren't withdrawn. They share their columns with the state. What was withdrawn since the state was [settled](State::settled) costs
    /// the rows of its segments. The error comes where memory ran out.
    pub fn counting_segments(&self, alloc: Global) -> Result<CountingSegments, AllocError>
        ensures rows { IfOk result (λ segments. segment_rows segments ≡ rows_of self.now.entries) }
        ensures few { IfOk result (λ segments. length segments ≤ most_rows) }
    {
        // Proves that each segment has a row.
        let _stored = self.posted.segments();
        self.posted.counting(alloc)
    }

    /// The commitment at a place, counted from 0, with all its purchases.
    pub fn commitment(&self, place: usize) -> &Commitment
        requires { place < length (commitments_of self.now.entries) }
        ensures { slice_get (commitments_of self.now.entries) place ≡ Some result.now }
    {
        &self.commitment_list()[place]
    }

    /// The commitments, in the order in which they were accepted, each with all its purchases: its own, and behind them those that were added
    /// to it.
    pub fn commitment_list(&self) -> &[Commitment]
        ensures { result.now ≡ commitments_of self.now.entries }
    {
        commitments_in(&self.commitments)
    }

    /// The policy that was set last, if one was.
    pub fn policy(&self) -> Option<&Policy>
        ensures { option_copied result ≡ policy_of self.now.entries }
    {
        match &self.policy {
            Some(policy) => Some(policy),
            None => None,
        }
    }

    /// How many entries of an origin were accepted, which is the number of its last one.
    pub(crate) fn accepted_from(&self, origin: &str) -> u64
        ensures { result ≡ entries_from origin.now self.now.entries }
    {
        entries_from(&self.origins, origin)
    }

    /// Whether an origin had a post of this number accepted.
    pub fn has_post(&self, origin: &str, seq: u64) -> bool
        ensures { result ≡ has_post self.now.entries origin.now seq }
    {
        span_of(&self.origins, origin, seq).is_some()
    }

    /// Whether the post of this origin and number was withdrawn.
    pub fn is_withdrawn(&self, origin: &str, seq: u64) -> bool
        ensures { result ≡ is_withdrawn self.now.entries origin.now seq }
    {
        match span_of(&self.origins, origin, seq) {
            Some(span) => !self.posted.counts(span.start),
            None => false,
        }
    }

    /// Whether there is a commitment of this id.
    pub(crate) fn is_registered(&self, id: &str) -> bool
        ensures committed { result ≡ is_registered id.now (committed_of self.now.entries) }
        ensures with_all { result ≡ is_registered id.now (commitments_of self.now.entries) }
    {
        self.registered.count(id) > 0
    }

    /// Whether a row that counts carries this id.
    pub(crate) fn is_carried(&self, id: &str) -> bool
        ensures { result ≡ carries id.now (rows_of self.now.entries) }
    {
        self.carried.count(id) > self.withdrawn.count(id)
    }
}
