//! A state that is made again of its parts: of its segments as they stand, and of the heads of its entries, one after the other.
ghost use Rattle.std.specs.Prelude.{◌≡◌, ◌<◌, ◌≤◌, ◌+◌, ◌++◌, ◌∷◌, ◌||◌, [], ℕ, List, false, true, if◌then◌else◌, length, take, drop, slice_get, slice_range, All, IsTrue, Some, IfOk, IfSome, OnErr};
ghost use Rattle.std.specs.List.{list_any};
ghost use Rattle.std.specs.Option.{option_map_or};
ghost use Rattle.std.specs.Str.{bytes_eq};
ghost use Rattle.fw_bytes.specs.Spelling.{listed};
ghost use Rattle.fw_charge.specs.Charge.{most_post_rows};
ghost use Rattle.fw_charge.specs.Spelling.{row, IsRow};
ghost use Rattle.fw_entry.specs.Entry.{is_origin, most_origin_bytes};
ghost use Rattle.fw_entry.specs.Entry.CommandValue.{withdraw};
ghost use Rattle.fw_entry.specs.Spelling.{brought, IsCommand};
ghost use Rattle.fw_persistent.specs.Counts.{count_of};
ghost use Rattle.fw_snapshot.specs.Building.{has_counted_id, left_rows, next_entry, rows_before, with_next, IsInside};
ghost use Rattle.fw_posted.specs.Rows.{segment_rows};
ghost use Rattle.fw_snapshot.specs.Heads.{command_of, row_count, HasRows};
ghost use Rattle.fw_snapshot.specs.HeadView.{content_view};
ghost use Rattle.fw_snapshot.specs.History.{committed, committed_of, commitments_of, entries_from, policy_after, rows_of};
ghost use Rattle.fw_snapshot.specs.Judging.{carries, carries_any, command_conflict, is_registered, judged};
ghost use Rattle.fw_posted.specs.Marks.{without};
ghost use Rattle.fw_snapshot.specs.History.{is_withdrawn};
ghost use Rattle.fw_snapshot.specs.Judging.{has_post};
ghost use Rattle.fw_snapshot.specs.Adding.{commitments_after, NoneRefuses};
ghost use Rattle.fw_snapshot.specs.Held.{held_commitments, held_policy};
ghost use Rattle.fw_snapshot.specs.Posts.{counts_of, spans_at, times_named};
ghost use Rattle.fw_snapshot.specs.Uses.{commitments_with, posts_with};
ghost use Rattle.fw_snapshot.specs.Verdicts.{goes_behind};

use crate::head::{Content, Head};
use crate::judging::{
    commitment_conflict, is_refused, out_of_turn, purchase_conflict, rows_conflict,
    withdrawal_conflict,
};
use crate::parts::{
    carried_with_run, commitments_after, commitments_in, policy_after, registered_after,
    shared_text, withdrawn_after,
};
use crate::places::{Place, Run, next_run};
use crate::posts::{Span, entries_from, origins_after, span_named, span_of};
use crate::state::State;
use crate::verdict::{Conflict, Verdict};
use fw_charge::Currency;
use fw_columns::{Columns, LentRow};
use fw_entry::Entry;
use fw_persistent::{Counters, Map, Sequence};
use fw_posted::PostedRows;
use fw_terms::{
    Commitment, Policy, added_has_spelling, added_len, commitment_has_spelling, commitment_len,
    policy_has_spelling, policy_len,
};
use std::alloc::{AllocError, Global};
use std::marker::Model;
use std::sync::Arc;

/// What the entries so far come to, beside their rows and what these carry.
#[derive(Drop)]
struct Parts {
    heads: Sequence<Head>,
    commitments: Option<Arc<Vec<Commitment>>>,
    policy: Option<Arc<Policy>>,
    origins: Map<Sequence<Span>>,
    registered: Counters,
    withdrawn: Counters,
}

/// What an entry brings that is put behind others.
#[derive(Drop)]
struct Brought {
    // how many bytes it is written in, behind the byte of its kind
    len: usize,
    // whether one of its rows carries the id of a commitment
    own: bool,
    // how many posts have a row that carries each id, with this one
    carried: Counters,
    // the place behind its rows
    place: Place,
}

/// A state that is made again: its segments are there, and the heads of its entries are added in order. The rows of a post are the next ones of the
/// segments, which stay as they stand, wherever a post ends.
pub struct StateBuilder {
    alloc: Global,
    currency: Currency,
    parts: Parts,
    // how many posts have a row that carries each id
    carried: Counters,
    posted: PostedRows,
    // for each row whether it counts: those that aren't taken yet do
    marks: Vec<bool>,
    // the place before the next row
    place: Place,
    // how many rows are taken
    rows: usize,
}

impl Drop for StateBuilder {
    fn drop(self) {
        let Self {
            alloc: _,
            currency: _,
            parts: _,
            carried: _,
            posted: _,
            marks: _,
            place: _,
            rows: _,
        } = self;
    }
}

impl Model for StateBuilder {
    ghost use Rattle.fw_snapshot.specs.Building.{Built};

    ghost Value = { Built };

    ghost use Rattle.fw_snapshot.specs.BuilderView.{builder_view, KeepsBuilder};

    ghost view = { builder_view };

    ghost invariant = { KeepsBuilder };
}

impl StateBuilder {
    /// The state of a warehouse of this currency that has accepted nothing, before the first row of these segments.
    /// The error comes where memory ran out.
    pub fn new(
        alloc: Global,
        currency: Currency,
        segments: Sequence<Columns>,
    ) -> Result<StateBuilder, AllocError>
        ensures { IfOk result (λ builder. builder
            ≡ record {
              history = record { currency = currency; entries = [] };
              segments = segments;
              taken = 0;
            }) }
    {
        let posted = PostedRows::all_of(alloc, segments)?;
        let marks = vec![in alloc; true; posted.len()]?;
        Ok(StateBuilder {
            alloc,
            currency,
            parts: Parts {
                heads: Sequence::new(),
                commitments: None,
                policy: None,
                origins: Map::new(),
                registered: Counters::new(),
                withdrawn: Counters::new(),
            },
            carried: Counters::new(),
            posted,
            marks,
            place: Place { segment: 0, row: 0 },
            rows: 0,
        })
    }

    /// Puts the entry of a head behind the others, and answers whether it was: it is written in at most 4,194,304 bytes, and accepted after them. Of a
    /// post the rows are the next ones.
    /// The error comes where memory ran out. Then, and where the entry is refused, all stays as it was.
    pub fn add(&mut self, origin: &str, seq: u64, content: Content) -> Result<bool, AllocError>
        requires origin { IsTrue (is_origin origin.now) }
        requires seq { 0 < seq }
        requires content { HasRows (content_view content) }
        requires enough { row_count (content_view content) ≤ length (left_rows self.old) }
        ensures answer { IfOk result (λ added. added
            ≡ goes_behind self.old.history.entries
            (next_entry self.old (record
            { origin = origin.now; seq = seq; content = content_view content }))) }
        ensures added { IfOk result (λ added. added ≡ true
            → self.new ≡ with_next self.old
            (record { origin = origin.now; seq = seq; content = content_view content })) }
        ensures refused { IfOk result (λ added. added ≡ false → self.new ≡ self.old) }
        ensures no_memory { OnErr result (self.new ≡ self.old) }
    {
        let brought = self.brought(&content)?;
        if !self.accepts(origin, seq, &content, &brought) {
            return Ok(false);
        }
        let named = span_named(&self.parts.origins, origin, content.target());
        let rows = content.rows();
        let span = Span {
            start: self.rows,
            rows,
        };
        let parts = self.parts.after(self.alloc, &self.posted, origin, seq, content, span, named)?;
        self.parts = parts;
        self.carried = brought.carried;
        self.place = brought.place;
        self.rows += rows;
        take_away(&mut self.marks, named);
        Ok(true)
    }

    /// The state, once all rows are taken.
    /// The error comes where memory ran out.
    pub fn finish(self) -> Result<State, AllocError>
        requires { length (left_rows self) ≡ 0 }
        ensures { IfOk result (λ state. state ≡ self.history) }
    {
        let segments = self.posted.segments().copy()?;
        let posted = PostedRows::marked(self.alloc, segments, &self.marks)?;
        Ok(self.with_posted(posted))
    }

    // The state that has these as its rows, once all rows are taken.
    fn with_posted(self, posted: PostedRows) -> State
        requires taken { length (left_rows self) ≡ 0 }
        requires rows { posted.segments ≡ self.segments }
        requires counts { posted.counts ≡ counts_of self.history.entries }
        ensures { result ≡ self.history }
    {
        let StateBuilder {
            alloc,
            currency,
            parts,
            carried,
            posted: _,
            marks: _,
            place: _,
            rows: _,
        } = self;
        let Parts {
            heads,
            commitments,
            policy,
            origins,
            registered,
            withdrawn,
        } = parts;
        State {
            alloc,
            currency,
            heads,
            posted,
            commitments,
            policy,
            origins,
            registered,
            carried,
            withdrawn,
        }
    }

    // What an entry of this content brings, whose rows are the next ones.
    fn brought(&self, content: &Content) -> Result<Brought, AllocError>
        requires content { HasRows (content_view content.now) }
        requires enough { row_count (content_view content.now) ≤ length (left_rows self.now) }
        ensures len { IfOk result (λ b. b.len ≡ length
            (brought (command_of (content_view content.now)
            (take (row_count (content_view content.now)) (left_rows self.now))))) }
        ensures valid { IfOk result (λ _. IsCommand
            (command_of (content_view content.now)
            (take (row_count (content_view content.now)) (left_rows self.now)))) }
        ensures few { IfOk result (λ b. b.len < 4294967296) }
        ensures own { IfOk result (λ b. b.own ≡ carries_any
            (take (row_count (content_view content.now)) (left_rows self.now))
            (committed_of self.now.history.entries)) }
        ensures carried { IfOk result (λ b. (id : List ℕ)
            → count_of id b.carried ≡ posts_with id self.now.history.entries
            + (if carries id (take (row_count (content_view content.now)) (left_rows self.now))
            then 1 else 0)) }
        ensures place { IfOk result (λ b. rows_before self.now.segments b.place
            ≡ self.now.taken + row_count (content_view content.now)) }
        ensures inside { IfOk result (λ b. IsInside self.now.segments b.place) }
    {
        match content {
            Content::Post { rows } => posted(
                self.alloc,
                self.posted.segments(),
                self.place,
                *rows as usize,
                &self.parts.registered,
                &self.carried,
            ),
            Content::Commit(commitment) => {
                commitment_has_spelling(commitment);
                self.without_rows(commitment_len(commitment))
            }
            Content::SetPolicy(policy) => {
                policy_has_spelling(policy);
                self.without_rows(policy_len(policy))
            }
            Content::Withdraw(seq) => self.without_rows(withdrawal_len(*seq)),
            Content::AddPurchase(added) => {
                added_has_spelling(added);
                self.without_rows(added_len(added))
            }
        }
    }

    // What an entry brings that is written in so many bytes and has no rows.
    fn without_rows(&self, len: usize) -> Result<Brought, AllocError>
        ensures len { IfOk result (λ b. b.len ≡ len) }
        ensures own { IfOk result (λ b. b.own ≡ false) }
        ensures carried { IfOk result (λ b. (id : List ℕ)
            → count_of id b.carried ≡ posts_with id self.now.history.entries) }
        ensures place { IfOk result (λ b. rows_before self.now.segments b.place ≡ self.now.taken) }
        ensures inside { IfOk result (λ b. IsInside self.now.segments b.place) }
    {
        Ok(Brought {
            len,
            own: false,
            carried: self.carried.copy()?,
            place: self.place,
        })
    }

    // Whether an entry is written in at most 4,194,304 bytes and accepted, which brings this.
    #[tactic(auto, unfolding(crate::specs::Verdicts::goes_behind, fw_entry::specs::Spelling::entry, fw_entry::specs::Spelling::command))]
    fn accepts(&self, origin: &str, seq: u64, content: &Content, brings: &Brought) -> bool
        requires enough { row_count (content_view content.now) ≤ length (left_rows self.now) }
        requires len { brings.now.len ≡ length (brought
            (command_of (content_view content.now)
            (take (row_count (content_view content.now)) (left_rows self.now)))) }
        requires few { brings.now.len < 4294967296 }
        requires origin { length origin.now ≤ most_origin_bytes }
        requires own { brings.now.own ≡ carries_any
            (take (row_count (content_view content.now)) (left_rows self.now))
            (committed_of self.now.history.entries) }
        ensures { result ≡ goes_behind self.now.history.entries
            (next_entry self.now (record
            { origin = origin.now; seq = seq; content = content_view content.now })) }
    {
        let len = 13 + origin.len() + brings.len;
        len <= Entry::MOST_BYTES && self.verdict(origin, seq, content, brings.own).is_accept()
    }

    // The verdict on an entry, where its rows carry the id of a commitment or don't.
    #[tactic(auto, using(std::proofs::lemmas::Bool::Decides::nat_tests), unfolding(crate::specs::Judging::judged))]
    fn verdict(&self, origin: &str, seq: u64, content: &Content, own: bool) -> Verdict
        requires own { own ≡ carries_any (take (row_count (content_view content.now))
            (left_rows self.now)) (committed_of self.now.history.entries) }
        requires enough { row_count (content_view content.now) ≤ length (left_rows self.now) }
        ensures { result ≡ judged self.now.history.entries
            (next_entry self.now (record
            { origin = origin.now; seq = seq; content = content_view content.now })) }
    {
        if let Some(verdict) = out_of_turn(self.accepted_from(origin), seq) {
            return verdict;
        }
        match self.conflict(origin, content, own) {
            None => Verdict::Accept,
            Some(why) => Verdict::Refused(why),
        }
    }

    // Why what an entry brings can't follow, if it can't, where its rows carry the id of a commitment or don't.
    fn conflict(&self, origin: &str, content: &Content, own: bool) -> Option<Conflict>
        requires own { own ≡ carries_any (take (row_count (content_view content.now))
            (left_rows self.now)) (committed_of self.now.history.entries) }
        requires enough { row_count (content_view content.now) ≤ length (left_rows self.now) }
        ensures { result ≡ command_conflict self.now.history.entries origin.now
            (command_of (content_view content.now)
            (take (row_count (content_view content.now)) (left_rows self.now))) }
    {
        match content {
            Content::Post { rows } => rows_conflict(self.rows, *rows as usize, own),
            Content::Commit(commitment) => commitment_conflict(
                self.is_registered(commitment.id()),
                self.is_carried(commitment.id()),
                commitments_in(&self.parts.commitments).len(),
            ),
            Content::SetPolicy(_) => None,
            Content::Withdraw(seq) => {
                withdrawal_conflict(self.has_post(origin, *seq), self.is_withdrawn(origin, *seq))
            }
            Content::AddPurchase(added) => purchase_conflict(
                self.is_registered(added.id()),
                is_refused(commitments_in(&self.parts.commitments), added),
            ),
        }
    }

    // How many entries of an origin were accepted.
    fn accepted_from(&self, origin: &str) -> u64
        ensures { result ≡ entries_from origin.now self.now.history.entries }
    {
        entries_from(&self.parts.origins, origin)
    }

    // Whether an origin had a post of this number accepted.
    fn has_post(&self, origin: &str, seq: u64) -> bool
        ensures { result ≡ has_post self.now.history.entries origin.now seq }
    {
        span_of(&self.parts.origins, origin, seq).is_some()
    }

    // Whether the post of this origin and number was withdrawn.
    fn is_withdrawn(&self, origin: &str, seq: u64) -> bool
        ensures { result ≡ is_withdrawn self.now.history.entries origin.now seq }
    {
        match span_of(&self.parts.origins, origin, seq) {
            Some(span) => !self.marks[span.start],
            None => false,
        }
    }

    // Whether there is a commitment of this id.
    fn is_registered(&self, id: &str) -> bool
        ensures committed { result ≡ is_registered id.now (committed_of self.now.history.entries) }
        ensures with_all { result ≡ is_registered id.now (commitments_of self.now.history.entries) }
    {
        self.parts.registered.count(id) > 0
    }

    // Whether a row that counts carries this id.
    fn is_carried(&self, id: &str) -> bool
        ensures { result ≡ carries id.now (rows_of self.now.history.entries) }
    {
        self.carried.count(id) > self.parts.withdrawn.count(id)
    }
}

impl Parts {
    // The parts with an entry behind the others, whose rows stand there, and which withdraws the post of a span or none.
    // The error comes where memory ran out.
    fn after(
        &self,
        alloc: Global,
        posted: &PostedRows,
        origin: &str,
        seq: u64,
        content: Content,
        span: Span,
        named: Option<Span>,
    ) -> Result<Parts, AllocError>
        requires commitments { NoneRefuses (held_commitments self.now.commitments)
            (command_of (content_view content) []) }
        requires within { IfSome named (λ span. span.start + span.rows
            ≤ length (segment_rows posted.now.segments)) }
        requires some { IfSome named (λ span. 0 < span.rows) }
        requires few { IfSome named (λ span. span.rows ≤ most_post_rows) }
        ensures heads { IfOk result (λ parts. parts.heads
            ≡ self.now.heads ++ record {
              origin = origin.now;
              seq = seq;
              content = content_view
                  content;
            } ∷ []) }
        ensures commitments { IfOk result (λ parts. held_commitments parts.commitments
            ≡ commitments_after (held_commitments self.now.commitments)
            (command_of (content_view content) [])) }
        ensures policy { IfOk result (λ parts. held_policy parts.policy
            ≡ policy_after (held_policy self.now.policy) (command_of (content_view content) [])) }
        ensures origins { IfOk result (λ parts. (other : List ℕ)
            → spans_at other parts.origins
            ≡ spans_at other self.now.origins
            ++ (if bytes_eq other origin.now then span ∷ [] else [])) }
        ensures registered { IfOk result (λ parts. (id : List ℕ)
            → count_of id parts.registered
            ≡ count_of id self.now.registered
            + commitments_with id (committed (command_of (content_view content) []))) }
        ensures withdrawn { IfOk result (λ parts. (id : List ℕ)
            → count_of id parts.withdrawn
            ≡ count_of id self.now.withdrawn
            + times_named id named (segment_rows posted.now.segments)) }
    {
        let withdrawn = withdrawn_after(alloc, &self.withdrawn, posted, named)?;
        let origin = shared_text(alloc, self.origins.key(origin), origin)?;
        let policy = policy_after(&self.policy, &content)?;
        let commitments = commitments_after(alloc, &self.commitments, &content)?;
        let origins = origins_after(alloc, &self.origins, &origin, span)?;
        let registered = registered_after(alloc, &self.registered, content.commitment())?;
        let heads = self.heads.push(alloc, Head::new(origin, seq, content))?;
        Ok(Parts {
            heads,
            commitments,
            policy,
            origins,
            registered,
            withdrawn,
        })
    }
}

// How many bytes a withdrawal of the post of this number is written in, behind the byte of its kind.
#[tactic(auto, unfolding(fw_entry::specs::Spelling::brought))]
fn withdrawal_len(seq: u64) -> usize
    ensures len { result ≡ length (brought (withdraw seq)) }
    ensures valid { IsCommand (withdraw seq) }
    ensures few { result < 4294967296 }
{
    8
}

// The marks of the rows of a span taken away, if there is one.
fn take_away(marks: &mut Vec<bool>, named: Option<Span>)
    requires { IfSome named (λ span. span.start + span.rows ≤ length marks.old.items) }
    ensures { marks.new.items ≡ option_map_or
        (λ span. without span.start span.rows marks.old.items) named marks.old.items }
{
    if let Some(span) = named {
        for place in span.start..span.start + span.rows {
            marks[place] = false;
        }
    }
}

// What a post of so many rows brings, which are those behind a place.
fn posted(
    alloc: Global,
    segments: &Sequence<Columns>,
    start: Place,
    count: usize,
    registered: &Counters,
    carried: &Counters,
) -> Result<Brought, AllocError>
    requires few { count ≤ most_post_rows }
    requires enough { rows_before segments.now start + count ≤ length (segment_rows segments.now) }
    requires inside { IsInside segments.now start }
    ensures len { IfOk result (λ b. b.len ≡ length
        (listed row (take count (drop (rows_before segments.now start)
        (segment_rows segments.now))))) }
    ensures few { IfOk result (λ b. b.len < 4294967296) }
    ensures valid { IfOk result (λ _. All IsRow
        (take count (drop (rows_before segments.now start) (segment_rows segments.now)))) }
    ensures own { IfOk result (λ b. b.own ≡ list_any (has_counted_id registered.now)
        (take count (drop (rows_before segments.now start) (segment_rows segments.now)))) }
    ensures carried { IfOk result (λ b. (id : List ℕ)
        → count_of id b.carried ≡ count_of id carried.now
        + (if carries id (take count
        (drop (rows_before segments.now start) (segment_rows segments.now))) then 1 else 0)) }
    ensures place { IfOk result (λ b. rows_before segments.now b.place
        ≡ rows_before segments.now start + count) }
    ensures inside { IfOk result (λ b. IsInside segments.now b.place) }
{
    let mut len = 4;
    let mut own = false;
    let mut after = carried.copy()?;
    let mut place = start;
    let mut done = 0;
    while done < count {
        let run = next_run(segments, place, count - done);
        let columns = segments.get(run.segment);
        len += columns.rows_len(run.first, run.end);
        own = own || carry_counted(registered, columns, run);
        after = carried_with_run(alloc, carried, &after, columns, run)?;
        place = Place {
            segment: run.segment,
            row: run.end,
        };
        done += run.end - run.first;
    }
    Ok(Brought {
        len,
        own,
        carried: after,
        place,
    })
}

// Whether a row of a run, whose segment is given, carries an id that is counted.
fn carry_counted(counts: &Counters, columns: &Columns, run: Run) -> bool
    requires order { run.first ≤ run.end }
    requires within { run.end ≤ length columns.now }
    ensures { result
        ≡ list_any (has_counted_id counts.now) (slice_range columns.now run.first run.end) }
{
    let discounts = columns.discount_codes();
    for place in run.first..run.end {
        if discounts[place] != 0 {
            let row = columns.lent(place);
            if carries_counted(counts, &row) {
                return true;
            }
        }
    }
    false
}

// Whether a row carries an id that is counted.
fn carries_counted(counts: &Counters, row: &LentRow<'_>) -> bool
    ensures { result ≡ has_counted_id counts.now row.now }
{
    match row.discount() {
        Some(discount) => counts.count(discount.id) > 0,
        None => false,
    }
}
