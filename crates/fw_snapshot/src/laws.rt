//! What holds of all lists of entries: laws, each the contract of a function that does nothing.
ghost use Rattle.std.specs.Prelude.{◌≡◌, ◌≢◌, ◌⊎◌, ◌+◌, ◌≤◌, ◌<◌, ◌++◌, ◌∷◌, ◌&&◌, ◌==◌, [], ℕ, List, All, Some, drop, filter, false, if◌then◌else◌, length, map, slice_get, take, true};
ghost use Rattle.std.specs.List.{Contains, flat_map, range_with_len};
ghost use Rattle.std.specs.Str.{bytes_eq};
ghost use Rattle.fw_charge.specs.Charge.{Charge};
ghost use Rattle.fw_money.specs.Amount.{most_nanos};
ghost use Rattle.fw_terms.specs.Commitment.{CommitmentValue, IsCommitment, cost_of, most_purchases};
ghost use Rattle.fw_terms.specs.Added.{AddedValue};
ghost use Rattle.fw_terms.specs.Policy.{PolicyValue};
ghost use Rattle.fw_entry.specs.Entry.{EntryValue};
ghost use Rattle.fw_entry.specs.Entry.CommandValue.{post, commit, set_policy, withdraw, add_purchase};
ghost use Rattle.fw_entry.specs.Spelling.{IsEntry};
ghost use Rattle.fw_snapshot.specs.History.{posted, counting, rows_posted, rows_of, committed_of, commitments_of, policy_of, entries_from};
ghost use Rattle.fw_snapshot.specs.Adding.{commitments_after};
ghost use Rattle.fw_snapshot.specs.Ids.{HasId, NoRowHasIdOf, NoneHasId, NoneHasIdOf};
ghost use Rattle.fw_snapshot.specs.Withdrawals.{HasPost, HasWithdrawal, NoneWithdraws};
ghost use Rattle.fw_snapshot.specs.Judging.{IsLegal, IsLegalAfter, judged, most_commitments, most_rows};
ghost use Rattle.fw_snapshot.specs.Verdicts.{verdicts_on, accepted_of, chosen, is_accept, is_kept, of_origin, AreNumbered, HasOnly, IsRepeat, IsSending};
ghost use Rattle.fw_snapshot.specs.declared.verdict.Conflict.{Conflict};
ghost use Rattle.fw_snapshot.specs.declared.verdict.Conflict.TheVariants as conflict;
ghost use Rattle.fw_snapshot.specs.declared.verdict.Verdict.{Verdict};
ghost use Rattle.fw_snapshot.specs.declared.verdict.Verdict.TheVariants as verdict;

/// A warehouse holds each entry once: two entries at different places differ in their origin or in their number.
pub fn each_entry_once()
    ensures { (entries : List EntryValue) → IsLegal entries → (i j : ℕ) (a b : EntryValue)
        → slice_get entries i ≡ Some a → slice_get entries j ≡ Some b → a.origin ≡ b.origin
        → a.seq ≡ b.seq → i ≡ j }
{}

/// The entries of an origin have the numbers 1, 2, 3 .. in turn: each has one more than there are entries of its origin before it.
pub fn numbers_are_in_turn()
    ensures { (entries : List EntryValue) → IsLegal entries → (place : ℕ) (e : EntryValue)
        → slice_get entries place ≡ Some e
        → e.seq ≡ entries_from e.origin (take place entries) + 1 }
{}

/// No number is left out: the numbers of an origin's entries, in the order of the warehouse, are 1, 2, 3 .. up to how
/// many there are.
pub fn no_number_is_missing()
    ensures { (entries : List EntryValue) → IsLegal entries → (origin : List ℕ)
        → map (λ e. e.seq) (filter (λ e. bytes_eq origin e.origin) entries)
        ≡ range_with_len 1 (entries_from origin entries) }
{}

/// At most 4,194,304 rows were ever posted to a warehouse, so no more count, and it has at most 256 commitments.
pub fn rows_and_commitments_are_few()
    ensures posted { (entries : List EntryValue) → IsLegal entries
        → length (rows_posted entries) ≤ most_rows }
    ensures rows { (entries : List EntryValue) → IsLegal entries
        → length (rows_of entries) ≤ most_rows }
    ensures commitments { (entries : List EntryValue) → IsLegal entries
        → length (commitments_of entries) ≤ most_commitments }
{}

/// What an accepted entry does to the commitments: one that is committed to stands behind the others; a purchase that is added stands
/// behind those of its commitment, whoever sent it, and changes neither the rows nor the policy.
pub fn an_entry_adds_to_the_commitments()
    ensures after { (before : List EntryValue) (e : EntryValue) → IsLegal before
        → judged before e ≡ verdict.Accept
        → commitments_of (before ++ e ∷ []) ≡ commitments_after (commitments_of before) e.command }
    ensures others { (before : List EntryValue) (e : EntryValue) (a : AddedValue)
        → e.command ≡ add_purchase a
        → (rows_of (before ++ e ∷ []) ≡ rows_of before)
        × (policy_of (before ++ e ∷ []) ≡ policy_of before) }
{}

/// A sender withdraws its own posts, and no others: an accepted withdrawal leaves the rows of exactly that post out which is of its
/// sender and has the number that it names (`rows`, `withdrawal`), and changes neither the commitments nor the policy (`no_more`).
/// Each other accepted entry puts the rows that it posts behind those that count, and takes none away (`others`).
pub fn a_sender_withdraws_its_own_posts()
    ensures rows { (before : List EntryValue) (e : EntryValue) (n : ℕ) → IsLegal before
        → judged before e ≡ verdict.Accept → e.command ≡ withdraw n
        → (has : HasPost before e.origin n)
        → (first : List Charge) × (last : List Charge)
        × (rows_of before ≡ first ++ (has.rows ++ last))
        × (rows_of (before ++ e ∷ []) ≡ first ++ last) }
    ensures withdrawal { (before : List EntryValue) (e : EntryValue) (n : ℕ)
        → e.command ≡ withdraw n → rows_of (before ++ e ∷ [])
        ≡ flat_map (λ x. if bytes_eq e.origin x.origin && (x.seq == n) then []
        else counting before x) before }
    ensures no_more { (before : List EntryValue) (e : EntryValue) (n : ℕ) → IsLegal before
        → judged before e ≡ verdict.Accept → e.command ≡ withdraw n
        → (commitments_of (before ++ e ∷ []) ≡ commitments_of before)
        × (policy_of (before ++ e ∷ []) ≡ policy_of before) }
    ensures others { (before : List EntryValue) (e : EntryValue) → IsLegal before
        → judged before e ≡ verdict.Accept → ((n : ℕ) → e.command ≢ withdraw n)
        → rows_of (before ++ e ∷ []) ≡ rows_of before ++ posted e.command }
{}

/// With all the purchases that were added to it, each commitment of a warehouse keeps the limits of a commitment: 64 purchases
/// at most, which together cost at most 10^17 nanos.
pub fn commitments_keep_their_limits()
    ensures { (entries : List EntryValue) → IsLegal entries → All IsEntry entries
        → All IsCommitment (commitments_of entries) }
{}

/// Each commitment has an id of its own: two commitments at different places differ in it, and so a commitment is alone
/// among those with its id.
pub fn each_commitment_has_its_own_id()
    ensures once { (entries : List EntryValue) → IsLegal entries → (i j : ℕ) (a b : CommitmentValue)
        → slice_get (commitments_of entries) i ≡ Some a
        → slice_get (commitments_of entries) j ≡ Some b → a.id ≡ b.id → i ≡ j }
    ensures alone { (entries : List EntryValue) → IsLegal entries
        → (place : ℕ) (c : CommitmentValue) → slice_get (commitments_of entries) place ≡ Some c
        → filter (λ d. bytes_eq d.id c.id) (commitments_of entries) ≡ c ∷ [] }
{}

/// No row that counts carries the id of one of the commitments, whichever of the two came first. So what bears a
/// commitment's id in a report comes from the commitment, and from no row that was posted.
pub fn no_row_has_the_id_of_a_commitment()
    ensures { (entries : List EntryValue) → IsLegal entries
        → NoRowHasIdOf (rows_of entries) (commitments_of entries) }
{}

/// Entries may be sent again, out of their turn, or in conflict with others: each gets the verdict that it has after the warehouse's entries and
/// after those before it that were accepted, and the accepted ones go behind a legal list. Sent in two parts, they get the verdicts that they get
/// when sent as one.
pub fn entries_are_judged_in_turn()
    ensures count { (before entries : List EntryValue)
        → length (verdicts_on before entries) ≡ length entries }
    ensures each { (before entries : List EntryValue) (place : ℕ) (e : EntryValue)
        → slice_get entries place ≡ Some e
        → slice_get (verdicts_on before entries) place
        ≡ Some (judged (before ++ accepted_of before (take place entries)) e) }
    ensures chosen { (before entries : List EntryValue)
        → chosen entries (verdicts_on before entries) ≡ accepted_of before entries }
    ensures legal { (before entries : List EntryValue) → IsLegal before
        → IsLegal (before ++ accepted_of before entries) }
    ensures verdicts_in_parts { (before first second : List EntryValue)
        → verdicts_on before (first ++ second)
        ≡ verdicts_on before first ++ verdicts_on (before ++ accepted_of before first) second }
    ensures accepted_in_parts { (before first second : List EntryValue)
        → accepted_of before (first ++ second)
        ≡ accepted_of before first ++ accepted_of (before ++ accepted_of before first) second }
    ensures no_longer { (spelled : EntryValue → List ℕ) (before entries : List EntryValue)
        → length (flat_map spelled (accepted_of before entries))
        ≤ length (flat_map spelled entries) }
{}

/// What is accepted in turn stays legal: the accepted ones of any entries are legal after those that they were judged
/// on. They are of the entries that were sent, so they keep the limits of entries where these do, and each that was
/// answered `Accept` is among them. A list is legal where it is so up to a place and from there on. Entries that are
/// legal after others are all accepted.
pub fn accepted_entries_are_legal()
    ensures legal { (before entries : List EntryValue)
        → IsLegalAfter before (accepted_of before entries) }
    ensures sent { (before entries : List EntryValue)
        → All (Contains entries) (accepted_of before entries) }
    ensures whole { (before entries : List EntryValue) → All IsEntry entries
        → All IsEntry (accepted_of before entries) }
    ensures kept { (before entries : List EntryValue) (place : ℕ) (e : EntryValue)
        → slice_get entries place ≡ Some e
        → slice_get (verdicts_on before entries) place ≡ Some verdict.Accept
        → Contains (accepted_of before entries) e }
    ensures joined { (before first second : List EntryValue) → IsLegalAfter before first
        → IsLegalAfter (before ++ first) second → IsLegalAfter before (first ++ second) }
    ensures parted { (before first second : List EntryValue) → IsLegalAfter before (first ++ second)
        → IsLegalAfter before first × IsLegalAfter (before ++ first) second }
    ensures all { (before entries : List EntryValue) → IsLegalAfter before entries
        → accepted_of before entries ≡ entries }
{}

/// An entry is accepted where it is the next of its origin and breaks no rule: a post, where there is room for its rows
/// and none of them carries the id of a commitment; a commitment, where neither another one nor a row has its id and
/// there are fewer than 256; a policy always; a withdrawal, where its sender has a post of the number that it names, which none of its
/// entries withdraws; a purchase that is added to a legal list, whoever sends it, where its id is
/// registered, its commitment has fewer than 64 purchases, and all of them with this one cost at most 10^17 nanos.
pub fn what_breaks_no_rule_is_accepted()
    ensures post { (before : List EntryValue) (e : EntryValue) (rows : List Charge)
        → e.seq ≡ entries_from e.origin before + 1 → e.command ≡ post rows
        → length (rows_posted before) + length rows ≤ most_rows
        → NoRowHasIdOf rows (committed_of before) → judged before e ≡ verdict.Accept }
    ensures commit { (before : List EntryValue) (e : EntryValue) (c : CommitmentValue)
        → e.seq ≡ entries_from e.origin before + 1 → e.command ≡ commit c
        → length (committed_of before) < most_commitments → NoneHasIdOf (committed_of before) c
        → NoRowHasIdOf (rows_of before) (c ∷ []) → judged before e ≡ verdict.Accept }
    ensures policy { (before : List EntryValue) (e : EntryValue) (p : PolicyValue)
        → e.seq ≡ entries_from e.origin before + 1 → e.command ≡ set_policy p
        → judged before e ≡ verdict.Accept }
    ensures withdrawal { (before : List EntryValue) (e : EntryValue) (n : ℕ)
        → e.seq ≡ entries_from e.origin before + 1 → e.command ≡ withdraw n
        → HasPost before e.origin n → NoneWithdraws before e.origin n
        → judged before e ≡ verdict.Accept }
    ensures purchase { (before : List EntryValue) (e : EntryValue) (a : AddedValue) → IsLegal before
        → e.seq ≡ entries_from e.origin before + 1 → e.command ≡ add_purchase a
        → (has : HasId (commitments_of before) a.id)
        → length has.commitment.purchases < most_purchases
        → cost_of has.commitment.purchases + a.purchase.billed ≤ most_nanos
        → judged before e ≡ verdict.Accept }
{}

/// An entry that skips a number is answered `Gap`, with the number that is next, and nothing else is.
pub fn a_gap_names_the_next_number()
    ensures gap { (before : List EntryValue) (e : EntryValue)
        → entries_from e.origin before + 1 < e.seq
        → judged before e ≡ verdict.Gap (entries_from e.origin before + 1) }
    ensures only { (before : List EntryValue) (e : EntryValue) (expected : ℕ)
        → judged before e ≡ verdict.Gap expected
        → (expected ≡ entries_from e.origin before + 1) × (expected < e.seq) }
{}

/// What is accepted is the next of its origin and breaks no rule. So an entry that breaks one isn't accepted, whatever else is so.
pub fn what_is_accepted_breaks_no_rule()
    ensures next { (before : List EntryValue) (e : EntryValue) → judged before e ≡ verdict.Accept
        → e.seq ≡ entries_from e.origin before + 1 }
    ensures post { (before : List EntryValue) (e : EntryValue) (rows : List Charge)
        → judged before e ≡ verdict.Accept → e.command ≡ post rows
        → (length (rows_posted before) + length rows ≤ most_rows)
        × NoRowHasIdOf rows (committed_of before) }
    ensures commit { (before : List EntryValue) (e : EntryValue) (c : CommitmentValue)
        → judged before e ≡ verdict.Accept → e.command ≡ commit c
        → (length (committed_of before) < most_commitments) × NoneHasIdOf (committed_of before) c
        × NoRowHasIdOf (rows_of before) (c ∷ []) }
    ensures withdrawal { (before : List EntryValue) (e : EntryValue) (n : ℕ)
        → judged before e ≡ verdict.Accept → e.command ≡ withdraw n
        → HasPost before e.origin n × NoneWithdraws before e.origin n }
    ensures purchase { (before : List EntryValue) (e : EntryValue) (a : AddedValue)
        → judged before e ≡ verdict.Accept → e.command ≡ add_purchase a
        → (has : HasId (commitments_of before) a.id)
        × (length has.commitment.purchases < most_purchases)
        × (cost_of has.commitment.purchases + a.purchase.billed ≤ most_nanos) }
{}

/// A refusal has its reason: the entry is the next of its origin, and what it brings breaks the rule that the answer names, and none that is looked at
/// before it. Of a post these are how many rows there are, and then their ids; of a commitment that no other one has its id, that no row carries it, and
/// how many there are; of a withdrawal that its sender has a post of the number, and then that none withdraws it; of a purchase that is added that its id is
/// registered, and then how many purchases there are and what they cost.
pub fn a_refusal_has_its_reason()
    ensures next { (before : List EntryValue) (e : EntryValue) (why : Conflict)
        → judged before e ≡ verdict.Refused why → e.seq ≡ entries_from e.origin before + 1 }
    ensures full { (before : List EntryValue) (e : EntryValue)
        → judged before e ≡ verdict.Refused conflict.Full
        → (rows : List Charge) × (e.command ≡ post rows)
        × (most_rows < length (rows_posted before) + length rows) }
    ensures double_id { (before : List EntryValue) (e : EntryValue)
        → judged before e ≡ verdict.Refused conflict.DoubleId
        → (c : CommitmentValue) × (e.command ≡ commit c)
        × (NoneHasIdOf (committed_of before) c → ⊥) }
    ensures id_in_use { (before : List EntryValue) (e : EntryValue)
        → judged before e ≡ verdict.Refused conflict.IdInUse
        → (c : CommitmentValue) × (e.command ≡ commit c) × NoneHasIdOf (committed_of before) c
        × (NoRowHasIdOf (rows_of before) (c ∷ []) → ⊥) }
    ensures own_commitment { (before : List EntryValue) (e : EntryValue)
        → judged before e ≡ verdict.Refused conflict.OwnCommitment
        → (rows : List Charge) × (e.command ≡ post rows)
        × (length (rows_posted before) + length rows ≤ most_rows)
        × (NoRowHasIdOf rows (committed_of before) → ⊥) }
    ensures too_many { (before : List EntryValue) (e : EntryValue)
        → judged before e ≡ verdict.Refused conflict.TooManyCommitments
        → (c : CommitmentValue) × (e.command ≡ commit c) × NoneHasIdOf (committed_of before) c
        × NoRowHasIdOf (rows_of before) (c ∷ [])
        × (most_commitments ≤ length (committed_of before)) }
    ensures no_such_post { (before : List EntryValue) (e : EntryValue)
        → judged before e ≡ verdict.Refused conflict.NoSuchPost
        → (n : ℕ) × (e.command ≡ withdraw n) × (HasPost before e.origin n → ⊥) }
    ensures withdrawn { (before : List EntryValue) (e : EntryValue)
        → judged before e ≡ verdict.Refused conflict.Withdrawn
        → (n : ℕ) × (e.command ≡ withdraw n) × HasPost before e.origin n
        × HasWithdrawal before e.origin n }
    ensures no_such_commitment { (before : List EntryValue) (e : EntryValue)
        → judged before e ≡ verdict.Refused conflict.NoSuchCommitment
        → (a : AddedValue) × (e.command ≡ add_purchase a) × NoneHasId (commitments_of before) a.id }
    ensures purchase_limit { (before : List EntryValue) (e : EntryValue)
        → judged before e ≡ verdict.Refused conflict.PurchaseLimit
        → (a : AddedValue) × (e.command ≡ add_purchase a)
        × (has : HasId (commitments_of before) a.id)
        × ((most_purchases ≤ length has.commitment.purchases)
        ⊎ (most_nanos < cost_of has.commitment.purchases + a.purchase.billed)) }
{}

/// A repeat is answered `Already`, with the last number of its origin. Nothing else is: an entry whose number is at
/// least 1, as each entry's is, and that is answered so, is a repeat. One of its origin and number was accepted.
pub fn a_repeat_is_answered_already()
    ensures repeat { (before : List EntryValue) (e : EntryValue) → IsLegal before
        → IsRepeat before e → judged before e ≡ verdict.Already (entries_from e.origin before) }
    ensures only { (before : List EntryValue) (e : EntryValue) (last : ℕ) → IsLegal before
        → 0 < e.seq → judged before e ≡ verdict.Already last
        → IsRepeat before e × (last ≡ entries_from e.origin before) }
{}

/// A repeat changes nothing, wherever it stands among the entries that are sent and whatever came since: the verdicts on the others, those before it and
/// those behind it, are the ones that they get without it (`others`), and the same ones are accepted. Neither does any other entry that isn't
/// accepted, as one that leaves a gap (`others_refused`, `refused`).
pub fn a_repeat_changes_nothing()
    ensures others { (before first rest : List EntryValue) (e : EntryValue) → IsLegal before
        → IsRepeat (before ++ accepted_of before first) e
        → take (length first) (verdicts_on before (first ++ e ∷ rest))
        ++ drop (length first + 1) (verdicts_on before (first ++ e ∷ rest))
        ≡ verdicts_on before (first ++ rest) }
    ensures others_refused { (before first rest : List EntryValue) (e : EntryValue)
        → is_accept (judged (before ++ accepted_of before first) e) ≡ false
        → take (length first) (verdicts_on before (first ++ e ∷ rest))
        ++ drop (length first + 1) (verdicts_on before (first ++ e ∷ rest))
        ≡ verdicts_on before (first ++ rest) }
    ensures verdicts { (before first rest : List EntryValue) (e : EntryValue) → IsLegal before
        → IsRepeat (before ++ accepted_of before first) e
        → verdicts_on before (first ++ e ∷ rest)
        ≡ verdicts_on before first ++ verdict.Already
        (entries_from e.origin (before ++ accepted_of before first))
        ∷ verdicts_on (before ++ accepted_of before first) rest }
    ensures accepted { (before first rest : List EntryValue) (e : EntryValue) → IsLegal before
        → IsRepeat (before ++ accepted_of before first) e
        → accepted_of before (first ++ e ∷ rest) ≡ accepted_of before (first ++ rest) }
    ensures refused { (before first rest : List EntryValue) (e : EntryValue)
        → is_accept (judged (before ++ accepted_of before first) e) ≡ false
        → accepted_of before (first ++ e ∷ rest) ≡ accepted_of before (first ++ rest) }
{}

/// Sent at least once, kept exactly once: where entries that a warehouse can take one after the other are sent in that order, each at least once,
/// among repeats, gaps and entries that are refused, the warehouse then holds what it held and these entries, each once and in order (`kept`).
/// Nothing else leads there: whatever is sent is a sending of the entries that are accepted (`only`).
pub fn sent_at_least_once_is_kept_once()
    ensures kept { (before entries sent : List EntryValue) → IsLegalAfter before entries
        → IsSending before entries sent → accepted_of before sent ≡ entries }
    ensures only { (before sent : List EntryValue)
        → IsSending before (accepted_of before sent) sent }
{}

/// A sender that numbers its entries 1, 2, 3 .. sends them as it likes: in any order, any number of times, among the entries of others, whatever these
/// are and whatever becomes of them. What the warehouse has of it are always the first of its entries, each once and in order (`front`). An entry that was
/// answered `Accept` or `Already` is there, and so is each of a smaller number (`answered`). Once its last entry is answered so, all are there (`all`).
pub fn a_sender_is_kept_in_its_order()
    ensures front { (origin : List ℕ) (before sent own : List EntryValue) → IsLegal before
        → AreNumbered origin own → HasOnly origin own (before ++ sent)
        → of_origin origin (before ++ accepted_of before sent)
        ≡ take (entries_from origin (before ++ accepted_of before sent)) own }
    ensures answered { (before sent : List EntryValue) (place : ℕ) (e : EntryValue) (v : Verdict)
        → slice_get sent place ≡ Some e → slice_get (verdicts_on before sent) place ≡ Some v
        → is_kept v ≡ true → e.seq ≤ entries_from e.origin (before ++ accepted_of before sent) }
    ensures all { (origin : List ℕ) (before sent own : List EntryValue) (place : ℕ)
        (last : EntryValue) (v : Verdict) → IsLegal before → AreNumbered origin own
        → HasOnly origin own (before ++ sent) → slice_get sent place ≡ Some last
        → last.origin ≡ origin → last.seq ≡ length own
        → slice_get (verdicts_on before sent) place ≡ Some v → is_kept v ≡ true
        → of_origin origin (before ++ accepted_of before sent) ≡ own }
{}

/// Each entry counts once, however often it is sent: in what a warehouse holds after any list of entries no two places
/// have the same origin and number.
pub fn what_is_sent_often_stands_once()
    ensures { (before entries : List EntryValue) → IsLegal before → (i j : ℕ) (a b : EntryValue)
        → slice_get (before ++ accepted_of before entries) i ≡ Some a
        → slice_get (before ++ accepted_of before entries) j ≡ Some b → a.origin ≡ b.origin
        → a.seq ≡ b.seq → i ≡ j }
{}

/// Whoever doesn't know what arrived may send it again: entries that are all repeats, in any order and any number of
/// times, are each answered `Already`, and nothing is added. Any of the entries that were accepted are such; where all
/// that were sent were accepted, all of them.
pub fn sending_again_changes_nothing()
    ensures verdicts { (before again : List EntryValue) → IsLegal before
        → All (IsRepeat before) again
        → verdicts_on before again ≡ map
        (λ e. verdict.Already (entries_from e.origin before)) again }
    ensures nothing { (before again : List EntryValue) → IsLegal before
        → All (IsRepeat before) again → accepted_of before again ≡ [] }
    ensures repeats { (before entries again : List EntryValue)
        → All (Contains (accepted_of before entries)) again
        → All (IsRepeat (before ++ accepted_of before entries)) again }
    ensures accepted { (before entries again : List EntryValue) → IsLegal before
        → All (Contains (accepted_of before entries)) again
        → accepted_of before (entries ++ again) ≡ accepted_of before entries }
    ensures all { (before entries again : List EntryValue) → IsLegal before
        → IsLegalAfter before entries → All (Contains entries) again
        → accepted_of before (entries ++ again) ≡ entries }
{}
