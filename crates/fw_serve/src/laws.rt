//! What holds of every run of commands: laws over the relation that [`serve`](crate::serve) promises between a script and what was written, each the
//! contract of a function that does nothing.
ghost use Rattle.std.specs.Prelude.{◌≡◌, ◌≢◌, ◌⊎◌, ◌+◌, ◌<◌, ◌≤◌, ◌^◌, ◌∷◌, ◌++◌, [], All, IsTrue, List, Option, Result, Some, drop, false, length, slice_get, suc, take, true, ℕ};
ghost use Rattle.std.specs.List.{concat};
ghost use Rattle.fw_amortise.specs.LineValue.{LineValue};
ghost use Rattle.fw_disk.specs.declared.volume.Side.{Side};
ghost use Rattle.fw_disk.specs.Volume.{Image};
ghost use Rattle.fw_entry.specs.Entry.{EntryValue};
ghost use Rattle.fw_entry_bytes.specs.Forms.{has_entry};
ghost use Rattle.fw_entry_bytes.specs.declared.form.Form.TheVariants.{Two};
ghost use Rattle.fw_sums.specs.Limits.{IsRange};
ghost use Rattle.fw_query.specs.OfHistory.{AreLinesOf, IsReportOn};
ghost use Rattle.fw_query.specs.Refusals.{AreRefused, IsRefused};
ghost use Rattle.fw_query.specs.Reports as reports;
ghost use Rattle.fw_query.specs.Texts.{lines_text, report_text};
ghost use Rattle.fw_query.specs.declared.fault.QueryFault.{QueryFault};
ghost use Rattle.fw_recover.specs.Committing.{HasAnswered, StandsForFirst, with_first};
ghost use Rattle.fw_recover.specs.Corrupt.{CorruptAt};
ghost use Rattle.fw_recover.specs.Stands.{EachStandsFor, StandsFor, StandsForEither, StandsForNone};
ghost use Rattle.fw_recover.specs.declared.fault.StoreFault.{StoreFault};
ghost use Rattle.fw_recover.specs.declared.fault.StoreFault.TheVariants as store_fault;
ghost use Rattle.fw_script.specs.Plain.{PlainCommand, checkpoint, lines, report, state};
ghost use Rattle.fw_serve.specs.Answers.{Answer, Answers, last_generation};
ghost use Rattle.fw_serve.specs.Flight.{CrashLeaves, FailsOnSent, IsInFlight, IsOneRun, RunsAt, RunsByCommand, RunsInTurn};
ghost use Rattle.fw_serve.specs.Recovery.{EndsASession, IsStopped, session_behind, session_within};
ghost use Rattle.fw_serve.specs.Replies.{accepted_line, already_line, checkpointed_line, conflict_line, counted, gap_line, no_memory_line, query_fault_line, state_line, store_fault_line};
ghost use Rattle.fw_serve.specs.Runs.{AnswersEach, AreAlike, AreOne, AreSame, AreTold, AreUnhindered, IsHindered, IsOfASide, LacksKind, LacksRoom, NoneCutShort, NoneHindered, Sends, StandsAt};
ghost use Rattle.fw_serve.specs.Sessions.{HasKept, IsSessionOf, Opens, PassesThrough, SessionValue};
ghost use Rattle.fw_serve.specs.Standings.{AreInFlight, IsBetween, Standing, standing_of};
ghost use Rattle.fw_serve.specs.Whole.{IsWhole, ReportsAddUp};
ghost use Rattle.fw_serve.specs.declared.fault.ServeFault.{ServeFault};
ghost use Rattle.fw_snapshot.specs.History.{History, commitments_of, entries_from, rows_of};
ghost use Rattle.fw_snapshot.specs.Judging.{IsLegal, judged};
ghost use Rattle.fw_snapshot.specs.Verdicts.{IsRepeat, accepted_of, taken, with_more};
ghost use Rattle.fw_snapshot.specs.declared.verdict.Conflict.{Conflict};
ghost use Rattle.fw_snapshot.specs.declared.verdict.Verdict.TheVariants as verdict;

use fw_disk::Volume;
use fw_recover::Store;

/// What is written is one answer for each command, in order (`each`), and these answers say what the warehouse holds (`told`): `entries` are the entries of
/// the commands that were answered `accepted`, `already`, `gap` or `refused J..`; each of them was answered by the line of its verdict, and the
/// warehouse holds what it held and those that were accepted. So every law of `fw_snapshot` on entries that are sent is one of what was written.
pub fn answers_say_what_is_held()
    ensures each { (before after : Standing) (commands : List PlainCommand) (text : List ℕ)
        → Answers before commands text after
        → (answers : List (List ℕ)) × (text ≡ concat answers)
        × AnswersEach before commands answers after }
    ensures told { (before after : Standing) (commands : List PlainCommand)
        (answers : List (List ℕ)) → AnswersEach before commands answers after
        → AreTold before.history commands answers after.history }
{}

/// One command has one answer: asked of two warehouses of the same currency that have accepted the same entries (`before.history ≡ other.history`), a report,
/// lines, the state, an entry, and each other command is answered by the same bytes, and leaves the same entries, unless one of the two answers is that memory
/// ran out or that the store didn't do it (`command`). So is a script in which no answer is so (`script`). A command that is answered so leaves
/// the entries as they were (`hindered`), and the others are answered as they are by a run of these alone (`left_out`). A command sends
/// one entry at most (`entry`).
pub fn one_command_has_one_answer()
    ensures command { (before other after after_other : Standing) (command : PlainCommand)
        (answer second : List ℕ) → before.history ≡ other.history
        → Answer before command answer after → Answer other command second after_other
        → AreOne answer second after after_other }
    ensures script { (before other after after_other : Standing) (commands : List PlainCommand)
        (answers second : List (List ℕ)) → before.history ≡ other.history
        → AnswersEach before commands answers after → AnswersEach other commands second after_other
        → NoneHindered answers → NoneHindered second
        → (answers ≡ second) × (after.history ≡ after_other.history) }
    ensures hindered { (before after : Standing) (command : PlainCommand) (answer : List ℕ)
        → Answer before command answer after → IsHindered answer → after.history ≡ before.history }
    ensures left_out { (before other after after_other : Standing)
        (commands rest : List PlainCommand) (answers answered second : List (List ℕ))
        → before.history ≡ other.history
        → AnswersEach before commands answers after → AreUnhindered commands answers rest answered
        → AnswersEach other rest second after_other → NoneHindered second
        → (answered ≡ second) × (after.history ≡ after_other.history) }
    ensures entry { (currency : List ℕ) (command : PlainCommand) (first second : EntryValue)
        → Sends currency command first → Sends currency command second → first ≡ second }
{}

/// Stores that are alike answer alike: where two stores have the same entries, both have failed or neither has, their sides in use are of the same form and
/// generation, and they have the same room left, each command but a checkpoint is answered by the same bytes, `store S4 Failed`, `store S6 TooLarge` and
/// `store S8 OldSide` among them, and leaves stores that are
/// alike, unless one of the two answers is `no memory` or `store S3 Device` (`command`). So is a script without checkpoints in which no answer is so (`script`).
/// Two checkpoints are answered alike too where the device has failed, by `store S4 Failed`, and where there is no further generation, by
/// `store S5 Generations`. Else each is made, or has no room, or is cut short (`checkpoint`): which of the first two, the length of the side that it would make
/// decides, and so does the room that is left afterwards. A state has spellings of several lengths. Two that are made leave stores that are alike but for
/// this room (`made`).
pub fn stores_that_are_alike_answer_alike()
    ensures command { (before other after after_other : Standing) (command : PlainCommand)
        (answer second : List ℕ) → AreAlike before other → command ≢ checkpoint
        → Answer before command answer after → Answer other command second after_other
        → AreSame answer second after after_other }
    ensures checkpoint { (before other after after_other : Standing) (answer second : List ℕ)
        → AreAlike before other
        → Answer before checkpoint answer after → Answer other checkpoint second after_other
        → AreSame answer second after after_other ⊎ (IsOfASide answer × IsOfASide second) }
    ensures made { (before other after after_other : Standing) → AreAlike before other
        → Answer before checkpoint checkpointed_line after
        → Answer other checkpoint checkpointed_line after_other
        → (after.history ≡ after_other.history) × (after.failed ≡ after_other.failed)
        × (after.form ≡ after_other.form) × (after.generation ≡ after_other.generation) }
    ensures script { (before other after after_other : Standing) (commands : List PlainCommand)
        (answers second : List (List ℕ)) → AreAlike before other
        → All (λ command. command ≢ checkpoint) commands
        → AnswersEach before commands answers after → AnswersEach other commands second after_other
        → NoneCutShort answers → NoneCutShort second
        → (answers ≡ second) × AreAlike after after_other }
{}

/// What is asked is answered from what is held, and changes nothing. A report that is printed is the one on the entries of the warehouse, under the policy
/// that was set last (`report`), and lines that are printed are the lines of these entries (`lines`). So each law of `fw_query` on reports and lines is one
/// of what was printed. Else the answer says why there is none. `state` counts what is held.
pub fn questions_are_answered_from_what_is_held()
    ensures report { (before after : Standing) (key : List ℕ) (from to : ℕ) (answer : List ℕ)
        → Answer before (report key from to) answer after
        → (((fault : QueryFault) × IsRefused (commitments_of before.history.entries)
        (rows_of before.history.entries) key from to fault × (answer ≡ query_fault_line fault))
        ⊎ ((found : List reports.EntryValue) × IsRange from to
        × IsReportOn before.history.entries key from to found
        × (answer ≡ counted (report_text found)))) × (after ≡ before) }
    ensures lines { (before after : Standing) (from to : ℕ) (answer : List ℕ)
        → Answer before (lines from to) answer after
        → (((fault : QueryFault) × AreRefused from to fault × (answer ≡ query_fault_line fault))
        ⊎ ((found : List LineValue) × IsRange from to
        × AreLinesOf before.history.entries from to found × (answer ≡ counted (lines_text found))))
        × (after ≡ before) }
    ensures state { (before after : Standing) (answer : List ℕ) → Answer before state answer after
        → (answer ≡ state_line before.history) × (after ≡ before) }
{}

/// What is written is true. `accepted N` is answered to the command of an entry, and after the script this is the Nth of the warehouse, counted from 1
/// (`accepted`). No script moves an entry (`stays`). `already N`: an entry of its origin and number was there, and the last of its origin has the number N. `gap N`: its number is above N, which
/// is the next of its origin. `refused J..`: it is refused for this reason. After the last three the warehouse holds what it held. It has fewer
/// than 2^64 entries, as each that stands on a volume.
pub fn what_is_written_is_true()
    ensures accepted { (before after : Standing) (commands : List PlainCommand)
        (answers : List (List ℕ)) (place n : ℕ) (command : PlainCommand)
        → AnswersEach before commands answers after
        → slice_get commands place ≡ Some command → slice_get answers place ≡ Some (accepted_line n)
        → length after.history.entries < 2 ^ 64
        → (e : EntryValue) × Sends before.history.currency command e
        × StandsAt after.history.entries n e }
    ensures stays { (before after : Standing) (commands : List PlainCommand)
        (answers : List (List ℕ)) (n : ℕ) (e : EntryValue)
        → AnswersEach before commands answers after
        → StandsAt before.history.entries n e → StandsAt after.history.entries n e }
    ensures already { (before after : Standing) (command : PlainCommand) (n : ℕ)
        → IsLegal before.history.entries → Answer before command (already_line n) after
        → length before.history.entries < 2 ^ 64
        → (e : EntryValue) × Sends before.history.currency command e
        × IsRepeat before.history.entries e × (n ≡ entries_from e.origin before.history.entries)
        × (after.history ≡ before.history) }
    ensures gap { (before after : Standing) (command : PlainCommand) (n : ℕ)
        → Answer before command (gap_line n) after
        → (e : EntryValue) × Sends before.history.currency command e
        × (n ≡ entries_from e.origin before.history.entries + 1) × (n < e.seq)
        × (after.history ≡ before.history) }
    ensures refused { (before after : Standing) (command : PlainCommand) (why : Conflict)
        → Answer before command (conflict_line why) after
        → (e : EntryValue) × Sends before.history.currency command e
        × (judged before.history.entries e ≡ verdict.Refused why)
        × (after.history ≡ before.history) }
{}

/// A store whose device has failed takes nothing more. What is answered `store S3 Device` leaves such a store, with the entries that it had (`failed`). From
/// then on nothing changes (`stays`): in the rest of the script each command that sends an entry is answered `store S4 Failed`, or that memory ran out
/// (`entries`), and each checkpoint `store S4 Failed` (`checkpoints`). All else is answered from these entries still ([`one_command_has_one_answer`]).
pub fn a_store_that_failed_takes_nothing_more()
    ensures failed { (before after : Standing) (command : PlainCommand)
        → Answer before command (store_fault_line store_fault.Device) after
        → (after.failed ≡ true) × (after.history ≡ before.history) }
    ensures stays { (before after : Standing) (commands : List PlainCommand)
        (answers : List (List ℕ)) → before.failed ≡ true → AnswersEach before commands answers after
        → after ≡ before }
    ensures entries { (before after : Standing) (commands : List PlainCommand)
        (answers : List (List ℕ)) (place later : ℕ) (command : PlainCommand) (answer : List ℕ)
        (e : EntryValue) → AnswersEach before commands answers after
        → slice_get answers place ≡ Some (store_fault_line store_fault.Device) → place < later
        → slice_get commands later ≡ Some command → slice_get answers later ≡ Some answer
        → Sends before.history.currency command e
        → (answer ≡ store_fault_line store_fault.Failed) ⊎ (answer ≡ no_memory_line) }
    ensures checkpoints { (before after : Standing) (commands : List PlainCommand)
        (answers : List (List ℕ)) (place later : ℕ) (answer : List ℕ)
        → AnswersEach before commands answers after
        → slice_get answers place ≡ Some (store_fault_line store_fault.Device) → place < later
        → slice_get commands later ≡ Some checkpoint → slice_get answers later ≡ Some answer
        → answer ≡ store_fault_line store_fault.Failed }
{}

/// What the store doesn't do has its cause. `store S4 Failed` is answered only where the device had failed before (`failed`); `store S5 Generations` only to a
/// checkpoint at the greatest generation (`generations`); `store S6 TooLarge` only where what is to be written would end past the limit of the volume: the
/// frame of an entry that the command sends and that is accepted, or a side that is made of the warehouse (`too_large`); `store S8 OldSide` only where the form
/// of the side in use doesn't have the entry that the command sends and that is accepted (`old_side`). These four change nothing. Beside
/// them there is `store S3 Device`, after which the device has failed ([`a_store_that_failed_takes_nothing_more`]), and `no memory`; no other
/// fault of a store is an answer (`others`). A side of the second form has each entry, so `store S8 OldSide` never comes while one is in use (`new_side`), nor
/// behind a checkpoint that was made (`checkpointed`).
pub fn what_the_store_refuses_has_its_cause()
    ensures failed { (before after : Standing) (command : PlainCommand)
        → Answer before command (store_fault_line store_fault.Failed) after
        → (before.failed ≡ true) × (after ≡ before) }
    ensures generations { (before after : Standing) (command : PlainCommand)
        → Answer before command (store_fault_line store_fault.Generations) after
        → (command ≡ checkpoint) × (before.generation ≡ last_generation) × (after ≡ before) }
    ensures too_large { (before after : Standing) (command : PlainCommand)
        → Answer before command (store_fault_line store_fault.TooLarge) after
        → LacksRoom before command × (after ≡ before) }
    ensures old_side { (before after : Standing) (command : PlainCommand)
        → Answer before command (store_fault_line store_fault.OldSide) after
        → LacksKind before command × (after ≡ before) }
    ensures others { (before after : Standing) (command : PlainCommand) (why : StoreFault)
        → Answer before command (store_fault_line why) after
        → (why ≡ store_fault.Device) ⊎ ((why ≡ store_fault.Failed)
        ⊎ ((why ≡ store_fault.Generations) ⊎ ((why ≡ store_fault.TooLarge)
        ⊎ ((why ≡ store_fault.OldSide) ⊎ (why ≡ store_fault.NoMemory))))) }
    ensures new_side { (before after : Standing) (commands : List PlainCommand)
        (answers : List (List ℕ)) (place : ℕ) → before.form ≡ Two
        → AnswersEach before commands answers after
        → slice_get answers place ≡ Some (store_fault_line store_fault.OldSide) → ⊥ }
    ensures checkpointed { (before after : Standing) (commands : List PlainCommand)
        (answers : List (List ℕ)) (place later : ℕ) → AnswersEach before commands answers after
        → slice_get commands place ≡ Some checkpoint
        → slice_get answers place ≡ Some checkpointed_line → place < later
        → slice_get answers later ≡ Some (store_fault_line store_fault.OldSide) → ⊥ }
{}

/// A warehouse stays whole: where each of its entries was accepted after those before it and keeps its limits, as it is of every state, the same is
/// so after each command (`command`), and after a script (`script`). Wherever a command stands in a script, it is answered from the warehouse that
/// the commands before it left, which is whole and whose reports add up (`moment`). So the laws of `fw_query` on costs hold of each report that is printed.
pub fn a_warehouse_stays_whole()
    ensures command { (before after : Standing) (command : PlainCommand) (answer : List ℕ)
        → IsWhole before.history.entries → Answer before command answer after
        → IsWhole after.history.entries }
    ensures script { (before after : Standing) (commands : List PlainCommand)
        (answers : List (List ℕ)) → IsWhole before.history.entries
        → AnswersEach before commands answers after → IsWhole after.history.entries }
    ensures moment { (before after : Standing) (commands : List PlainCommand)
        (answers : List (List ℕ)) (place : ℕ) (command : PlainCommand) (answer : List ℕ)
        → IsWhole before.history.entries
        → AnswersEach before commands answers after → slice_get commands place ≡ Some command
        → slice_get answers place ≡ Some answer
        → (middle : Standing) × (next : Standing)
        × AnswersEach before (take place commands) (take place answers) middle
        × Answer middle command answer next
        × IsWhole middle.history.entries × ReportsAddUp middle.history.entries }
{}

/// What a crash leaves is reported whole: the warehouse that is opened from it is whole, its reports add up, and it has each entry that was acknowledged.
///
/// Entries are committed one by one, the first `answered` were answered, and a crash leaves an image: between two calls (`between`), at any moment of
/// the next call (`within`), or after [`Store::run`](fw_recover::Store::run) ended early. A warehouse can be opened from it: it is never missing or
/// corrupt (`opens`). What is opened has the accepted ones of the first n entries, where n is `answered` or one more (`run`). After a crash within `Store::run`, which answers all at its end, it has those of some
/// first entries (`first`). After a crash at any moment of a call that adds a group it is as it was, or has the whole group (`group`). After a crash at
/// any moment of a script it has what was there before and a front of what the script added, or, only where the device failed, all of this and one
/// entry more: the one that a command sends which was answered `store S3 Device`, that would have been accepted, and that the form of the side in use has
/// (`script`). After a script whose
/// device failed it is as the script left it, or has this entry as well (`after_script`). There is one such entry at most (`one`).
pub fn what_a_crash_leaves_is_reported_whole()
    ensures between { (before now : History) (entries : List EntryValue) (answered : ℕ)
        (image : Image) → now ≡ with_first before answered entries → StandsFor now image
        → HasAnswered before entries answered image }
    ensures within { (before now : History) (entries : List EntryValue) (answered : ℕ)
        (e : EntryValue) (image : Image) → now ≡ with_first before answered entries
        → slice_get entries answered ≡ Some e
        → StandsForEither now (taken now.entries e) image
        → HasAnswered before entries answered image }
    ensures opens { (before : History) (entries : List EntryValue) (answered : ℕ) (image : Image)
        → HasAnswered before entries answered image
        → (found : History) × StandsFor found image × (StandsForNone image → ⊥)
        × ((side : Side) (at : ℕ) → CorruptAt image side at → ⊥) }
    ensures run { (before found : History) (entries : List EntryValue) (answered : ℕ)
        (image : Image) → HasAnswered before entries answered image → StandsFor found image
        → (n : ℕ) × (answered ≤ n) × (n ≤ answered + 1) × (found ≡ with_first before n entries)
        × IsWhole found.entries × ReportsAddUp found.entries }
    ensures first { (before found : History) (entries : List EntryValue) (image : Image)
        → StandsForFirst before entries image → StandsFor found image
        → (n : ℕ) × (found ≡ with_first before n entries) × IsWhole found.entries
        × ReportsAddUp found.entries }
    ensures group { (before found : History) (more : List EntryValue) (image : Image)
        → StandsForEither before more image → StandsFor found image
        → ((found ≡ before) ⊎ (found ≡ with_more before more)) × IsWhole found.entries
        × ReportsAddUp found.entries }
    ensures script { (before after : Standing) (commands : List PlainCommand)
        (answers : List (List ℕ)) (found : History) (image : Image)
        → IsBetween (IsInFlight before after commands answers) before.history after image
        → StandsFor found image
        → (more : List EntryValue) × (found ≡ with_more before.history more)
        × (((rest : List EntryValue) × (after.history ≡ with_more found rest))
        ⊎ ((after.failed ≡ true) × ((place : ℕ) × (command : PlainCommand) × (last : EntryValue)
        × (slice_get commands place ≡ Some command)
        × (slice_get answers place ≡ Some (store_fault_line store_fault.Device))
        × Sends before.history.currency command last
        × (judged after.history.entries last ≡ verdict.Accept) × (has_entry after.form last ≡ true)
        × (found ≡ with_more after.history (last ∷ [])))))
        × IsWhole found.entries × ReportsAddUp found.entries }
    ensures after_script { (before after : Standing) (commands : List PlainCommand)
        (answers : List (List ℕ)) (more : List EntryValue) (found : History) (image : Image)
        → AreInFlight (IsInFlight before after commands answers) more
        → StandsForEither after.history more image → StandsFor found image
        → ((found ≡ after.history)
        ⊎ ((place : ℕ) × (command : PlainCommand) × (last : EntryValue)
        × (slice_get commands place ≡ Some command)
        × (slice_get answers place ≡ Some (store_fault_line store_fault.Device))
        × Sends before.history.currency command last
        × (judged after.history.entries last ≡ verdict.Accept) × (has_entry after.form last ≡ true)
        × (found ≡ with_more after.history (last ∷ []))))
        × IsWhole found.entries × ReportsAddUp found.entries }
    ensures one { (before after : Standing) (commands : List PlainCommand) (answers : List (List ℕ))
        (e f : EntryValue) → AnswersEach before commands answers after
        → IsInFlight before after commands answers e → IsInFlight before after commands answers f
        → e ≡ f }
{}

/// What a crash leaves can be opened, of entries that are added as a group (`group`) and of a run of [`Store::run`](fw_recover::Store::run) (`first`), at any
/// moment of a script (`script`) and of each of its commands (`command`), and after a script (`after_script`): there is a warehouse for which the files stand,
/// and they are neither missing nor corrupt.
pub fn what_a_crash_leaves_can_be_opened()
    ensures group { (before : History) (more : List EntryValue) (image : Image)
        → StandsForEither before more image → (found : History) × Opens found image }
    ensures first { (before : History) (entries : List EntryValue) (image : Image)
        → StandsForFirst before entries image → (found : History) × Opens found image }
    ensures script { (before after : Standing) (commands : List PlainCommand)
        (answers : List (List ℕ)) (image : Image)
        → IsBetween (IsInFlight before after commands answers) before.history after image
        → (found : History) × Opens found image }
    ensures after_script { (before after : Standing) (commands : List PlainCommand)
        (answers : List (List ℕ)) (more : List EntryValue) (image : Image)
        → AreInFlight (IsInFlight before after commands answers) more
        → StandsForEither after.history more image → (found : History) × Opens found image }
    ensures command { (before after : Standing) (command : PlainCommand) (answer : List ℕ)
        (image : Image)
        → IsBetween (FailsOnSent before command answer) before.history after image
        → (found : History) × Opens found image }
{}

/// The commands of a script are run one after the other: whichever of them one looks at, it was run on what those before it left, and those behind it were
/// run on what it left (`turn`). Of a volume that tells what a crash leaves, this is said as well. Where the device hadn't failed before the command, what a
/// crash leaves at any moment of it is what [`a_crash_keeps_what_was_answered`] speaks of. Where the device hasn't failed after it, each image stands for what
/// it left (`LeavesWithin`). Where the device failed in it, or in one of those before it in the script, each image stands for what the commands left, or for
/// this with the entry that the failed one sent (`LeavesWithin`, `RunsAt`). So where the device hadn't failed before the script, what is opened after a command
/// is what the commands up to it left, or, only where the device failed, this and the entry in flight (`opened`). A command that is run once the device has
/// failed leaves store and volume as they are.
///
/// Of what [`serve`](crate::serve) promises of its one run: what a crash leaves at any moment of it
/// and after it is said of commands that were read and of answers that were written (`any_moment`),
/// and so is what each of them did (`each_command`).
pub fn commands_are_run_in_turn<V: Volume>(before: &Store<V>, after: &Store<V>)
    ensures turn { (commands : List PlainCommand) (answers : List (List ℕ)) (place : ℕ)
        (command : PlainCommand) (answer : List ℕ)
        → RunsInTurn V.tells V.view before.now commands answers after.now
        → slice_get commands place ≡ Some command → slice_get answers place ≡ Some answer
        → RunsAt V.tells V.view before.now commands answers place command answer after.now }
    ensures opened { (commands : List PlainCommand) (answers : List (List ℕ)) (place : ℕ)
        (command : PlainCommand) (answer : List ℕ) (image : Image) (found : History)
        → IsTrue V.tells → before.now.failed ≡ false
        → slice_get commands place ≡ Some command → slice_get answers place ≡ Some answer
        → (at : RunsAt V.tells V.view before.now commands answers place command answer after.now)
        → (V.view at.next.volume).may_leave image → StandsFor found image
        → (found ≡ at.next.history)
        ⊎ ((at.next.failed ≡ true) × ((e : EntryValue)
        × IsInFlight (standing_of V.view before.now) (standing_of V.view at.next)
        (take (suc place) commands) (take (suc place) answers) e
        × (found ≡ with_more at.next.history (e ∷ [])))) }
    ensures any_moment { (result : Result (Unit {0}) ServeFault)
        (bytes held holds : Option (List ℕ))
        → IsOneRun V.tells V.view result bytes before.now after.now held holds
        → IsTrue V.tells → before.now.failed ≡ false
        → CrashLeaves V.view bytes before.now after.now held holds }
    ensures each_command { (result : Result (Unit {0}) ServeFault)
        (bytes held holds : Option (List ℕ))
        → IsOneRun V.tells V.view result bytes before.now after.now held holds
        → RunsByCommand V.tells V.view bytes before.now after.now held holds }
{}

/// A crash within a script keeps what was answered. Where it comes at any moment of a command, and the device hadn't failed before, what is opened is what the
/// commands before it left, or this and the entry that the command sends, which is accepted, and which the form of the side in use has (`command`): so it has all that was answered by then. What was
/// answered `accepted N` to a command before it is the Nth entry of it (`answered`). After a command, after the script, and at any moment once the device has
/// failed, what is opened is what the commands left, or, only where it failed, this and the entry that the failed one sent ([`commands_are_run_in_turn`],
/// [`what_a_crash_leaves_is_reported_whole`]). What was answered `accepted N` to one of these commands is the Nth entry of this too (`answered_after`). Of a
/// whole script, what is opened after a crash at any moment is what its first commands left, up to some place; or, only where the device failed, what the
/// script left and the entry in flight (`prefix`).
pub fn a_crash_keeps_what_was_answered()
    ensures command { (before after : Standing) (command : PlainCommand) (answer : List ℕ)
        (image : Image) (found : History) → Answer before command answer after
        → IsBetween (FailsOnSent before command answer) before.history after image
        → StandsFor found image
        → ((found ≡ before.history)
        ⊎ ((e : EntryValue) × Sends before.history.currency command e
        × (judged before.history.entries e ≡ verdict.Accept) × (has_entry before.form e ≡ true)
        × (found ≡ with_more before.history (e ∷ []))))
        × IsWhole found.entries × ReportsAddUp found.entries }
    ensures answered { (before middle next : Standing) (commands : List PlainCommand)
        (answers : List (List ℕ)) (running : PlainCommand) (answer : List ℕ) (image : Image)
        (found : History) (place n : ℕ) (command : PlainCommand)
        → AnswersEach before commands answers middle → Answer middle running answer next
        → IsBetween (FailsOnSent middle running answer) middle.history next image
        → StandsFor found image
        → slice_get commands place ≡ Some command → slice_get answers place ≡ Some (accepted_line n)
        → length middle.history.entries < 2 ^ 64
        → (e : EntryValue) × Sends before.history.currency command e × StandsAt found.entries n e }
    ensures answered_after { (before after : Standing) (commands : List PlainCommand)
        (answers : List (List ℕ)) (more : List EntryValue) (image : Image) (found : History)
        (place n : ℕ) (command : PlainCommand)
        → AnswersEach before commands answers after → StandsForEither after.history more image
        → StandsFor found image
        → slice_get commands place ≡ Some command → slice_get answers place ≡ Some (accepted_line n)
        → length after.history.entries < 2 ^ 64
        → (e : EntryValue) × Sends before.history.currency command e × StandsAt found.entries n e }
    ensures prefix { (before after : Standing) (commands : List PlainCommand)
        (answers : List (List ℕ)) (image : Image) (found : History)
        → AnswersEach before commands answers after
        → IsBetween (IsInFlight before after commands answers) before.history after image
        → StandsFor found image
        → ((place : ℕ) × (middle : Standing) × AnswersEach before (take place commands)
        (take place answers) middle × (found ≡ middle.history))
        ⊎ ((after.failed ≡ true) × ((e : EntryValue) × IsInFlight before after commands answers e
        × (found ≡ with_more after.history (e ∷ [])))) }
{}

/// A warehouse outlives its stops, however many. In each session, from an opening to the next stop, entries are committed, one by one or in groups, the
/// first of them are answered, and a crash leaves an image, which has each that was answered, and of those in flight none or all (`single`, `group`).
/// A script that is stopped leaves such a session too, in which the entries that were answered are those that the answers speak of (`IsSessionOf`). Where it is
/// stopped at any moment of a command, and the device hadn't failed before, the one in flight is the entry that this command sends (`script`). Where it
/// is stopped after a command or at its end, or at any moment once the device has failed, it is the entry on which the device failed, if there is one
/// (`after_script`). From the image the next session begins. What is opened at the end has all that was there when a session began, behind it the accepted
/// ones of the session's first n entries, where n is how many were answered, or these and those in flight, and behind these what came later (`kept`). So what
/// was accepted keeps its place for good. It is whole, and its reports add up (`whole`).
pub fn a_warehouse_outlives_its_stops()
    ensures single { (before : History) (s : SessionValue) → s.in_flight ≡ 1
        → HasAnswered before s.entries s.answered s.image → HasKept before s }
    ensures group { (before now : History) (s : SessionValue)
        → now ≡ with_first before s.answered s.entries
        → StandsForEither now (accepted_of now.entries
        (take s.in_flight (drop s.answered s.entries))) s.image → HasKept before s }
    ensures script { (before middle next : Standing) (commands : List PlainCommand)
        (answers : List (List ℕ)) (running : PlainCommand) (answer : List ℕ) (image : Image)
        → AnswersEach before commands answers middle → Answer middle running answer next
        → IsBetween (FailsOnSent middle running answer) middle.history next image
        → (s : SessionValue) × (s.image ≡ image)
        × IsSessionOf (Sends before.history.currency running) before.history commands answers s
        × HasKept before.history s }
    ensures after_script { (before after : Standing) (commands : List PlainCommand)
        (answers : List (List ℕ)) (more : List EntryValue) (image : Image)
        → AnswersEach before commands answers after
        → AreInFlight (IsInFlight before after commands answers) more
        → StandsForEither after.history more image
        → (s : SessionValue) × (s.image ≡ image)
        × IsSessionOf (IsInFlight before after commands answers) before.history commands answers s
        × HasKept before.history s }
    ensures kept { (before after : History) (sessions : List SessionValue) (place : ℕ)
        (s : SessionValue) → PassesThrough before sessions after → slice_get sessions place ≡ Some s
        → (middle : History) × (n : ℕ) × (more : List EntryValue)
        × PassesThrough before (take place sessions) middle
        × ((n ≡ s.answered) ⊎ (n ≡ s.answered + s.in_flight))
        × (after ≡ with_more middle (accepted_of middle.entries (take n s.entries) ++ more)) }
    ensures whole { (before after : History) (sessions : List SessionValue) → IsWhole before.entries
        → PassesThrough before sessions after → IsWhole after.entries × ReportsAddUp after.entries }
{}

/// A crash in a script that [`serve`](crate::serve) runs ends a session of those that [`reopen`](crate::reopen) speaks of, at
/// whatever moment since its first command it comes (`any_image`): at a moment of the command at some place (`within`), or
/// behind commands that were run in turn (`behind`). The store that it began with had been created or opened: its device
/// hadn't failed, and each image that a crash could leave stood for its warehouse.
pub fn a_served_script_may_stop_anywhere<V: Volume>(begun: &Store<V>, ended: &Store<V>)
    ensures any_image { (commands : List PlainCommand) (answers : List (List ℕ)) (image : Image)
        → IsTrue V.tells → begun.now.failed ≡ false
        → EachStandsFor begun.now.history (V.view begun.now.volume)
        → RunsInTurn V.tells V.view begun.now commands answers ended.now
        → (V.view ended.now.volume).left_since (V.view begun.now.volume).moment image
        → EndsASession V.tells V.view begun.now commands answers image }
    ensures within { (commands : List PlainCommand) (answers : List (List ℕ)) (place : ℕ)
        (command : PlainCommand) (answer : List ℕ) (image : Image)
        → begun.now.failed ≡ false → EachStandsFor begun.now.history (V.view begun.now.volume)
        → (at : RunsAt V.tells V.view begun.now commands answers place command answer ended.now)
        → (V.view at.next.volume).left_since (V.view at.middle.volume).moment image
        → IsStopped V.tells V.view begun.now.history
        (session_within begun.now commands answers place command at.middle image) }
    ensures behind { (commands : List PlainCommand) (answers : List (List ℕ)) (image : Image)
        → begun.now.failed ≡ false → EachStandsFor begun.now.history (V.view begun.now.volume)
        → RunsInTurn V.tells V.view begun.now commands answers ended.now
        → (V.view ended.now.volume).may_leave image
        → IsStopped V.tells V.view begun.now.history
        (session_behind begun.now commands answers ended.now image) }
{}
