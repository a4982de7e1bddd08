//! What follows of each dump: a law, the contract of a function that does nothing.
ghost use Rattle.std.specs.Prelude.{◌≡◌, ℕ, List};
ghost use Rattle.std.specs.List.{AllZip};
ghost use Rattle.fw_dump.specs.Dumps.{IsDumpOf};
ghost use Rattle.fw_entry.specs.Entry.{EntryValue};
ghost use Rattle.fw_script.specs.Commands.{CommandsOf};
ghost use Rattle.fw_script.specs.Plain.{PlainCommand};
ghost use Rattle.fw_serve.specs.Runs.{AnswersEach, NoneHindered, Sends};
ghost use Rattle.fw_serve.specs.Standings.{Standing};
ghost use Rattle.fw_snapshot.specs.Judging.{IsLegalAfter};
ghost use Rattle.fw_snapshot.specs.Verdicts.{with_more};

/// A dump makes the same warehouse. Read as a script, it holds one command for each entry, in order, which sends it (`sends`). Served by
/// a warehouse of its currency in which the entries can follow those that are there, as they can in an empty one, it adds just these
/// entries, in order (`same`), unless a command is answered that memory ran out or that the store didn't do it. So an empty warehouse has
/// then the same history as the one that was dumped, and each law on what is answered from a history holds of the two alike.
pub fn a_dump_makes_the_same_warehouse()
    ensures sends { (currency text : List ℕ) (entries : List EntryValue)
        (commands : List PlainCommand)
        → IsDumpOf currency entries text
        → CommandsOf text commands
        → AllZip (Sends currency) commands entries }
    ensures same { (text : List ℕ) (entries : List EntryValue) (before after : Standing)
        (commands : List PlainCommand) (answers : List (List ℕ))
        → IsDumpOf before.history.currency entries text
        → IsLegalAfter before.history.entries entries
        → CommandsOf text commands
        → AnswersEach before commands answers after
        → NoneHindered answers
        → after.history ≡ with_more before.history entries }
{}
