//! Laws of the definitions, for callers' proofs. The functions do nothing.
ghost use Rattle.std.specs.Prelude.{◌≡◌, ◌++◌, ◌∷◌, ℕ, List, Contains, codes};
ghost use Rattle.fw_script.specs.Commands.{CommandsOf, FirstCommand};
ghost use Rattle.fw_script.specs.Lines.{StartsWithLine};
ghost use Rattle.fw_script.specs.Plain.{PlainCommand, entry};
ghost use Rattle.fw_script.specs.Words.{IsSequence, space};
ghost use Rattle.fw_script.specs.declared.commands.EntryKind.TheVariants as kind;

/// A text begins with at most one command, which leaves one rest.
pub fn first_command_is_one(text: &[u8])
    ensures { (this that : PlainCommand) (rest left : List ℕ)
        → FirstCommand text.now this rest
        → FirstCommand text.now that left
        → (this ≡ that) × (rest ≡ left) }
{}

/// A text holds at most one list of commands.
pub fn commands_are_one(text: &[u8])
    ensures { (these those : List PlainCommand)
        → CommandsOf text.now these
        → CommandsOf text.now those
        → these ≡ those }
{}

/// A text whose first line is `withdraw ORIGIN SEQUENCE TARGET` begins with a withdrawal, whose content is the target, and all that follows the line is
/// left (`taken`). The content of each withdrawal is a whole number from 1 to 2^64 - 1 (`target`).
pub fn withdrawals_take_no_lines(text: &[u8])
    ensures taken { (line following origin sequence target : List ℕ) (number : ℕ)
        → StartsWithLine text.now line following
        → line ≡ codes "withdraw" ++ space ∷ (origin ++ space ∷ (sequence ++ space ∷ target))
        → ¬ Contains origin space
        → ¬ Contains sequence space
        → IsSequence target number
        → FirstCommand text.now (entry kind.Withdraw origin sequence target) following }
    ensures target { (origin sequence content rest : List ℕ)
        → FirstCommand text.now (entry kind.Withdraw origin sequence content) rest
        → (number : ℕ) × IsSequence content number }
{}
