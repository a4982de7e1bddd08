//! The whole commands that a text begins with.
ghost use Rattle.std.specs.Prelude.{◌≡◌, ◌≤◌, ◌↔◌, length, take, IsTrue};
ghost use Rattle.fw_script.specs.Plain.{bad_end, plain_command};
ghost use Rattle.fw_script.specs.Whole.{IsWhole};

use crate::commands::Command;
use crate::reader::Script;

/// How many bytes the whole commands have that a text begins with. A command is whole where its last line ends with a line feed, and, if it is an entry's,
/// as many lines follow as it asks for: then it is the same command whatever follows it.
pub fn whole_len(text: &[u8]) -> usize
    ensures fits { result ≤ length text.now }
    ensures whole { IsWhole (take result text.now) }
{
    let mut script = Script::new(text);
    let mut whole = 0;
    while let Some(command) = script.next_command() {
        let end = text.len() - script.left();
        if is_cut_short(&command) || text[end - 1] != b'\n' {
            break;
        }
        whole = end;
    }
    whole
}

/// Whether an entry asks for more lines than follow it.
fn is_cut_short(command: &Command<'_>) -> bool
    ensures { IsTrue result ↔ (plain_command command.now ≡ bad_end) }
{
    matches!(command, Command::BadEnd)
}
