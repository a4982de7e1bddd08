//! The content of a post, where it is in its script.
ghost use Rattle.std.specs.Prelude.{◌≡◌, IfSome};

use fw_script::{Command, EntryKind, Script};
use std::marker::Model;
use std::sync::Arc;

/// The content of a post, where it is in a script that is shared. A contract sees its bytes.
#[derive(Drop)]
pub(crate) struct Content {
    script: Arc<Vec<u8>>,
    from: usize,
    to: usize,
}

impl Model for Content {
    ghost use Rattle.std.specs.Prelude.{ℕ, ◌-◌, ◌≤◌, List, drop, length, take};

    ghost Value = { List ℕ };

    ghost view = { λ c. take (c.to - c.from) (drop c.from c.script.value.items) };

    ghost invariant = { λ c. (c.from ≤ c.to) × (c.to ≤ length c.script.value.items) };
}

impl Content {
    // What a script has from a place on and before another; `None` where it has no such places, or as many owners as can be counted.
    fn within(script: &Arc<Vec<u8>>, from: usize, to: usize) -> Option<Content> {
        if from > to || to > script.len() {
            return None;
        }
        Some(Content {
            script: Arc::try_clone(script).ok()?,
            from,
            to,
        })
    }

    // The content of the first post from a place of a script on, and the place behind it.
    pub(crate) fn next(script: &Arc<Vec<u8>>, from: usize) -> Option<(Content, usize)> {
        let mut rest = Script::new(script.get(from..)?);
        let len = next_post(&mut rest)?.len();
        let to = script.len().checked_sub(rest.left())?;
        let content = Content::within(script, to.checked_sub(len)?, to)?;
        Some((content, to))
    }

    // Its bytes.
    pub(crate) fn bytes(&self) -> &[u8]
        ensures { result.now ≡ self.now }
    {
        &self.script[self.from..self.to]
    }
}

// The content of the next post.
fn next_post<'a>(script: &mut Script<'a>) -> Option<&'a [u8]> {
    while let Some(command) = script.next_command() {
        if let Command::Entry {
            kind: EntryKind::Post,
            content,
            ..
        } = command
        {
            return Some(content);
        }
    }
    None
}
