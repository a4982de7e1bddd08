//! The records of a text up to where its header stands again.
ghost use Rattle.std.specs.Prelude.{◌<◌};
ghost use Rattle.fw_cut.specs.Headers.{Passes, Stops};

use crate::counting::has_content;
use crate::cutting::Cut;
use crate::heads::is_again;
use crate::place::Place;

/// How much of a text is cut off, and how many bytes the header has that follows, where it stands again there.
#[derive(Clone, Copy, Debug, Drop)]
pub(crate) struct Stop {
    /// How many records there are in it.
    pub(crate) records: usize,
    /// How many bytes it has.
    pub(crate) end: usize,
    /// How many bytes behind it are the header again; 0 where it isn't that.
    pub(crate) header: usize,
}

/// Cuts whole records off the start of a text, as many as there are up to where the header stands again, and at most `most`.
pub(crate) fn cut_before(head: &[u8], text: &[u8], most: usize) -> Stop
    requires { 0 < most }
    ensures { Stops head.now text.now most result }
{
    let mut place = Place::Start;
    let mut cut = Cut { records: 0, end: 0 };
    let mut at = 0;
    while at < text.len() {
        let run = place.run(&text[at..]);
        let stop = at + run.len;
        if stop == text.len() {
            return Stop {
                records: cut.records,
                end: cut.end,
                header: 0,
            };
        }
        let step = run.place.after(text[stop]);
        place = step.place;
        at = stop + 1;
        if step.ends {
            if is_again(head, &text[cut.end..at]) {
                return Stop {
                    records: cut.records,
                    end: cut.end,
                    header: at - cut.end,
                };
            }
            cut = Cut {
                records: cut.records + 1,
                end: at,
            };
            if cut.records == most {
                return Stop {
                    records: cut.records,
                    end: cut.end,
                    header: 0,
                };
            }
        }
    }
    Stop {
        records: cut.records,
        end: cut.end,
        header: 0,
    }
}

/// How many bytes at the start of a text are the header again; 0 where it doesn't begin so. The end of the text ends a record too, where it is all that is left.
pub(crate) fn header_at(head: &[u8], text: &[u8], is_all: bool) -> usize
    ensures { Passes head.now text.now is_all result }
{
    let stop = cut_before(head, text, 1);
    if stop.end > 0 {
        return 0;
    }
    if is_all
        && stop.header == 0
        && stop.records == 0
        && has_content(text)
        && is_again(head, text)
    {
        return text.len();
    }
    stop.header
}
