//! The whole records at the start of a text.
ghost use Rattle.std.specs.Prelude.{◌<◌};
ghost use Rattle.fw_cut.specs.Cutting.{Cuts};

use crate::place::Place;

/// How much of a text is cut off.
#[derive(Clone, Copy, Debug, Drop)]
pub struct Cut {
    /// How many records there are in it.
    pub records: usize,
    /// How many bytes it has.
    pub end: usize,
}

/// Cuts whole records off the start of a text, as many as there are and at most `most`. A record is whole where a line feed or a
/// carriage return ends it; one within quotes ends none. The cut is right behind the last of them.
pub fn cut_off(text: &[u8], most: usize) -> Cut
    requires { 0 < most }
    ensures { Cuts text.now most result }
{
    let mut place = Place::Start;
    let mut cut = Cut { records: 0, end: 0 };
    let mut at = 0;
    while at < text.len() {
        let run = place.run(&text[at..]);
        let stop = at + run.len;
        if stop == text.len() {
            return cut;
        }
        let step = run.place.after(text[stop]);
        place = step.place;
        at = stop + 1;
        if step.ends {
            cut = Cut {
                records: cut.records + 1,
                end: at,
            };
            if cut.records == most {
                return cut;
            }
        }
    }
    cut
}
