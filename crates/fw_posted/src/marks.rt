//! Marks that say of each row whether it counts.
ghost use Rattle.std.specs.Prelude.{◌≡◌, ◌≤◌, ◌+◌, count_by, length};
ghost use Rattle.fw_posted.specs.Marks.{without};

/// How many of the marks are true.
pub(crate) fn count_true(marks: &[bool]) -> usize
    ensures { result ≡ count_by (λ mark. mark) marks.now }
{
    marks.iter().filter(|mark| **mark).count()
}

/// Makes so many marks false, from a place on.
pub(crate) fn withdraw(marks: &mut [bool], from: usize, count: usize)
    requires { from + count ≤ length marks.old }
    ensures { marks.new ≡ without from count marks.old }
{
    for place in from..from + count {
        marks[place] = false;
    }
}
