//! What a command does with exports.
use crate::opening::Source;
use crate::walk::Walk;
use fw_console::Fault;
use fw_cut::{CutFault, Cutter, Part};
use std::alloc::Global;

/// What a command does with the exports that the command line names, each part by part.
pub trait Taker {
    /// The command that takes exports, by its name on the command line.
    fn command(&self) -> &'static str {
        "import"
    }

    /// Whether the exports behind one with a fault are taken too.
    fn goes_on(&self) -> bool {
        false
    }

    /// An export begins with this header, and this byte ends its lines. Whether its parts are to be taken.
    fn begin(&mut self, _rt: &HostRuntime, _header: &[u8], _line_end: u8) -> Result<bool, Fault> {
        Ok(true)
    }

    /// How many parts are cut before the one that stands before them is taken.
    fn parts_ahead(&self) -> usize {
        0
    }

    /// The next part of an export, or why it can't be cut. A command that has threads may keep the cutter while one of these cuts the part behind; it
    /// then has the part when it is asked for. None where there is no cutter, which comes behind a last part or a fault alone.
    fn cut(
        &mut self,
        alloc: Global,
        cutter: &mut Option<Cutter<Source>>,
    ) -> Option<Result<Part, CutFault>> {
        Some(cutter.as_mut()?.next_part(alloc))
    }

    /// A part was cut, and is taken once those before it were: what can be done with it before may begin.
    fn see(&mut self, _rt: &HostRuntime, _walk: &Walk<'_>, _part: &Part) -> Result<(), Fault> {
        Ok(())
    }

    /// Takes the part at which the walk stands; false where it was refused, which was said.
    fn take(&mut self, rt: &HostRuntime, walk: &mut Walk<'_>, part: &Part) -> Result<bool, Fault>;

    /// An export ends, or as far as it could be taken. Whether it has no fault.
    fn end(
        &mut self,
        _rt: &HostRuntime,
        _walk: &mut Walk<'_>,
        is_whole: bool,
    ) -> Result<bool, Fault> {
        Ok(is_whole)
    }

    /// An export has no record behind its header. Whether that is no fault.
    fn take_none(&mut self, rt: &HostRuntime, walk: &mut Walk<'_>) -> Result<bool, Fault> {
        walk.not_cut(rt, CutFault::NoRecord)
    }
}
