//! `focusd check`: all faults of CSV exports, and what is in them.
ghost use Rattle.std.specs.Prelude.{◌≡◌, ◌≤◌, IfOk, IsTrue};

use clap::ArgMatches;
use fw_check::{Checker, as_json, as_text};
use fw_command_line::{DIALECT, FILES, FORMAT, KEEP, QUIET};
use fw_console::{
    Fault, Member, print_answer, read_currency, say_fault, tell, tells_json, wrong_use,
};
use fw_cut::Part;
use fw_dialect::Dialect;
use fw_export_files::{Taker, Walk, code_of, read_keeps, walk_files};
use fw_rows::{Currency, Keep, RowFault};
use std::alloc::{AllocError, Global};
use std::process::ExitCode;

/// A check of exports.
#[derive(Drop)]
struct Check {
    currency: Currency,
    /// The columns that are kept as tags.
    keeps: Vec<Keep>,
    is_json: bool,
    /// Whether nothing is printed of each export.
    is_silent: bool,
    found: Found,
    /// What was found in the export that is walked.
    checker: Checker,
}

/// What was found in the exports that were checked so far.
#[derive(Clone, Copy, Default, Drop)]
struct Found {
    files: u64,
    records: u64,
    /// Of these, the ones with a fault.
    bad_records: u64,
    faults: u64,
}

impl Found {
    // What was found in these exports and in one more.
    fn and(self, checker: &Checker) -> Found {
        Found {
            files: self.files.saturating_add(1),
            records: self.records.saturating_add(checker.records),
            bad_records: self.bad_records.saturating_add(checker.bad_records),
            faults: self.faults.saturating_add(checker.faults),
        }
    }

    // Its members in JSON.
    fn members(self) -> [Member; 4] {
        [
            Member::new("files", self.files),
            Member::new("records", self.records),
            Member::new("badRecords", self.bad_records),
            Member::new("faults", self.faults),
        ]
    }
}

/// Checks the files that the options name.
pub fn check_files(rt: &HostRuntime, options: &ArgMatches<'_>) -> Result<ExitCode, Fault> {
    let Some(currency) = read_currency(options) else {
        return Ok(wrong_use(rt, "--currency: it must be three capital letters, e.g. USD"));
    };
    let keeps = match read_keeps(rt.alloc(), options.get_strs(KEEP).unwrap_or(&[]))? {
        Ok(keeps) => keeps,
        Err(why) => return Ok(wrong_use(rt, why.as_str())),
    };
    let files = options.get_strs(FILES).unwrap_or(&[]);
    let mut walk = Walk::new(rt, options.get_flag(QUIET), files);
    walk.dialect = options.get_str(DIALECT).and_then(Dialect::of_name);
    let mut check = Check {
        currency,
        keeps,
        is_json: options.get_str(FORMAT) == Some("json"),
        is_silent: tells_json(options),
        found: Found::default(),
        checker: Checker::new(rt.alloc(), currency),
    };
    let is_clean = walk_files(rt, files, &mut walk, &mut check)?;
    let status = if is_clean {
        ExitCode::SUCCESS
    } else {
        ExitCode::FAILURE
    };
    if check.is_silent {
        return tell(rt, "check", &check.found.members(), status);
    }
    Ok(status)
}

impl Check {
    // Nothing was found yet.
    fn start(&mut self, alloc: Global) -> Result<(), AllocError> {
        self.checker = if self.keeps.is_empty() {
            Checker::new(alloc, self.currency)
        } else {
            Checker::keeping(alloc, self.currency, self.keeps.as_slice())?
        };
        Ok(())
    }

    // Prints what was found, also where the export can't be read to its end. Whether it has no fault.
    fn finish(&mut self, rt: &HostRuntime, name: &str, is_whole: bool) -> Result<bool, Fault>
        ensures clean { IfOk result (λ is_clean. IsTrue is_clean
            → (self.new.checker.faults ≡ 0) × 1 ≤ self.new.checker.records) }
    {
        let checker = &mut self.checker;
        if is_whole {
            checker.end(rt.alloc())?;
        }
        checker.find_repeats(rt.alloc())?;
        self.found = self.found.and(checker);
        if !self.is_silent {
            print_found(rt, name, checker, self.is_json)?;
        }
        Ok(is_whole && checker.faults == 0 && checker.records > 0)
    }

    // Says which dialect reads a value that is a fault, where one does.
    fn propose(&self, rt: &HostRuntime, walk: &Walk<'_>) {
        for finding in self.checker.findings.iter() {
            for place in finding.places.iter() {
                if walk.propose(rt, finding.column.as_str(), place.value.as_str()) {
                    return;
                }
            }
        }
    }
}

impl Taker for Check {
    fn command(&self) -> &'static str {
        "check"
    }

    fn goes_on(&self) -> bool {
        true
    }

    fn begin(&mut self, rt: &HostRuntime, header: &[u8], line_end: u8) -> Result<bool, Fault> {
        self.start(rt.alloc())?;
        self.checker.check_header(rt.alloc(), header)?;
        self.checker
            .check_kept(rt.alloc(), header, self.keeps.as_slice())?;
        self.checker.pass_header(header, line_end);
        Ok(self.checker.faults == 0)
    }

    fn take(&mut self, rt: &HostRuntime, walk: &mut Walk<'_>, part: &Part) -> Result<bool, Fault> {
        let before = self.checker.records;
        self.checker.pass_repeated(part);
        let meant = walk.meant(rt.alloc(), part)?;
        match self
            .checker
            .check(rt.alloc(), meant.as_ref().unwrap_or(part))
        {
            Ok(()) => {
                walk.took(rt, part, self.checker.records.saturating_sub(before));
                Ok(true)
            }
            Err(RowFault::NoMemory) => Err(Fault::NoMemory),
            Err(fault) => {
                walk.progress.end(rt);
                say_fault(rt, walk.shown.as_str(), code_of(fault));
                Ok(false)
            }
        }
    }

    fn end(
        &mut self,
        rt: &HostRuntime,
        walk: &mut Walk<'_>,
        is_whole: bool,
    ) -> Result<bool, Fault> {
        walk.progress.end(rt);
        let is_clean = self.finish(rt, walk.name.as_str(), is_whole)?;
        self.propose(rt, walk);
        Ok(is_clean)
    }

    fn take_none(&mut self, rt: &HostRuntime, walk: &mut Walk<'_>) -> Result<bool, Fault> {
        self.start(rt.alloc())?;
        self.finish(rt, walk.name.as_str(), true)
    }
}

// Prints what was found in an export.
fn print_found(
    rt: &HostRuntime,
    name: &str,
    checker: &Checker,
    is_json: bool,
) -> Result<ExitCode, Fault> {
    let answer = if is_json {
        as_json(rt.alloc(), name, checker)?
    } else {
        as_text(rt.alloc(), name, checker)?
    };
    print_answer(rt, answer.as_bytes())
}
