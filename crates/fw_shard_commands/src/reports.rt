//! The direct reports of files.
use fw_calendar::{Period, hour_text};
use fw_console::{Fault, letters, refuse, report_of};
use fw_direct::{DirectDocument, DocumentFault, Sheet, read_document};
use fw_table::shown_text;
use std::alloc::Global;

/// A direct report, and where it stands.
struct Given {
    /// The file as messages have it, with the line where it has several.
    name: String,
    document: DirectDocument,
}

impl Drop for Given {
    fn drop(self) {
        let Self {
            name: _,
            document: _,
        } = self;
    }
}

impl Given {
    // The name, and the report.
    fn into_parts(self) -> (String, DirectDocument) {
        let Self { name, document } = self;
        (name, document)
    }
}

/// The direct reports of files, all of one tag and one currency.
pub(crate) struct Reports {
    all: Vec<Given>,
}

impl Drop for Reports {
    fn drop(self) {
        let Self { all: _ } = self;
    }
}

impl Reports {
    /// No report yet.
    pub(crate) fn new(alloc: Global) -> Reports {
        Reports {
            all: Vec::new(alloc),
        }
    }

    /// Reads the reports of a file, or of standard input where its name is `-`; false where it has a fault, which was said. Reports are of the tag,
    /// where there is one.
    pub(crate) fn read(
        &mut self,
        rt: &HostRuntime,
        file: &str,
        tag: Option<&str>,
    ) -> Result<bool, Fault> {
        let Some(text) = report_of(rt, file)? else {
            return Ok(false);
        };
        let name = if file == "-" { "standard input" } else { file };
        let name = shown_text(rt.alloc(), name)?;
        match str::from_utf8(text.as_slice()) {
            Ok(text) => self.read_text(rt, name.as_str(), text, tag),
            Err(_) => Ok(refuse(rt, name.as_str(), "W1 NoDirectReport", "it is not UTF-8")),
        }
    }

    // Reads the reports of a text.
    fn read_text(
        &mut self,
        rt: &HostRuntime,
        name: &str,
        text: &str,
        tag: Option<&str>,
    ) -> Result<bool, Fault> {
        if is_one(text) {
            return self.read_one(rt, String::from_str(rt.alloc(), name)?, text, tag);
        }
        for (place, line) in text.lines().enumerate() {
            if !line.trim().is_empty() {
                let number = place.saturating_add(1);
                let about = format!(in rt.alloc(); "{name}:{number}")?;
                if !self.read_one(rt, about, line, tag)? {
                    return Ok(false);
                }
            }
        }
        Ok(true)
    }

    // Reads a report.
    fn read_one(
        &mut self,
        rt: &HostRuntime,
        name: String,
        text: &str,
        tag: Option<&str>,
    ) -> Result<bool, Fault> {
        match read_document(rt.alloc(), text) {
            Ok(document) => self.add(rt, name, document, tag),
            Err(DocumentFault::NoMemory) => Err(Fault::NoMemory),
            Err(DocumentFault::Syntax) => Ok(refuse(
                rt,
                name.as_str(),
                "W1 NoDirectReport",
                "it is no JSON",
            )),
            Err(
                DocumentFault::Member {
                    name: member,
                    expected,
                },
            ) => {
                let reason = format!(in rt.alloc(); "{member}: expected {expected}")?;
                Ok(refuse(rt, name.as_str(), "W1 NoDirectReport", reason.as_str()))
            }
        }
    }

    // Adds a report, if it is of the tag and the currency of those before it.
    fn add(
        &mut self,
        rt: &HostRuntime,
        name: String,
        document: DirectDocument,
        tag: Option<&str>,
    ) -> Result<bool, Fault> {
        if let Some(wanted) = tag {
            if document.tag.as_str() != wanted {
                return other_tag(rt, name.as_str(), document.tag.as_str(), wanted);
            }
        }
        if let Some(first) = self.all.as_slice().first() {
            let wanted = first.document.tag.as_str();
            if document.tag.as_str() != wanted {
                return other_tag(rt, name.as_str(), document.tag.as_str(), wanted);
            }
            if document.currency != first.document.currency {
                return other_currency(rt, name.as_str(), &document, &first.document);
            }
        }
        self.all.push(Given { name, document })?;
        Ok(true)
    }

    /// The tag of the reports, and the letters of their currency.
    pub(crate) fn tag_and_currency(&self) -> (&str, &str) {
        match self.all.as_slice().first() {
            Some(first) => (
                first.document.tag.as_str(),
                letters(&first.document.currency),
            ),
            None => ("", ""),
        }
    }

    /// The hours from the first of all reports to the last; none where there is no report.
    pub(crate) fn hull(&self) -> Option<Period> {
        let mut hull: Option<Period> = None;
        for given in &self.all {
            let range = given.document.range;
            hull = match hull {
                Some(so_far) => Some(Period {
                    from: so_far.from.min(range.from),
                    to: so_far.to.max(range.to),
                }),
                None => Some(range),
            };
        }
        hull
    }

    /// Whether all reports lie in a range; where one doesn't, that was said.
    pub(crate) fn lie_in(&self, rt: &HostRuntime, range: Period) -> Result<bool, Fault> {
        for given in &self.all {
            let own = given.document.range;
            if own.from < range.from || own.to > range.to {
                let hours = hours_text(rt.alloc(), own)?;
                let reason = format!(in rt.alloc(); "its hours, {hours}, aren't all in the range")?;
                return Ok(refuse(rt, given.name.as_str(), "W5 OutsideRange", reason.as_str()));
            }
        }
        Ok(true)
    }

    /// Puts all reports to the periods of a sheet; false where one has hours of several, which was said.
    pub(crate) fn put_to(self, rt: &HostRuntime, sheet: &mut Sheet) -> Result<bool, Fault> {
        let Self { all } = self;
        for given in all {
            let (name, document) = given.into_parts();
            for part in document.into_parts() {
                let period = part.period;
                if !sheet.put(part)? {
                    return other_period(rt, name.as_str(), period);
                }
            }
        }
        Ok(true)
    }
}

// Whether a text is one report. Where it has several, each is a line of its own, so that its first line has a whole object.
fn is_one(text: &str) -> bool {
    for line in text.lines() {
        let line = line.trim();
        if !line.is_empty() {
            return !(line.starts_with('{') && line.ends_with('}'));
        }
    }
    true
}

// Says that a report is of another tag. The answer is false.
fn other_tag(rt: &HostRuntime, name: &str, tag: &str, wanted: &str) -> Result<bool, Fault> {
    let tag = shown_text(rt.alloc(), tag)?;
    let wanted = shown_text(rt.alloc(), wanted)?;
    let (tag, wanted) = (tag.as_str(), wanted.as_str());
    let reason = format!(in rt.alloc(); "its tag is {tag:?}, and {wanted:?} is charged")?;
    Ok(refuse(rt, name, "W2 OtherTag", reason.as_str()))
}

// Says that a report is of another currency. The answer is false.
fn other_currency(
    rt: &HostRuntime,
    name: &str,
    document: &DirectDocument,
    first: &DirectDocument,
) -> Result<bool, Fault> {
    let own = letters(&document.currency);
    let wanted = letters(&first.currency);
    let reason = format!(in rt.alloc();
        "its costs are in {own}, and those of the first report in {wanted}"
    )?;
    Ok(refuse(rt, name, "W3 OtherCurrency", reason.as_str()))
}

// Says that a report has hours of several periods together. The answer is false.
fn other_period(rt: &HostRuntime, name: &str, period: Period) -> Result<bool, Fault> {
    let hours = hours_text(rt.alloc(), period)?;
    let reason = format!(in rt.alloc();
        "its period {hours} has hours of several periods that are asked for"
    )?;
    Ok(refuse(rt, name, "W4 OtherPeriod", reason.as_str()))
}

// Hours in a row, in words.
fn hours_text(alloc: Global, hours: Period) -> Result<String, Fault> {
    let from = hour_text(alloc, hours.from)?;
    let to = hour_text(alloc, hours.to)?;
    Ok(format!(in alloc; "{from} to {to}")?)
}
