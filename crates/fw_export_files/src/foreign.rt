//! Files that are no CSV in UTF-8, known by their first bytes.
use std::alloc::{AllocError, Global};

/// How many bytes at the start of a file tell what it is.
pub(crate) const TELLING: usize = 6;

/// A format other than CSV in UTF-8, and what to do about it.
#[derive(Clone, Copy, Drop)]
pub(crate) struct Foreign {
    // the first bytes of its files
    start: &'static [u8],
    /// What such a file is.
    pub(crate) is: &'static str,
    // the command that writes its text to standard output; the empty text where there is none
    command: &'static str,
    // what else can be done
    remedy: &'static str,
}

/// The formats. Those that `tools/split_export.py` names have the words that it has.
const FORMATS: [Foreign; 8] = [
    Foreign {
        start: b"\x1F\x8B",
        is: "it is compressed by gzip",
        command: "gunzip -c",
        remedy: "",
    },
    Foreign {
        start: b"PK\x03\x04",
        is: "it is a zip archive or a spreadsheet",
        command: "unzip -p",
        remedy: "; save a spreadsheet as CSV",
    },
    Foreign {
        start: b"\x28\xB5\x2F\xFD",
        is: "it is compressed by zstd",
        command: "zstd -dc",
        remedy: "",
    },
    Foreign {
        start: b"BZh",
        is: "it is compressed by bzip2",
        command: "bunzip2 -c",
        remedy: "",
    },
    Foreign {
        start: b"\xFD7zXZ",
        is: "it is compressed by xz",
        command: "xz -dc",
        remedy: "",
    },
    Foreign {
        start: b"PAR1",
        is: "it is a Parquet file",
        command: "",
        remedy: "export it as CSV",
    },
    Foreign {
        start: b"\xFF\xFE",
        is: "it is UTF-16",
        command: "iconv -f UTF-16 -t UTF-8",
        remedy: "; or save it as UTF-8",
    },
    Foreign {
        start: b"\xFE\xFF",
        is: "it is UTF-16",
        command: "iconv -f UTF-16 -t UTF-8",
        remedy: "; or save it as UTF-8",
    },
];

/// The format of a file that begins with these bytes; none where it may be a CSV.
pub(crate) fn foreign_of(start: &[u8]) -> Option<Foreign> {
    for format in FORMATS.iter() {
        if start.starts_with(format.start) {
            return Some(*format);
        }
    }
    None
}

/// What to do about a file of a format. Its name is as messages show it, and none where it is standard input; `taker` is the command that was given it.
pub(crate) fn what_to_do(
    alloc: Global,
    format: &Foreign,
    name: Option<&str>,
    taker: &str,
) -> Result<String, AllocError> {
    let (command, remedy) = (format.command, format.remedy);
    if command.is_empty() {
        return String::from_str(alloc, remedy);
    }
    match name {
        Some(name) if is_plain(name) => {
            format!(in alloc; "{command} {name} | focusd {taker} ... -{remedy}")
        }
        Some(_) => format!(in alloc; "{command} FILE | focusd {taker} ... -{remedy}"),
        None => format!(in alloc; "... | {command} | focusd {taker} ... -{remedy}"),
    }
}

// Whether a shell takes a name as it stands.
fn is_plain(name: &str) -> bool {
    !name.starts_with('-')
        && name.as_bytes().iter().all(|byte| byte.is_ascii_alphanumeric()
            || b"._/-+,:@%=".contains(byte))
}
