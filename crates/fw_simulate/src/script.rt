//! The lines of a script.
ghost use Rattle.std.specs.Prelude.{IfOk};
ghost use Rattle.fw_entry.specs.Spelling.{HasRowCount};
ghost use Rattle.fw_entry.specs.View.{command_view};

use crate::contents::{
    CURRENCY, commitment_of, policy_of, purchase_of, row_of_commitment, rows_of_cost,
};
use crate::setup::{Device, Files, read_device};
use fw_disk::Stoppable;
use fw_entry::{Command, Entry, EntryFault};
use fw_group::{Event, House};
use fw_recover::{Store, StoreFault};
use fw_rows::Currency;
use std::alloc::{AllocError, Global};
use std::io;

/// Why the program ended early.
#[derive(Clone, Copy, Debug, Drop, thiserror::Error)]
pub(crate) enum Fault {
    /// A line is no line of a script, or stands where it can't.
    #[error("a line of a script is wrong")]
    Script,
    /// A stream could not be read or written.
    #[error("a stream failed")]
    Io,
    /// The allocator refused a growth.
    #[error("no memory")]
    NoMemory,
}

impl From<AllocError> for Fault {
    fn from(_: AllocError) -> Fault {
        Fault::NoMemory
    }
}

impl From<io::Error> for Fault {
    fn from(error: io::Error) -> Fault {
        if error.kind() == io::ErrorKind::OutOfMemory {
            Fault::NoMemory
        } else {
            Fault::Io
        }
    }
}

impl From<EntryFault> for Fault {
    fn from(fault: EntryFault) -> Fault {
        match fault {
            EntryFault::NoMemory => Fault::NoMemory,
            _ => Fault::Script,
        }
    }
}

/// A script of events.
#[derive(Drop)]
pub(crate) struct Script {
    pub(crate) importers: usize,
    pub(crate) analysts: usize,
    pub(crate) house: House<Device>,
    pub(crate) events: Vec<Event>,
}

/// What stands where a script of events begins.
pub(crate) enum Start {
    Created,
    /// The files weren't empty.
    Stopped,
    NotCreated(StoreFault),
}

/// The beginning of a script of events, by the words behind `run`.
pub(crate) fn read_script(
    alloc: Global,
    files: &Files,
    words: &[&str],
) -> Result<(Script, Start), Fault> {
    let [importers, analysts, device @ ..] = words else {
        return Err(Fault::Script);
    };
    let (importers, analysts) = (read_place(importers)?, read_place(analysts)?);
    let device = read_device(alloc, files, device)?;
    let (house, start) = house_on(alloc, device, files.are_empty());
    let script = Script {
        importers,
        analysts,
        house,
        events: Vec::new(alloc),
    };
    Ok((script, start))
}

// A new warehouse on a device; or the stopped device, where it isn't to be made, or none was made.
fn house_on(alloc: Global, device: Device, is_made: bool) -> (House<Device>, Start) {
    if !is_made {
        return (House::Stopped(device), Start::Stopped);
    }
    match create(alloc, device) {
        Ok(store) => (House::Open(store), Start::Created),
        Err((device, fault)) => (House::Stopped(device.stop()), Start::NotCreated(fault)),
    }
}

/// The text of a fault, and of what is corrupt the side and the place. Out of memory is a fault of the program.
pub(crate) fn wrong(alloc: Global, fault: StoreFault) -> Result<String, Fault> {
    match fault {
        StoreFault::NoMemory => Err(Fault::NoMemory),
        StoreFault::Corrupt { side, at } => Ok(format!(in alloc; "{fault} {side:?} {at}")?),
        fault => Ok(format!(in alloc; "{fault}")?),
    }
}

/// Creates a warehouse in dollars.
pub(crate) fn create(alloc: Global, device: Device) -> Result<Store<Device>, (Device, StoreFault)> {
    match Currency::new(CURRENCY) {
        Some(currency) => Store::create(alloc, device, currency),
        None => Err((device, StoreFault::NoHouse)),
    }
}

/// Adds an item at the end.
pub(crate) fn push<T: Drop>(items: &mut Vec<T>, item: T) -> Result<(), AllocError> {
    items.push(item)?;
    Ok(())
}

/// The event of a line's words.
pub(crate) fn read_event(alloc: Global, words: &[&str]) -> Result<Event, Fault> {
    match words {
        ["take"] => Ok(Event::Take),
        ["commit"] => Ok(Event::Commit),
        ["checkpoint"] => Ok(Event::Checkpoint),
        ["stop"] => Ok(Event::Stop),
        ["reopen"] => Ok(Event::Reopen),
        ["view", analyst] => Ok(Event::View {
            analyst: read_place(analyst)?,
        }),
        ["learn", analyst, event, place] => Ok(Event::Learn {
            analyst: read_place(analyst)?,
            event: read_place(event)?,
            place: read_place(place)?,
        }),
        [kind, importer, origin, number, content @ ..] => {
            let command = read_command(alloc, kind, content)?;
            read_post(alloc, importer, origin, number, command)
        }
        _ => Err(Fault::Script),
    }
}

// The post of an entry.
fn read_post(
    alloc: Global,
    importer: &str,
    origin: &str,
    number: &str,
    command: Command,
) -> Result<Event, Fault>
    requires { HasRowCount (command_view command) }
{
    let importer = read_place(importer)?;
    let entry = Entry::new(alloc, origin.as_bytes(), read_number(number)?, command)?;
    Ok(Event::Post { importer, entry })
}

// What an entry brings, by its kind and the words behind its number.
fn read_command(alloc: Global, kind: &str, content: &[&str]) -> Result<Command, Fault>
    ensures { IfOk result (λ command. HasRowCount (command_view command)) }
{
    match (kind, content) {
        ("post", [rows, cost]) => rows_of_cost(alloc, read_place(rows)?, cost),
        ("use", [id]) => row_of_commitment(alloc, id),
        ("withdraw", [post]) => Ok(Command::Withdraw(read_number(post)?)),
        ("commitment", [id]) => commitment_of(alloc, id),
        ("add", [id, cost]) => purchase_of(alloc, id, cost),
        ("policy", [key]) => policy_of(alloc, key),
        _ => Err(Fault::Script),
    }
}

/// The numbers of these words.
pub(crate) fn read_numbers(alloc: Global, words: &[&str]) -> Result<Vec<u64>, Fault> {
    let mut numbers = Vec::new(alloc);
    for word in words {
        push(&mut numbers, read_number(word)?)?;
    }
    Ok(numbers)
}

/// A number.
pub(crate) fn read_number(word: &str) -> Result<u64, Fault> {
    match word.parse::<u64>() {
        Ok(number) => Ok(number),
        Err(_) => Err(Fault::Script),
    }
}

/// A number that counts something.
pub(crate) fn read_place(word: &str) -> Result<usize, Fault> {
    match word.parse::<usize>() {
        Ok(place) => Ok(place),
        Err(_) => Err(Fault::Script),
    }
}
