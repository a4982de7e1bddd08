//! `fw_simulate` runs scripts over warehouses in memory, whose devices fail and stop as each script says, and prints what each line was
//! answered: events of the running system, or calls on a store. `tools/simulate.py` makes scripts of events by chance, and `tools/sweep.py`
//! scripts in which each call of the device fails in turn; both check the answers by a definition of their own.
//!
//! Scripts come from standard input, one after the other, line by line. The words in capitals are numbers, if nothing else is said.
//!
//! ```text
//! # ..                                    is printed as it stands, before or behind a script
//! files LIMIT LEFT RIGHT                  how long the files of the next script's device may be, and their bytes in hexadecimal, `-` for none
//! run IMPORTERS ANALYSTS DEVICE           begins a script of events
//! post IMPORTER ORIGIN NUMBER ROWS COST   an importer posts so many rows, each of this BilledCost
//! use IMPORTER ORIGIN NUMBER ID           an importer posts a row that names a commitment
//! withdraw IMPORTER ORIGIN NUMBER POST    an importer withdraws the post of this number of the same origin
//! commitment IMPORTER ORIGIN NUMBER ID    an importer posts a commitment
//! add IMPORTER ORIGIN NUMBER ID COST      an importer posts a purchase of this cost that is added to a commitment
//! policy IMPORTER ORIGIN NUMBER KEY       an importer posts a policy
//! take                                    the next group is taken in hand
//! commit                                  it is stored and published
//! checkpoint                              the warehouse is written anew
//! view ANALYST                            an analyst looks at what is published
//! learn ANALYST EVENT PLACE               an analyst learns of a receipt
//! stop                                    the system stops as by a crash
//! reopen                                  it is opened again
//! end                                     runs the script
//! ```
//!
//! DEVICE is LEFT PASSES.., LEFT `once` PASS or LEFT `ever` PASS. LEFT is what a crash leaves of a write that wasn't synced: `old`, `new`, or a
//! number from 0 to 255, which is then in each of its bytes. The device passes the first of PASSES calls and fails one, passes the second
//! number and fails one, and so on, also after a stop; or it passes PASS calls, and then fails one, or each, until a stop. Events and places are
//! counted from 0.
//!
//! A script of events is answered by the line `created`, `not created` with the fault, or `stopped` where its files weren't empty, in which case
//! nothing is made; then by a line for each event, and `end`; where memory ran out, by `no memory` before that.
//!
//! ```text
//! store DEVICE               begins a script of calls
//! create                     makes a warehouse
//! open                       opens one
//! entry NUMBER               commits the entry of this number of the origin `a`, which sets a policy
//! group NUMBER..             commits a group of such entries
//! prepared NUMBER..          prepares such a group, and writes it
//! each NUMBER..              commits such entries in turn, until one fails
//! rows NUMBER ROWS NANOS     commits a post of the origin `z`: so many rows, each of so many nanos
//! checkpoint                 writes the warehouse anew
//! list                       shows the list
//! segments                   shows how many rows each segment has, and the first and the last BilledCost
//! lengths                    shows how long the body and the log are
//! close                      closes the store
//! stop                       the device stops as by a crash
//! files                      shows the bytes of Left and Right
//! sides                      shows the side in use, its generation, and the length of its body
//! side GENERATION            makes Right, of an empty warehouse
//! end                        ends the script
//! ```
//!
//! Each line but the first is answered by a line, with a fault where it is refused. A call on a store where there is none is `ignored`, and so
//! is one on a device that is in a store.
#![tactic(auto)]

mod calls;
mod contents;
mod print;
mod script;
mod setup;

use calls::{Bench, call};
use fw_group::{EventAnswer, run_events};
use print::{print_answer, print_line};
use script::{Fault, Script, Start, push, read_event, read_script};
use setup::{Files, read_device, read_files};
use std::alloc::Global;
use std::io::{self, BufWriter, Write};
use std::process::ExitCode;

/// How much of the answers is held back before it is written.
const OUTPUT_BUFFER: usize = 65_536;

fn main(rt: HostRuntime) -> ExitCode {
    match run_scripts(&rt) {
        Ok(()) => ExitCode::SUCCESS,
        Err(fault) => {
            let _ = eprintln!(rt; "fw_simulate: {fault}");
            ExitCode::FAILURE
        }
    }
}

// Runs the scripts on standard input, and writes their answers.
fn run_scripts(rt: &HostRuntime) -> Result<(), Fault> {
    let alloc = rt.alloc();
    let text = io::read_to_string(alloc, rt.stdin())?;
    let mut output = BufWriter::with_capacity(alloc, OUTPUT_BUFFER, rt.stdout())?;
    run_lines(alloc, &mut output, text.as_str())?;
    output.flush()?;
    Ok(())
}

// What the lines so far have begun.
#[derive(Drop)]
struct Begun {
    files: Files,
    script: Option<Script>,
    bench: Option<Bench>,
}

// Runs the scripts of a text, and writes their answers.
fn run_lines<W: Write>(alloc: Global, output: &mut W, text: &str) -> Result<(), Fault> {
    let mut begun = Begun {
        files: Files::new(alloc),
        script: None,
        bench: None,
    };
    for line in text.lines() {
        take_line(alloc, output, &mut begun, line)?;
    }
    Ok(())
}

// Takes a line.
fn take_line<W: Write>(
    alloc: Global,
    output: &mut W,
    begun: &mut Begun,
    line: &str,
) -> Result<(), Fault> {
    if line.starts_with('#') {
        return print_line(output, line);
    }
    let words: Vec<&str> = line.split(' ').collect(alloc)?;
    take_words(alloc, output, begun, &words)
}

// Takes the words of a line, which goes on with the script that was begun, if one was.
fn take_words<W: Write>(
    alloc: Global,
    output: &mut W,
    begun: &mut Begun,
    words: &[&str],
) -> Result<(), Fault> {
    if words == ["end"].as_slice() {
        return end(alloc, output, begun);
    }
    if let Some(script) = &mut begun.script {
        return add_event(alloc, script, words);
    }
    if let Some(bench) = &mut begun.bench {
        return print_call(alloc, output, bench, words);
    }
    begin(alloc, output, begun, words)
}

// Takes the words of a line before a script.
fn begin<W: Write>(
    alloc: Global,
    output: &mut W,
    begun: &mut Begun,
    words: &[&str],
) -> Result<(), Fault> {
    match words {
        ["files", words @ ..] => {
            begun.files = read_files(alloc, words)?;
            Ok(())
        }
        ["run", words @ ..] => {
            let (script, start) = read_script(alloc, &begun.files, words)?;
            begun.script = Some(script);
            print_start(alloc, output, start)
        }
        ["store", words @ ..] => {
            begun.bench = Some(Bench::new(read_device(alloc, &begun.files, words)?));
            Ok(())
        }
        _ => Err(Fault::Script),
    }
}

// Ends the script that was begun.
fn end<W: Write>(alloc: Global, output: &mut W, begun: &mut Begun) -> Result<(), Fault> {
    begun.files = Files::new(alloc);
    match (begun.script.take(), begun.bench.take()) {
        (Some(script), _) => run_script(alloc, output, script),
        (None, Some(_)) => print_line(output, "end"),
        (None, None) => Err(Fault::Script),
    }
}

// Adds the event of a line's words to a script.
fn add_event(alloc: Global, script: &mut Script, words: &[&str]) -> Result<(), Fault> {
    push(&mut script.events, read_event(alloc, words)?)?;
    Ok(())
}

// Makes the call of a line's words, and writes what it answers.
fn print_call<W: Write>(
    alloc: Global,
    output: &mut W,
    bench: &mut Bench,
    words: &[&str],
) -> Result<(), Fault> {
    let text = call(alloc, bench, words)?;
    print_line(output, text.as_str())
}

// Runs a script of events.
fn run_script<W: Write>(alloc: Global, output: &mut W, script: Script) -> Result<(), Fault> {
    let Script {
        importers,
        analysts,
        house,
        events,
    } = script;
    let (_, answers, refused) = run_events(alloc, house, importers, analysts, events);
    print_answers(alloc, output, answers.as_slice(), refused.is_some())
}

// Writes what stands where a script of events begins.
fn print_start<W: Write>(alloc: Global, output: &mut W, start: Start) -> Result<(), Fault> {
    match start {
        Start::Created => print_line(output, "created"),
        Start::Stopped => print_line(output, "stopped"),
        Start::NotCreated(fault) => {
            let line = format!(in alloc; "not created {fault}")?;
            print_line(output, line.as_str())
        }
    }
}

// Writes what the events of a script answered, and whether memory ran out.
fn print_answers<W: Write>(
    alloc: Global,
    output: &mut W,
    answers: &[EventAnswer],
    is_refused: bool,
) -> Result<(), Fault> {
    for answer in answers {
        print_answer(alloc, output, answer)?;
    }
    if is_refused {
        output.write_all(b"no memory\n")?;
    }
    output.write_all(b"end\n")?;
    Ok(())
}
