//! Parts that workers read ahead of the one that is stored.
use crate::importing::Import;
use fw_console::Fault;
use fw_cut::{CutFault, Cutter, Part};
use fw_dialect::Dialect;
use fw_export_files::{Source, Taker, Walk, rewritten};
use fw_import::{ReadPart, Reader};
use fw_rows::Currency;
use std::alloc::{AllocError, Global};
use std::collections::VecDeque;
use std::thread;
use std::thread::{JoinHandle, Threads};

/// A part in the form of a provider, and the part that it stands for.
#[derive(Drop)]
pub(crate) struct Rewritten {
    pub(crate) part: Part,
    pub(crate) meant: Part,
}

// What a worker made of a part.
#[derive(Drop)]
struct Done {
    // where the exports are in the form of a provider
    rewritten: Option<Rewritten>,
    read: ReadPart,
}

// What a worker is given.
#[derive(Drop)]
enum Given {
    // the text of a part
    Text(Vec<u8>),
    // a part in the form of a provider
    Foreign(Dialect, Part),
}

impl Given {
    // What a worker is given of a part, whose text was copied.
    fn of_part(alloc: Global, text: Vec<u8>, part: &Part, dialect: Option<Dialect>) -> Given {
        match dialect {
            Some(dialect) => {
                let part = Part {
                    text,
                    header: part.header,
                    is_last: part.is_last,
                    skipped: Vec::new(alloc),
                };
                Given::Foreign(dialect, part)
            }
            None => Given::Text(text),
        }
    }

    // Reads it.
    fn read(self, alloc: Global, reader: Reader, currency: Currency) -> Result<Done, AllocError> {
        match self {
            Given::Text(text) => Ok(Done {
                rewritten: None,
                read: reader.read(alloc, text, currency),
            }),
            Given::Foreign(dialect, part) => {
                let meant = rewritten(alloc, dialect, &part)?;
                let text = Vec::from_slice(alloc, meant.text.as_slice())?;
                Ok(Done {
                    rewritten: Some(Rewritten { part, meant }),
                    read: reader.read(alloc, text, currency),
                })
            }
        }
    }
}

// A part that was cut behind another one, and who cut it.
#[derive(Drop)]
struct CutAhead {
    cutter: Cutter<Source>,
    part: Result<Part, CutFault>,
    // a copy of its text for the worker that reads it; none where memory is refused
    text: Option<Vec<u8>>,
}

impl CutAhead {
    // Cuts the next part.
    fn of(alloc: Global, cutter: Cutter<Source>) -> CutAhead {
        let mut cutter = cutter;
        let part = cutter.next_part(alloc);
        let text = match &part {
            Ok(part) => copy_of(alloc, part),
            Err(_) => None,
        };
        CutAhead { cutter, part, text }
    }

    // Whether more parts follow it.
    fn goes_on(&self) -> bool {
        match &self.part {
            Ok(part) => !part.is_last,
            Err(_) => false,
        }
    }
}

// A copy of the text of a part; none where memory is refused.
fn copy_of(alloc: Global, part: &Part) -> Option<Vec<u8>> {
    Vec::from_slice(alloc, part.text.as_slice()).ok()
}

// The part behind those that were seen.
#[derive(Drop)]
enum Behind {
    // It is cut by a thread.
    Begun(JoinHandle<CutAhead>),
    // It was cut, since no thread could be made.
    Cut(CutAhead),
}

/// An import whose parts are read by workers, each in a thread of its own, while those before are stored and another thread cuts the next one.
pub(crate) struct Ahead<'i, 'a, T> {
    import: &'i mut Import<'a>,
    threads: &'i T,
    // how many parts are read ahead: none by one worker, which reads each part when it is stored
    parts: usize,
    // the workers that read nothing
    idle: Vec<Reader>,
    // for each part that was seen and not taken the thread that reads it, if there is one
    begun: VecDeque<Option<JoinHandle<Result<Done, AllocError>>>>,
    // the part behind these, while an export has more
    behind: Option<Behind>,
    // the copied text of the part that was cut last, until a worker has it
    text: Option<Vec<u8>>,
}

impl<T> Drop for Ahead<'_, '_, T> {
    fn drop(self) {
        let Self {
            import: _,
            threads: _,
            parts: _,
            idle: _,
            begun: _,
            behind: _,
            text: _,
        } = self;
    }
}

impl<'i, 'a, T: Threads> Ahead<'i, 'a, T> {
    /// An import by so many workers.
    pub(crate) fn new(
        alloc: Global,
        import: &'i mut Import<'a>,
        threads: &'i T,
        workers: u32,
    ) -> Ahead<'i, 'a, T> {
        Ahead {
            import,
            threads,
            parts: if workers > 1 { workers as usize } else { 0 },
            idle: Vec::new(alloc),
            begun: VecDeque::new(alloc),
            behind: None,
            text: None,
        }
    }

    /// Waits for the workers to end what they read. The thread that cuts isn't waited for: more of standard input may never come.
    pub(crate) fn stop(&mut self) {
        for _ in 0..self.begun.len() {
            let _ = self.next();
        }
        self.behind = None;
    }

    // The part behind those that were seen, if it was cut or is being cut.
    fn cut_behind(&mut self) -> Option<CutAhead> {
        match self.behind.take()? {
            Behind::Begun(thread) => Some(thread.join(self.threads)),
            Behind::Cut(cut) => Some(cut),
        }
    }

    // Has a thread cut the next part; it is cut here where none can be made.
    fn start_cut(&mut self, alloc: Global, cutter: Cutter<Source>) {
        self.behind = Some(
            match thread::spawn(self.threads, move || CutAhead::of(alloc, cutter)) {
                Ok(thread) => Behind::Begun(thread),
                Err(refused) => Behind::Cut((refused.value)()),
            },
        );
    }

    // What a worker made of the part that is taken next, if one read it and memory didn't run out.
    fn next(&mut self) -> Option<Done> {
        let thread = self.begun.pop_front()??;
        thread.join(self.threads).ok()
    }

    // Has a worker read a part; none where memory or a thread is refused.
    fn start(
        &mut self,
        alloc: Global,
        part: &Part,
        dialect: Option<Dialect>,
    ) -> Option<JoinHandle<Result<Done, AllocError>>> {
        let text = self.text.take()?;
        let given = Given::of_part(alloc, text, part, dialect);
        let currency = self.import.house.currency();
        let reader = match self.idle.pop() {
            Some(reader) => reader,
            None => self.import.new_reader(alloc).ok()?,
        };
        thread::spawn(self.threads, move || given.read(alloc, reader, currency)).ok()
    }
}

impl<T: Threads> Taker for Ahead<'_, '_, T> {
    fn command(&self) -> &'static str {
        "import"
    }

    fn parts_ahead(&self) -> usize {
        self.parts
    }

    fn cut(
        &mut self,
        alloc: Global,
        cutter: &mut Option<Cutter<Source>>,
    ) -> Option<Result<Part, CutFault>> {
        if self.parts == 0 {
            return Some(cutter.as_mut()?.next_part(alloc));
        }
        let cut = match self.cut_behind() {
            Some(cut) => cut,
            None => CutAhead::of(alloc, cutter.take()?),
        };
        let goes_on = cut.goes_on();
        let CutAhead { cutter, part, text } = cut;
        self.text = text;
        if goes_on {
            self.start_cut(alloc, cutter);
        }
        Some(part)
    }

    fn see(&mut self, rt: &HostRuntime, walk: &Walk<'_>, part: &Part) -> Result<(), Fault> {
        if self.parts > 0 {
            let thread = self.start(rt.alloc(), part, walk.dialect);
            self.begun.push_back(thread)?;
        }
        Ok(())
    }

    fn take(&mut self, rt: &HostRuntime, walk: &mut Walk<'_>, part: &Part) -> Result<bool, Fault> {
        if let Some(Done { rewritten, read }) = self.next() {
            self.import.give(rewritten, read);
        }
        let is_taken = self.import.take(rt, walk, part)?;
        if let Some(reader) = self.import.take_reader() {
            let _ = self.idle.push(reader);
        }
        Ok(is_taken)
    }
}
