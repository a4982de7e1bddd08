//! A text that is checked part by part.
ghost use Rattle.std.specs.Prelude.{◌≡◌, ◌≤◌, ◌+◌, ℕ, List, [], flat_map, map, None, IfOk, IfSome, OnOk, Err, Result};
ghost use Rattle.csv.specs.Records.{fields_of};
ghost use Rattle.fw_charge.specs.Charge.{Charge};
ghost use Rattle.fw_rows.specs.FaultNames.{fault_name};
ghost use Rattle.fw_rows.specs.Kept.{RowsKept};
ghost use Rattle.fw_rows.specs.Rows.{RowsRead, header_of, records_of};
ghost use Rattle.fw_rows.specs.declared.column.Column.{Column as ColumnValue};
ghost use Rattle.fw_rows.specs.declared.fault.RowFault.{RowFault};
ghost use Rattle.fw_rows.specs.declared.fault.RowFault.TheVariants.{DoubleColumn, MissingColumn};
ghost use Rattle.fw_check.specs.Checks.{Becomes, ReadsFor, checked, headers_again, nothing_checked, with_currency, with_fault, with_header, with_lines, with_read, records_in};
ghost use Rattle.fw_check.specs.Counts.{kept};
ghost use Rattle.fw_check.specs.Faults.{column_text, place_value};
ghost use Rattle.fw_check.specs.Headers.{HasCounted, OthersStay, double_in, faults_of, header_code, header_faults, kept_faults, missing_in};
ghost use Rattle.fw_check.specs.Kept.{kept_value, nothing_kept};
ghost use Rattle.fw_check.specs.Prints.{AreRepeats};

use crate::columns::{HeaderFault, REQUIRED, double_fault, fault_behind, missing_fault};
use crate::fields::{field_bytes, first_record, has_next, records_of};
use crate::findings::{Finding, Place, add_fault, column_name, column_of, shown_value, value_of};
use crate::kept::{KeptColumn, columns_of};
use crate::kept_fields::{copies, field_text, kept_place};
use crate::located::{blank, line_ends};
use crate::prints::Prints;
use crate::repair::{emptied, repaired};
use crate::repeats::{Repeats, repeats_of};
use crate::statistics::{Statistics, count_text};
use csv::ByteRecord;
use fw_column_rows::{KnownTexts, read_columns_after, read_columns_keeping};
use fw_columns::Columns;
use fw_cut::{Part, cut_off};
use fw_explain::explain_fault;
use fw_rows::{Column, Currency, Keep, Keeper, RecordFault, RowFault};
use std::alloc::{AllocError, Global};

/// How many faults of one record are looked for.
const MOST_FAULTS: usize = 32;

/// How many records of a part with a fault are read together. To read a text costs as much as several records do, however short it is.
const PIECE: usize = 64;

/// What kind a fault is of: its code and name, and what was expected.
#[derive(Clone, Copy, Drop)]
struct Kind {
    code: &'static str,
    expected: &'static str,
}

impl Kind {
    // The kind of a fault with this code and name.
    fn of(code: &'static str) -> Kind
        ensures { result.code.now ≡ code.now }
    {
        Kind {
            code,
            expected: explain_fault(code).expected,
        }
    }

    // The kind of a fault of a header.
    fn of_header(fault: HeaderFault) -> Kind
        ensures { result.code.now ≡ header_code fault }
    {
        match fault {
            HeaderFault::Missing => Kind::of(MISSING),
            HeaderFault::Double => Kind::of(DOUBLE),
        }
    }
}

/// The header lacks a column that it must have.
const MISSING: &str = "H1 MissingColumn";

/// The header has a column more than once.
const DOUBLE: &str = "H2 DoubleColumn";

/// No record follows the header.
const NO_ROWS: &str = "V14 NoRows";

/// A text that is checked part by part.
pub struct Checker {
    currency: Currency,
    // the byte that ends lines
    line_end: u8,
    // what is known of texts of tags
    known: KnownTexts,
    // the columns that are kept as tags, if any are
    keeper: Option<Keeper>,
    // the hashes of the rows that were seen
    prints: Prints,
    /// How many records were seen, the header not counted.
    pub records: u64,
    /// How many lines were seen.
    pub lines: u64,
    /// How many times the header stood again among the records.
    pub repeated: u64,
    /// How many records break a rule.
    pub bad_records: u64,
    /// How many faults there are.
    pub faults: u64,
    /// The faults by code and column, in the order in which they first come.
    pub findings: Vec<Finding>,
    /// What is in the records that break no rule.
    pub statistics: Statistics,
    /// The rows that stand twice, once they were [looked for](Checker::find_repeats).
    pub repeats: Repeats,
}

impl Drop for Checker {
    fn drop(self) {
        let Self {
            currency: _,
            line_end: _,
            known: _,
            keeper: _,
            prints: _,
            records: _,
            lines: _,
            repeated: _,
            bad_records: _,
            faults: _,
            findings: _,
            statistics: _,
            repeats: _,
        } = self;
    }
}

impl Checker {
    /// A checker of texts in this currency that has seen nothing, and keeps no column.
    pub fn new(alloc: Global, currency: Currency) -> Checker
        ensures nothing { checked result ≡ nothing_checked currency [] }
        ensures keeps { result.keeper ≡ None }
        ensures repeated { result.repeated ≡ 0 }
    {
        Checker::with(alloc, currency, None, Vec::new(alloc))
    }

    /// A checker that has seen nothing, and keeps these columns as tags, as an import does.
    pub fn keeping(alloc: Global, currency: Currency, keeps: &[Keep]) -> Result<Checker, AllocError>
        ensures nothing { IfOk result (λ c. checked c
            ≡ nothing_checked currency (map nothing_kept keeps.now)) }
        ensures keeps { IfOk result (λ c. IfSome c.keeper (λ k. k.keeps ≡ keeps.now)) }
        ensures repeated { IfOk result (λ c. c.repeated ≡ 0) }
    {
        let columns = columns_of(alloc, keeps)?;
        let keeper = Keeper::new(alloc, copies(alloc, keeps)?);
        Ok(Checker::with(alloc, currency, Some(keeper), columns))
    }

    // A checker that has seen nothing.
    fn with(
        alloc: Global,
        currency: Currency,
        keeper: Option<Keeper>,
        kept: Vec<KeptColumn>,
    ) -> Checker
        ensures nothing { checked result ≡ nothing_checked currency (map kept_value kept.items) }
        ensures keeps { result.keeper ≡ keeper }
        ensures repeated { result.repeated ≡ 0 }
    {
        Checker {
            currency,
            line_end: b'\n',
            known: KnownTexts::new(alloc),
            keeper,
            prints: Prints::new(alloc),
            records: 0,
            lines: 0,
            repeated: 0,
            bad_records: 0,
            faults: 0,
            findings: Vec::new(alloc),
            statistics: Statistics::new(alloc, kept),
            repeats: Repeats::none(alloc),
        }
    }

    /// Checks a header, before its lines are counted. Each column that it must have and doesn't have is a fault, and then each one that it has more than
    /// once. Behind a header with a fault no part can be checked.
    pub fn check_header(&mut self, alloc: Global, header: &[u8]) -> Result<(), AllocError>
        // An error comes only where memory runs out.
        ensures counted { OnOk result (HasCounted
            (header_faults (header_of (records_of header.now)))
            (checked self.old) (checked self.new)) }
        ensures others { OthersStay self.old self.new }
        // Where rows are read, the header's fault is one of these.
        ensures missing { OnOk result ((column : ColumnValue) →
            RowsRead self.old.currency header.now (Err (MissingColumn column)) →
            kept (self.old.faults + 1) ≤ self.new.faults) }
        ensures double { OnOk result ((column : ColumnValue) →
            RowsRead self.old.currency header.now (Err (DoubleColumn column)) →
            kept (self.old.faults + 1) ≤ self.new.faults) }
        ensures stays { OnOk result (self.old.faults ≤ self.new.faults) }
    {
        let header = first_record(alloc, header)?;
        self.check_missing(alloc, &header, &REQUIRED)?;
        self.check_double(alloc, &header, &Column::ALL)
    }

    // Counts those of some columns that a header doesn't have.
    fn check_missing(
        &mut self,
        alloc: Global,
        header: &ByteRecord,
        columns: &[Column],
    ) -> Result<(), AllocError>
        ensures counted { OnOk result (HasCounted
            (flat_map (missing_in (fields_of header.now)) columns.now)
            (checked self.old) (checked self.new)) }
        ensures others { OthersStay self.old self.new }
        ensures stays { OnOk result (self.old.faults ≤ self.new.faults) }
    {
        for column in columns {
            self.note_column_fault(alloc, column.name(), missing_fault(header, *column))?;
        }
        Ok(())
    }

    // Counts those of some columns that a header has more than once.
    fn check_double(
        &mut self,
        alloc: Global,
        header: &ByteRecord,
        columns: &[Column],
    ) -> Result<(), AllocError>
        ensures counted { OnOk result (HasCounted
            (flat_map (double_in (fields_of header.now)) columns.now)
            (checked self.old) (checked self.new)) }
        ensures others { OthersStay self.old self.new }
        ensures stays { OnOk result (self.old.faults ≤ self.new.faults) }
    {
        for column in columns {
            self.note_column_fault(alloc, column.name(), double_fault(header, *column))?;
        }
        Ok(())
    }

    /// Checks a header for the columns that are kept: each that it doesn't have just once is a fault, in the order in which they are kept. That one is
    /// missing which each header must have, and that one stands twice which is read by its name, was looked at by [`Checker::check_header`].
    pub fn check_kept(
        &mut self,
        alloc: Global,
        header: &[u8],
        keeps: &[Keep],
    ) -> Result<(), AllocError>
        // An error comes only where memory runs out.
        ensures counted { OnOk result (HasCounted
            (kept_faults (header_of (records_of header.now)) keeps.now)
            (checked self.old) (checked self.new)) }
        ensures others { OthersStay self.old self.new }
        ensures stays { OnOk result (self.old.faults ≤ self.new.faults) }
    {
        let header = first_record(alloc, header)?;
        self.check_columns(alloc, &header, keeps)
    }

    // Counts the faults of kept columns in a header, in their order.
    fn check_columns(
        &mut self,
        alloc: Global,
        header: &ByteRecord,
        keeps: &[Keep],
    ) -> Result<(), AllocError>
        ensures counted { OnOk result (HasCounted (kept_faults (fields_of header.now) keeps.now)
            (checked self.old) (checked self.new)) }
        ensures others { OthersStay self.old self.new }
        ensures stays { OnOk result (self.old.faults ≤ self.new.faults) }
    {
        for place in 0..keeps.len() {
            let name = keeps[place].column();
            let fault = fault_behind(header, &keeps[..place], name);
            self.note_column_fault(alloc, name, fault)?;
        }
        Ok(())
    }

    // Counts the fault of a column of a header, if it has one.
    fn note_column_fault(
        &mut self,
        alloc: Global,
        name: &str,
        fault: Option<HeaderFault>,
    ) -> Result<(), AllocError>
        ensures counted { OnOk result (HasCounted (faults_of name.now fault)
            (checked self.old) (checked self.new)) }
        ensures others { OthersStay self.old self.new }
        ensures stays { OnOk result (self.old.faults ≤ self.new.faults) }
    {
        match fault {
            Some(fault) => self.note_text(alloc, Kind::of_header(fault), name),
            None => Ok(()),
        }
    }

    /// Ends the check of a text. One that has no record has a fault, if it has no other.
    pub fn end(&mut self, alloc: Global) -> Result<(), AllocError>
        ensures none { OnOk result (self.old.records ≡ 0 → 1 ≤ self.new.faults) }
        ensures same { OnOk result (1 ≤ self.old.records → checked self.new ≡ checked self.old) }
        ensures stays { OnOk result (self.old.faults ≤ self.new.faults) }
    {
        if self.records == 0 && self.faults == 0 {
            return self.note_text(alloc, Kind::of(NO_ROWS), "");
        }
        Ok(())
    }

    /// Looks for the rows that stand twice among those that broke no rule: rows with the same values, tags of kept columns among them. They are no
    /// faults.
    pub fn find_repeats(&mut self, alloc: Global) -> Result<(), AllocError>
        ensures repeats { OnOk result (AreRepeats self.old.prints.rows.items self.new.repeats) }
        ensures faults { OnOk result (self.new.faults ≡ self.old.faults) }
        ensures records { OnOk result (self.new.records ≡ self.old.records) }
    {
        self.repeats = repeats_of(alloc, &mut self.prints.rows)?;
        Ok(())
    }

    // Counts a fault of the whole text, of a column or of none. Its place is the header.
    fn note_text(&mut self, alloc: Global, fault: Kind, column: &str) -> Result<(), AllocError>
        ensures counted { OnOk result (checked self.new ≡
            with_fault fault.code.now column.now fault.expected.now
            (record { line = 1; number = 0; value = [] }) (checked self.old)) }
        ensures others { OthersStay self.old self.new }
        ensures stays { OnOk result (self.old.faults ≤ self.new.faults) }
    {
        let place = Place {
            line: 1,
            record: 0,
            value: String::new(alloc),
        };
        self.add(alloc, fault, column, place)
    }

    // Counts a fault, and keeps its place if it is one of the first.
    fn add(
        &mut self,
        alloc: Global,
        fault: Kind,
        column: &str,
        place: Place,
    ) -> Result<(), AllocError>
        ensures counted { OnOk result (checked self.new ≡
            with_fault fault.code.now column.now fault.expected.now
            (place_value place) (checked self.old)) }
        ensures others { OthersStay self.old self.new }
        ensures stays { OnOk result (self.old.faults ≤ self.new.faults) }
    {
        self.faults = self.faults.saturating_add(1);
        add_fault(
            alloc,
            &mut self.findings,
            fault.code,
            column,
            fault.expected,
            place,
        )?;
        Ok(())
    }

    /// Counts the lines of a header, before the first part. This byte ends lines.
    pub fn pass_header(&mut self, header: &[u8], line_end: u8)
        ensures { checked self.new ≡ with_header line_end header.now (checked self.old) }
    {
        self.line_end = line_end;
        self.lines = self.lines.saturating_add(line_ends(header, line_end));
    }

    /// Passes over the header where it stands again in front of a part's records, before these are checked. Its lines are counted, and so is it.
    pub fn pass_repeated(&mut self, part: &Part)
        ensures counted { checked self.new ≡ with_lines part.now.skipped.items (checked self.old) }
        ensures repeated { self.new.repeated ≡ kept (self.old.repeated + headers_again part.now) }
    {
        let skipped = part.skipped.as_slice();
        self.lines = self.lines.saturating_add(line_ends(skipped, self.line_end));
        self.repeated = self.repeated.saturating_add(skipped.len().min(1) as u64);
    }

    /// Checks the records of a part. The answer is the header's fault, if it has one, or `NoMemory`.
    pub fn check(&mut self, alloc: Global, part: &Part) -> Result<(), RowFault>
        // The part reads as rows, or as a first fault. Rows are counted, and no fault is; where there is no record, nothing is; and where a record breaks a
        // rule, at least one fault is.
        ensures read { OnOk result ((r : Result (List Charge) RowFault)
            × ReadsFor self.old.keeper self.old.currency part.now.text.items r
            × Becomes (records_in part.now) r (checked self.old) (checked self.new)) }
        // Faults that were counted stay.
        ensures stays { OnOk result (self.old.faults ≤ self.new.faults) }
    {
        let text = part.text.as_slice();
        let (head, body) = text.split_at(part.header.min(text.len()));
        let header = first_record(alloc, head)?;
        let read = self.read(alloc, text);
        self.add_read(alloc, head, &header, body, read)?;
        Ok(())
    }

    // Counts what records behind a header read as: their rows, or the faults of each.
    fn add_read(
        &mut self,
        alloc: Global,
        head: &[u8],
        header: &ByteRecord,
        body: &[u8],
        read: Result<Columns, RowFault>,
    ) -> Result<(), RowFault>
        ensures read { OnOk result (Becomes body.now read (checked self.old) (checked self.new)) }
        ensures stays { OnOk result (self.old.faults ≤ self.new.faults) }
    {
        match read {
            Ok(rows) => {
                self.add_rows(alloc, &rows, body)?;
                Ok(())
            }
            Err(RowFault::NoRows) => Ok(()),
            Err(RowFault::Record { fault, .. }) => {
                self.check_faulty(alloc, head, header, body, fault)
            }
            Err(RowFault::TooManyRows) => self.check_pieces(alloc, head, header, body),
            Err(fault) => Err(fault),
        }
    }

    // The rows of a text, or its first fault.
    fn read(&mut self, alloc: Global, text: &[u8]) -> Result<Columns, RowFault>
        ensures rows { ReadsFor self.old.keeper self.old.currency text.now result }
        ensures same { checked self.new ≡ checked self.old }
    {
        match self.keeper.take() {
            Some(keeper) => self.read_keeping(alloc, text, keeper),
            None => read_columns_after(alloc, text, self.currency, &mut self.known),
        }
    }

    // The rows of a text with the tags of its kept columns, or its first fault.
    fn read_keeping(
        &mut self,
        alloc: Global,
        text: &[u8],
        keeper: Keeper,
    ) -> Result<Columns, RowFault>
        ensures rows { RowsKept self.old.currency keeper.keeps text.now result }
        ensures same { checked self.new ≡ checked self.old }
    {
        let mut keeper = keeper;
        let read = read_columns_keeping(alloc, text, self.currency, &mut self.known, &mut keeper);
        self.keeper = Some(keeper);
        read
    }

    // Counts the rows of records without a fault.
    fn add_rows(&mut self, alloc: Global, rows: &Columns, text: &[u8]) -> Result<(), AllocError>
        ensures { OnOk result (checked self.new ≡ with_read text.now rows.now (checked self.old)) }
    {
        let count = rows.len() as u64;
        self.statistics.add_all(alloc, rows)?;
        self.prints.add_all(rows, self.records)?;
        self.records = self.records.saturating_add(count);
        self.lines = self.lines.saturating_add(line_ends(text, self.line_end));
        self.count_currency(alloc, count)?;
        Ok(())
    }

    // Records of the currency of the checker.
    fn count_currency(&mut self, alloc: Global, count: u64) -> Result<(), AllocError>
        ensures counts { OnOk result (checked self.new ≡ with_currency count (checked self.old)) }
        ensures faults { self.new.faults ≡ self.old.faults }
    {
        let code = self.currency;
        let Ok(text) = str::from_utf8(code.code()) else {
            return Ok(());
        };
        count_text(alloc, &mut self.statistics.currencies, text, count)?;
        Ok(())
    }

    // Checks a part that has this fault. It is counted also where each record for itself has none.
    fn check_faulty(
        &mut self,
        alloc: Global,
        head: &[u8],
        header: &ByteRecord,
        body: &[u8],
        fault: RecordFault,
    ) -> Result<(), RowFault>
        ensures counted { OnOk result (kept (self.old.faults + 1) ≤ self.new.faults) }
        ensures stays { OnOk result (self.old.faults ≤ self.new.faults) }
    {
        let before = self.faults;
        self.check_pieces(alloc, head, header, body)?;
        if self.faults == before {
            self.note(alloc, header, header, fault, None)?;
        }
        Ok(())
    }

    // Checks records some at a time.
    fn check_pieces(
        &mut self,
        alloc: Global,
        head: &[u8],
        header: &ByteRecord,
        body: &[u8],
    ) -> Result<(), RowFault>
        ensures { OnOk result (self.old.faults ≤ self.new.faults) }
    {
        let mut rest = body;
        for _ in 0..body.len() {
            if rest.is_empty() {
                return Ok(());
            }
            let cut = cut_off(rest, PIECE);
            let end = if cut.records == PIECE {
                cut.end
            } else {
                rest.len()
            };
            let (piece, behind) = rest.split_at(end);
            self.check_piece(alloc, head, header, piece)?;
            rest = behind;
        }
        Ok(())
    }

    // Checks records: where one has a fault, each for itself.
    fn check_piece(
        &mut self,
        alloc: Global,
        head: &[u8],
        header: &ByteRecord,
        piece: &[u8],
    ) -> Result<(), RowFault>
        ensures { OnOk result (self.old.faults ≤ self.new.faults) }
    {
        let mut text = Vec::new(alloc);
        text.extend_from_slice(head)?;
        text.extend_from_slice(piece)?;
        match self.read(alloc, &text) {
            Ok(rows) => {
                self.add_rows(alloc, &rows, piece)?;
                Ok(())
            }
            Err(RowFault::NoMemory) => Err(RowFault::NoMemory),
            Err(_) => self.check_each(alloc, head, header, piece),
        }
    }

    // Checks record by record.
    fn check_each(
        &mut self,
        alloc: Global,
        head: &[u8],
        header: &ByteRecord,
        body: &[u8],
    ) -> Result<(), RowFault>
        ensures { OnOk result (self.old.faults ≤ self.new.faults) }
    {
        let mut reader = records_of(alloc, body);
        let mut fields = ByteRecord::new(alloc);
        let mut rest = body;
        for _ in 0..body.len() {
            let (empty, from) = rest.split_at(blank(rest));
            self.lines = self.lines.saturating_add(line_ends(empty, self.line_end));
            if from.is_empty() {
                return Ok(());
            }
            let cut = cut_off(from, 1);
            let end = if cut.records == 1 {
                cut.end
            } else {
                from.len()
            };
            let (bytes, behind) = from.split_at(end);
            self.records = self.records.saturating_add(1);
            if has_next(&mut reader, &mut fields)? && fields.len() != header.len() {
                self.note_length(alloc, header, &fields)?;
            } else {
                self.check_record(alloc, head, header, bytes)?;
            }
            self.lines = self.lines.saturating_add(line_ends(bytes, self.line_end));
            rest = behind;
        }
        Ok(())
    }

    // Counts the fault of a record that has too many fields or too few, which hides all others.
    fn note_length(
        &mut self,
        alloc: Global,
        header: &ByteRecord,
        fields: &ByteRecord,
    ) -> Result<(), AllocError>
        ensures { OnOk result (self.old.faults ≤ self.new.faults) }
    {
        self.bad_records = self.bad_records.saturating_add(1);
        self.note(alloc, header, fields, RecordFault::Fields, None)?;
        Ok(())
    }

    // Checks a record, fault by fault: each field at fault is made harmless, and the record is read again.
    fn check_record(
        &mut self,
        alloc: Global,
        head: &[u8],
        header: &ByteRecord,
        bytes: &[u8],
    ) -> Result<(), RowFault>
        ensures { OnOk result (self.old.faults ≤ self.new.faults) }
    {
        let mut text = Vec::new(alloc);
        text.extend_from_slice(bytes)?;
        self.check_turns(alloc, head, header, &mut text)
    }

    // Checks the record of a text, which is made another one with each fault that is made harmless.
    fn check_turns(
        &mut self,
        alloc: Global,
        head: &[u8],
        header: &ByteRecord,
        text: &mut Vec<u8>,
    ) -> Result<(), RowFault>
        ensures { OnOk result (self.old.faults ≤ self.new.faults) }
    {
        for turn in 0..MOST_FAULTS {
            let Some(fault) = self.first_fault(alloc, head, text, turn == 0)? else {
                return Ok(());
            };
            if turn == 0 {
                self.bad_records = self.bad_records.saturating_add(1);
            }
            if !self.is_made_harmless(alloc, header, text, fault)? {
                return Ok(());
            }
        }
        Ok(())
    }

    // Counts a fault of the record of a text, and makes it harmless there, where it is of one column.
    fn is_made_harmless(
        &mut self,
        alloc: Global,
        header: &ByteRecord,
        text: &mut Vec<u8>,
        fault: RecordFault,
    ) -> Result<bool, RowFault>
        ensures { OnOk result (self.old.faults ≤ self.new.faults) }
    {
        let record = first_record(alloc, text)?;
        if let Some(place) = self.kept_place(header, &record, fault) {
            self.note_kept(alloc, header, &record, fault, place)?;
            *text = emptied(alloc, &record, place)?;
            return Ok(true);
        }
        match self.note_column(alloc, header, &record, fault)? {
            Some(column) => {
                *text = repaired(alloc, header, &record, column, &self.currency)?;
                Ok(true)
            }
            None => Ok(false),
        }
    }

    // The place of the field that a fault is of, where that is of a kept column alone.
    fn kept_place(
        &self,
        header: &ByteRecord,
        record: &ByteRecord,
        fault: RecordFault,
    ) -> Option<usize> {
        let keeper = self.keeper.as_ref()?;
        kept_place(header, record, keeper.keeps(), fault)
    }

    // Counts a fault of a field in a kept column.
    fn note_kept(
        &mut self,
        alloc: Global,
        header: &ByteRecord,
        fields: &ByteRecord,
        fault: RecordFault,
        place: usize,
    ) -> Result<(), AllocError>
        ensures { OnOk result (self.old.faults ≤ self.new.faults) }
    {
        let column = field_text(header, place);
        let value = shown_value(alloc, field_bytes(fields, place))?;
        let line = self.lines.saturating_add(1);
        let place = Place {
            line,
            record: self.records,
            value,
        };
        self.add(alloc, Kind::of(fault.name()), column, place)
    }

    // Counts a fault of a record. The answer is the column in which it is.
    fn note_column(
        &mut self,
        alloc: Global,
        header: &ByteRecord,
        fields: &ByteRecord,
        fault: RecordFault,
    ) -> Result<Option<Column>, AllocError>
        ensures { OnOk result (self.old.faults ≤ self.new.faults) }
    {
        let column = column_of(header, fields, fault);
        self.note(alloc, header, fields, fault, column)?;
        Ok(column)
    }

    // The first fault of a record. A record without one is counted, if it is to be.
    fn first_fault(
        &mut self,
        alloc: Global,
        head: &[u8],
        bytes: &[u8],
        counts: bool,
    ) -> Result<Option<RecordFault>, RowFault>
        ensures { self.new.faults ≡ self.old.faults }
    {
        let mut text = Vec::new(alloc);
        text.extend_from_slice(head)?;
        text.extend_from_slice(bytes)?;
        match self.read(alloc, &text) {
            Ok(rows) => self.pass_rows(alloc, &rows, counts),
            Err(RowFault::Record { fault, .. }) => Ok(Some(fault)),
            Err(fault) => Err(fault),
        }
    }

    // Finds no fault in rows, which are counted, if they are to be.
    fn pass_rows(
        &mut self,
        alloc: Global,
        rows: &Columns,
        counts: bool,
    ) -> Result<Option<RecordFault>, RowFault>
        ensures { self.new.faults ≡ self.old.faults }
    {
        if counts {
            self.statistics.add_all(alloc, rows)?;
            self.prints.add_all(rows, self.records.saturating_sub(1))?;
            self.count_currency(alloc, rows.len() as u64)?;
        }
        Ok(None)
    }

    // Counts a fault of the record that is checked, and keeps its place if it is one of the first.
    fn note(
        &mut self,
        alloc: Global,
        header: &ByteRecord,
        fields: &ByteRecord,
        fault: RecordFault,
        column: Option<Column>,
    ) -> Result<(), AllocError>
        ensures stays { OnOk result (self.old.faults ≤ self.new.faults) }
        ensures counted { OnOk result ((expected value : List ℕ)
            × (checked self.new ≡ with_fault (fault_name fault) (column_text column) expected
            (record { line = kept (self.old.lines + 1); number = self.old.records; value = value })
            (checked self.old))) }
    {
        let value = value_of(alloc, header, fields, column)?;
        let place = Place {
            line: self.lines.saturating_add(1),
            record: self.records,
            value,
        };
        self.add(alloc, Kind::of(fault.name()), column_name(column), place)?;
        Ok(())
    }
}
