//! Each entry has one spelling, and each spelling one reading: a proof-only function.
ghost use Rattle.std.specs.Prelude.{◌≡◌, ◌<◌, ◌++◌, ℕ, List, slice_index, IsTrue};
ghost use Rattle.fw_entry.specs.Entry.{EntryValue};
ghost use Rattle.fw_entry.specs.Spelling.{entry, IsEntry};
ghost use Rattle.fw_entry_bytes.specs.declared.form.Form.{Form};
ghost use Rattle.fw_entry_bytes.specs.Forms.{has_entry};
ghost use Rattle.fw_entry_bytes.specs.Reading.{entry_at};

/// An entry that is read is one that the form has, and is spelled by the bytes that were taken; and the spelling of an entry that the form has is read
/// as that entry, whatever follows it.
pub fn entries_have_one_spelling()
    ensures taken { (form : Form) (bytes rest : List ℕ) (e : EntryValue)
        → ((i : ℕ) → slice_index bytes i < 256) → entry_at form bytes ≡ Ok (e, rest)
        → IsEntry e × IsTrue (has_entry form e) × (bytes ≡ entry e ++ rest) }
    ensures again { (form : Form) (rest : List ℕ) (e : EntryValue) → IsEntry e
        → IsTrue (has_entry form e) → entry_at form (entry e ++ rest) ≡ Ok (e, rest) }
{}
