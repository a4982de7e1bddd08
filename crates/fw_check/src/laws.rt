//! What a header without faults is.
ghost use Rattle.std.specs.Prelude.{◌≡◌, List, [], All};
ghost use Rattle.fw_rows.specs.Columns.{Record};
ghost use Rattle.fw_rows.specs.Keeps.{KeepText};
ghost use Rattle.fw_check.specs.Headers.{header_faults, kept_faults, times_named};

/// A header that has no fault has each kept column just once.
pub fn kept_columns_stand_once()
    ensures { (header : Record) (keeps : List KeepText)
        → header_faults header ≡ [] → kept_faults header keeps ≡ []
        → All (λ keep. times_named header keep.column ≡ 1) keeps }
{}
