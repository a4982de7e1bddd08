//! The laws of a table of rules.
ghost use Rattle.std.specs.Prelude.{◌≡◌, List};
ghost use Rattle.fw_rules.specs.Table.{FirstBroken, NoneBroken};

/// A value that is held against a table of rules. A rule is a fault beside the fact that the rule is broken.
pub trait Ruled {
    /// The fault that a broken rule gives.
    type Fault;

    ghost rules: { Self → List (Self.Fault × Type 0) };
}

/// At most one fault is that of the first broken rule, whatever the table says.
pub fn first_is_one<T: Ruled>(value: &T)
    ensures { (f g : T.Fault) → FirstBroken (T.rules value.now) f
        → FirstBroken (T.rules value.now) g → f ≡ g }
{}

/// Where some rule is the first that is broken, it is not so that none is broken.
pub fn first_or_none<T: Ruled>(value: &T)
    ensures { (f : T.Fault) → FirstBroken (T.rules value.now) f → NoneBroken (T.rules value.now)
        → ⊥ }
{}
