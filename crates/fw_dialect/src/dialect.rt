//! The dialects by name.
ghost use Rattle.std.specs.Prelude.{◌≡◌, if◌then◌else◌, Some, None};
ghost use Rattle.std.specs.Str.{bytes_eq};
ghost use Rattle.fw_dialect.specs.Fields.{gcp_name, name_of};
ghost use Rattle.fw_dialect.specs.declared.dialect.Dialect.TheVariants.{Gcp};

/// A form that a provider's exports have.
#[derive(Clone, Copy, Debug, Drop, PartialEq, Eq)]
pub enum Dialect {
    /// That of Google's exports from BigQuery.
    Gcp,
}

impl Dialect {
    /// The dialect of this name.
    pub fn of_name(name: &str) -> Option<Dialect>
        ensures { result ≡ (if bytes_eq name.now gcp_name then Some Gcp else None) }
    {
        if name == "gcp" {
            Some(Dialect::Gcp)
        } else {
            None
        }
    }

    /// The name of the dialect.
    pub fn name(self) -> &'static str
        ensures { result.now ≡ name_of self }
    {
        match self {
            Dialect::Gcp => "gcp",
        }
    }
}
