//! The columns of a header, and a field as its bytes.
ghost use Rattle.std.specs.Prelude.{◌≡◌, ◌++◌, ◌∷◌, [], get_or, IfOk, OnOk, map, option_map, unwrap_or};
ghost use Rattle.csv.specs.Machine.{next_record};
ghost use Rattle.csv.specs.Reading.{default_config, strip_bom};
ghost use Rattle.csv.specs.Records.{field_at, fields_of};
ghost use Rattle.csv.specs.declared.parser.State.TheVariants as st;
ghost use Rattle.fw_dialect.specs.Fields.{meaning, names, names_in, role_of};
ghost use Rattle.fw_dialect.specs.Texts.{bytes_for, doubled, in_quotes};

use crate::dialect::Dialect;
use crate::pairs::tags_in;
use crate::role::Role;
use crate::times::time_in;
use csv::{ByteRecord, ReaderBuilder};
use std::alloc::{AllocError, Global};

// The names of the columns of a header.
#[tactic(auto, unfolding(crate::specs::Fields::names_in))]
fn names_in(alloc: Global, header: &[u8]) -> Result<ByteRecord, AllocError>
    ensures { IfOk result (λ names. fields_of names ≡ names_in header.now) }
{
    let mut reader = ReaderBuilder::new()
        .has_headers(false)
        .from_reader(alloc, header);
    let mut names = ByteRecord::new(alloc);
    match reader.read_byte_record(&mut names) {
        Ok(true) => Ok(names),
        Ok(false) => Ok(ByteRecord::new(alloc)),
        Err(_) => Err(AllocError),
    }
}

// The name of the column at a place; the empty text where there is none.
#[tactic(auto, using(crate::proofs::Names::lent))]
fn name_at(names: &ByteRecord, place: usize) -> &[u8]
    ensures { result.now ≡ unwrap_or (field_at (fields_of names.now) place) [] }
{
    names.get(place).unwrap_or(b"")
}

// What the column at a place has.
#[tactic(auto, using(crate::proofs::Names::field_or))]
fn role_at(dialect: Dialect, names: &ByteRecord, place: usize) -> Role
    ensures { result ≡ role_of dialect (get_or (fields_of names.now) place []) }
{
    Role::of(dialect, name_at(names, place))
}

// What the columns of these names have, in order.
fn roles_of(alloc: Global, dialect: Dialect, names: &ByteRecord) -> Result<Vec<Role>, AllocError>
    ensures { IfOk result (λ roles. roles.items ≡ map (role_of dialect) (fields_of names.now)) }
{
    let mut roles = Vec::new(alloc);
    for place in 0..names.len() {
        roles.push(role_at(dialect, names, place))?;
    }
    Ok(roles)
}

/// What the columns of a header have, in order.
pub(crate) fn roles_in(
    alloc: Global,
    dialect: Dialect,
    header: &[u8],
) -> Result<Vec<Role>, AllocError>
    ensures { IfOk result (λ roles. roles.items ≡ map (role_of dialect) (names_in header.now)) }
{
    let names = names_in(alloc, header)?;
    roles_of(alloc, dialect, &names)
}

// What a field stands for; none where it stays as it is.
fn meaning(alloc: Global, role: Role, text: &[u8]) -> Result<Option<Vec<u8>>, AllocError>
    ensures { IfOk result (λ found. option_map (λ f. f.items) found ≡ meaning role text.now) }
{
    match role {
        Role::Time => time_in(alloc, text),
        Role::Tags => tags_in(alloc, text),
        Role::Other => Ok(None),
    }
}

// Adds a byte of a field within quotes.
fn put_doubled(out: &mut Vec<u8>, byte: u8) -> Result<(), AllocError>
    ensures { OnOk result (out.new.items ≡ out.old.items ++ doubled (byte ∷ [])) }
{
    if byte == b'"' {
        out.push(byte)?;
    }
    out.push(byte)?;
    Ok(())
}

// Adds a text as a field within quotes.
fn put_in_quotes(out: &mut Vec<u8>, text: &[u8]) -> Result<(), AllocError>
    ensures { OnOk result (out.new.items ≡ out.old.items ++ in_quotes text.now) }
{
    out.push(b'"')?;
    for byte in text {
        put_doubled(out, *byte)?;
    }
    out.push(b'"')?;
    Ok(())
}

/// Adds a field of these bytes and this text, or what it stands for.
pub(crate) fn put_field(
    alloc: Global,
    out: &mut Vec<u8>,
    role: Role,
    bytes: &[u8],
    text: &[u8],
) -> Result<(), AllocError>
    ensures { OnOk result (out.new.items
        ≡ out.old.items ++ bytes_for bytes.now (meaning role text.now)) }
{
    match meaning(alloc, role, text)? {
        Some(found) => put_in_quotes(out, &found),
        None => {
            out.extend_from_slice(bytes)?;
            Ok(())
        }
    }
}
