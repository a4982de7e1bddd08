//! What is known of texts of tags beside those of kept columns.
ghost use Rattle.std.specs.Prelude.{◌≡◌, ◌<◌, ◌++◌, ◌∷◌, [], All, length, map, slice_index_or, IfErr, IfOk, IsTrue, IsUtf8, OnOk, string_bytes};
ghost use Rattle.csv.specs.Records.{fields_of};
ghost use Rattle.fw_rows.specs.Keeping.{AreTheTags, IsFound, Refuses, keep_places, texts_at};

use crate::cells::field_at;
use crate::fault::Refusal;
use crate::keep::Keep;
use crate::kept_places::{are_at, keep_places};
use crate::kept_tags::{KeptTags, add_kept, tags_of};
use crate::known::KnownTags;
use csv::ByteRecord;
use fw_tags::TagFault;
use indexmap::IndexMap;
use std::alloc::{AllocError, Global};
use std::hash::{FoldHasher, Hasher};
use std::marker::Model;

/// The most texts that are known from one text of charges to the next.
const MOST_KNOWN: usize = 16_384;

/// The most bytes that these may have together.
const MOST_BYTES: usize = 16_777_216;

/// A text of tags, and the texts of kept columns beside it.
#[derive(Drop)]
pub(crate) struct KeptText {
    pub(crate) tags: String,
    pub(crate) values: Vec<String>,
}

impl KeptText {
    // Whether it is of a text of tags and of the texts of a record at places.
    fn is(&self, tags: &str, fields: &ByteRecord, places: &[Option<usize>]) -> bool
        ensures tags { IsTrue result → string_bytes self.now.tags ≡ tags.now }
        ensures texts { IsTrue result → map string_bytes self.now.values.items
            ≡ texts_at (fields_of fields.now) places.now }
    {
        self.tags.as_str() == tags && are_at(&self.values, fields, places)
    }
}

/// Where a text of tags stands with the texts of kept columns beside it.
#[derive(Clone, Copy, Drop)]
pub(crate) enum Found {
    /// At a place.
    At(usize),
    /// Nowhere. They have this hash.
    Nowhere(u64),
}

/// Columns that are kept as tags, and what is known of texts of tags. Rows mostly share a few texts of tags and of kept
/// columns, and these come in about the same order in each hour: so most are found by a comparison with those that
/// followed the row before. None of it has an effect on what a text of charges reads as.
///
/// A contract sees the columns, and the texts of tags, each with the texts of kept columns beside it.
pub struct Keeper {
    keeps: Vec<Keep>,
    // the tags of texts of tags
    read: KnownTags,
    known: Vec<KeptText>,
    // where each is, by its hash
    places: IndexMap<u64, usize>,
    // where that of the next record may be
    next: usize,
    // how many bytes these have together, and those whose tags were read
    bytes: usize,
}

impl Drop for Keeper {
    fn drop(self) {
        let Self {
            keeps: _,
            read: _,
            known: _,
            places: _,
            next: _,
            bytes: _,
        } = self;
    }
}

impl Model for Keeper {
    ghost use Rattle.std.specs.Prelude.{map, string_bytes};
    ghost use Rattle.fw_rows.specs.Keepers.{KeeperValue};

    ghost Value = { KeeperValue };

    ghost view = { λ k. record {
      keeps = k.keeps.items;
      texts = map (λ e. (string_bytes e.tags, map string_bytes e.values.items)) k.known.items;
    } };
}

impl Keeper {
    /// Keeps these columns. Nothing is known yet.
    pub fn new(alloc: Global, keeps: Vec<Keep>) -> Keeper
        ensures { result ≡ record { keeps = keeps.items; texts = [] } }
    {
        Keeper {
            keeps,
            read: KnownTags::new(alloc),
            known: Vec::new(alloc),
            places: IndexMap::new(alloc),
            next: 0,
            bytes: 0,
        }
    }

    /// The columns that are kept.
    pub fn keeps(&self) -> &[Keep]
        ensures { result.now ≡ self.now.keeps }
    {
        self.keeps.as_slice()
    }

    /// The places of the kept columns in a header. What is known is forgotten where it is much.
    pub(crate) fn begin(
        &mut self,
        alloc: Global,
        header: &ByteRecord,
    ) -> Result<Vec<Option<usize>>, AllocError>
        ensures places { IfOk result (λ places.
            places.items ≡ keep_places self.old.keeps (fields_of header.now)) }
        ensures same { self.new.keeps ≡ self.old.keeps }
    {
        if self.known.len() > MOST_KNOWN || self.bytes > MOST_BYTES {
            self.read = KnownTags::new(alloc);
            self.known = Vec::new(alloc);
            self.places = IndexMap::new(alloc);
            self.bytes = 0;
        }
        self.next = 0;
        keep_places(alloc, header, self.keeps.as_slice())
    }

    /// How many texts are known.
    pub(crate) fn len(&self) -> usize
        ensures { result ≡ length self.now.texts }
    {
        self.known.len()
    }

    /// Where a text of tags stands with the texts of a record at places.
    pub(crate) fn find(
        &mut self,
        tags: &str,
        fields: &ByteRecord,
        places: &[Option<usize>],
    ) -> Found
        ensures found { IsFound self.new.texts
            (tags.now, texts_at (fields_of fields.now) places.now) result }
        ensures same { self.new ≡ self.old }
    {
        let next = self.next;
        if self.is_at(next, tags, fields, places) {
            self.next = next.saturating_add(1);
            return Found::At(next);
        }
        let hash = hash_of(tags, fields, places);
        if let Some(place) = self.places.get(&hash).copied() {
            if self.is_at(place, tags, fields, places) {
                self.next = place.saturating_add(1);
                return Found::At(place);
            }
        }
        Found::Nowhere(hash)
    }

    // Whether the text at a place is one of tags, with the texts of a record at places beside it.
    fn is_at(&self, place: usize, tags: &str, fields: &ByteRecord, places: &[Option<usize>]) -> bool
        ensures within { IsTrue result → place < length self.now.texts }
        ensures there { IsTrue result → slice_index_or self.now.texts place ([], [])
            ≡ (tags.now, texts_at (fields_of fields.now) places.now) }
    {
        if place >= self.known.len() {
            return false;
        }
        self.known[place].is(tags, fields, places)
    }

    /// Notes a text of tags and the texts of kept columns beside it, which have a hash. Returns their place, behind all
    /// others.
    pub(crate) fn note(
        &mut self,
        alloc: Global,
        hash: u64,
        tags: &str,
        values: Vec<String>,
    ) -> Result<usize, AllocError>
        ensures place { IfOk result (λ place. place ≡ length self.old.texts) }
        ensures texts { OnOk result (self.new.texts
            ≡ self.old.texts ++ (tags.now, map string_bytes values.items) ∷ []) }
        ensures same { self.new.keeps ≡ self.old.keeps }
    {
        let place = self.known.len();
        let tags = String::from_str(alloc, tags)?;
        let bytes = bytes_of(tags.as_str(), values.as_slice());
        self.places.insert(hash, place)?;
        self.known.push(KeptText { tags, values })?;
        self.bytes = self.bytes.saturating_add(bytes);
        self.next = place.saturating_add(1);
        Ok(place)
    }

    /// The tags of a text of tags, with those that texts of kept columns are.
    ///
    /// # Errors
    /// `TagTwice` where the text states one of these tags already; `NoMemory`.
    pub(crate) fn tags_with(
        &mut self,
        alloc: Global,
        tags: &str,
        values: &[String],
    ) -> Result<KeptTags, Refusal>
        requires { All IsUtf8 (map string_bytes values.now) }
        ensures found { IfOk result (λ kept. AreTheTags self.old.keeps tags.now
            (map string_bytes values.now) kept) }
        ensures refused { IfErr result (λ refusal. Refuses self.old.keeps tags.now
            (map string_bytes values.now) refusal) }
        ensures same { self.new ≡ self.old }
    {
        if let Some(stated) = self.read.get(tags) {
            return add_kept(alloc, stated, self.keeps.as_slice(), values);
        }
        let stated = match tags_of(alloc, tags) {
            Ok(stated) => stated,
            Err(TagFault::NoMemory) => return Err(Refusal::NoMemory),
            Err(_) => return Ok(KeptTags::Unstated),
        };
        let kept = add_kept(alloc, &stated, self.keeps.as_slice(), values)?;
        self.read.note(tags, stated)?;
        self.bytes = self.bytes.saturating_add(tags.len());
        Ok(kept)
    }
}

// A hash of a text of tags and of the texts of a record at places.
fn hash_of(tags: &str, fields: &ByteRecord, places: &[Option<usize>]) -> u64 {
    let mut hasher = FoldHasher::default();
    hasher.write(tags.as_bytes());
    for place in places {
        hasher.write(field_at(fields, *place));
    }
    hasher.finish()
}

// How many bytes texts have.
fn bytes_of(tags: &str, values: &[String]) -> usize {
    let mut bytes = tags.len();
    for value in values {
        bytes = bytes.saturating_add(value.len());
    }
    bytes
}
