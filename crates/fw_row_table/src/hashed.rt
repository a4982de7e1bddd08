//! Values that keep their hash.
ghost use Rattle.std.specs.Prelude.{◌≡◌, string_bytes, vec_items};
ghost use Rattle.std.specs.Str.{bytes_eq};
ghost use Rattle.std.specs.Cmp.Lexicographic.{bytes_decides, nat_list_eq_equiv};
ghost use Rattle.std.proofs.Common.{ap};
ghost use Rattle.std.specs.Hash as fed;
ghost use Rattle.fw_row_table.specs.Hashed.{hash_of};

use indexmap::Equivalent;
use std::hash::{FoldHasher, Hash, Hasher};
use std::marker::Model;

/// A value with its hash, which is found once, when this is made: in a hash table it is looked up and put in without another look at the value.
///
/// A contract sees the value.
#[derive(Debug, Drop)]
pub struct Hashed<T: Hash> {
    hash: u64,
    value: T,
}

impl<T: Hash> Model for Hashed<T> {
    ghost use Rattle.std.specs.Prelude.{◌≡◌};
    ghost use Rattle.fw_row_table.specs.Hashed.{hash_of};

    ghost Value = { T };

    ghost coded = { T.code };

    ghost view = { λ h. h.value };

    ghost invariant = { λ h. h.hash ≡ hash_of (T.hash_input h.value) };
}

impl<T: Hash> Hashed<T> {
    /// A value with its hash.
    pub(crate) fn new(value: T) -> Hashed<T>
        ensures { result ≡ value }
    {
        let mut state = FoldHasher::default();
        value.hash(&mut state);
        Hashed {
            hash: state.finish(),
            value,
        }
    }

    /// Another value that has the same hash, as a text of its own has that of a lent one.
    pub(crate) fn with<K: Hash>(&self, value: K) -> Hashed<K>
        requires { K.hash_input value ≡ T.hash_input self.now }
        ensures { result ≡ value }
    {
        Hashed {
            hash: self.hash,
            value,
        }
    }

    /// The value.
    pub(crate) fn value(&self) -> &T
        ensures { result.now ≡ self.now }
    {
        &self.value
    }
}

impl<T: Hash> PartialEq for Hashed<T> {
    ghost eq = { T.eq };

    ghost laws = { T.PartialEq.laws };

    fn eq(&self, other: &Hashed<T>) -> bool {
        self.value.eq(&other.value)
    }
}

impl<T: Hash> Eq for Hashed<T> {
    ghost laws = { T.Eq.laws };
}

impl<T: Hash> Hash for Hashed<T> {
    ghost hash_input = { λ value. fed.u64 (hash_of (T.hash_input value)) };

    ghost respects_eq = { λ x y same. ap (λ input. fed.u64 (hash_of input)) (T.respects_eq x y same) };

    fn hash<H: Hasher>(&self, state: &mut H) {
        state.write_u64(self.hash);
    }
}

impl Equivalent<Hashed<String>> for &Hashed<&str> {
    ghost equivalent = { λ q k. bytes_eq q.now.now (string_bytes k) };

    ghost respects_hash = { λ q k same. ap (λ text. fed.u64 (hash_of (fed.str text))) ((bytes_decides q.now.now (string_bytes k)).0 same) };

    ghost respects_eq = { λ q x y. nat_list_eq_equiv.congr q.now.now (string_bytes x) (string_bytes y) };

    fn equivalent(&self, key: &Hashed<String>) -> bool {
        self.value == key.value.as_str()
    }
}

impl Equivalent<Hashed<Vec<u32>>> for &Hashed<&[u32]> {
    ghost equivalent = { λ q k. bytes_eq q.now.now (vec_items k) };

    ghost respects_hash = { λ q k same. ap (λ list. fed.u64 (hash_of (fed.slice fed.u32 list))) ((bytes_decides q.now.now (vec_items k)).0 same) };

    ghost respects_eq = { λ q x y. nat_list_eq_equiv.congr q.now.now (vec_items x) (vec_items y) };

    fn equivalent(&self, key: &Hashed<Vec<u32>>) -> bool {
        self.value == key.value.as_slice()
    }
}
