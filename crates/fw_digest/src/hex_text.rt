//! Digests as people write them.
ghost use Rattle.std.specs.Prelude.{◌≡◌, ◌↔◌, IfOk, IfSome, IsSome, length, string_bytes};
ghost use Rattle.std.specs.List.{AllPass};
ghost use Rattle.hex.specs.Hex.{decode_of, encode_lower, is_hex_digit};

use hex::FromHex;
use std::alloc::{AllocError, Global};

/// A digest as 64 hex digits, with small letters. The one error is that memory ran out.
pub fn digest_text(alloc: Global, digest: &[u8; 32]) -> Result<String, AllocError>
    ensures { IfOk result (λ text. string_bytes text ≡ encode_lower digest.now) }
{
    hex::encode(alloc, digest.as_slice())
}

/// The digest that a text of 64 hex digits writes, with small or capital letters; `None` of any other text.
pub fn read_digest(text: &str) -> Option<[u8; 32]>
    ensures value { IfSome result (λ digest. decode_of text.now ≡ Ok digest) }
    ensures found { IsSome result ↔ ((length text.now ≡ 64) × AllPass is_hex_digit text.now) }
{
    <[u8; 32] as FromHex>::from_hex(text).ok()
}
