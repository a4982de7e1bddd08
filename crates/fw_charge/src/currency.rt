//! The code of a currency.
ghost use Rattle.std.specs.Prelude.{◌≡◌, ◌↔◌, IsSome, IfSome};
ghost use Rattle.fw_charge.specs.Currencies.{IsCode};

use std::marker::Model;

/// The code of a currency, as `USD`: three capital letters of ASCII. Contracts see its three bytes.
#[derive(Clone, Copy, Debug, PartialEq, Eq)]
pub struct Currency {
    code: [u8; 3],
}

impl Model for Currency {
    ghost use Rattle.std.specs.Prelude.{List, ℕ};

    ghost Value = { List ℕ };

    ghost use Rattle.fw_charge.specs.Currencies.{IsCode};

    ghost view = { λ c. c.code };

    ghost invariant = { λ c. IsCode c.code };

    ghost inverse = { λ letters. record { code = letters } };
}

impl Currency {
    /// The currency with this code, or `None` where the text isn't three capital letters of ASCII.
    pub fn new(text: &[u8]) -> Option<Currency>
        ensures valid { IsSome result ↔ IsCode text.now }
        ensures value { IfSome result (λ currency. currency ≡ text.now) }
    {
        if !text.iter().all(|letter| letter.is_ascii_uppercase()) {
            return None;
        }
        let [first, second, third] = text else {
            return None;
        };
        Some(Currency {
            code: [*first, *second, *third],
        })
    }

    /// The three letters.
    pub fn code(&self) -> &[u8]
        ensures letters { result.now ≡ self.now }
        ensures valid { IsCode self.now }
    {
        &self.code
    }
}
