//! What holds of every text and of every amount: two laws, each the contract of a function that does nothing.
ghost use Rattle.std.specs.Prelude.{◌≡◌, ℤ, Result, Ok};
ghost use Rattle.fw_money.specs.Reading.{Reads};
ghost use Rattle.fw_money.specs.Writing.{text_of};
ghost use Rattle.fw_money.specs.declared.nanos.MoneyFault.{MoneyFault};

use crate::nanos::Nanos;

/// A text reads as at most one thing: one amount, or one fault.
///
/// [`parse`](crate::parse) answers what the text reads as, for every text, so each text reads as exactly one thing.
pub fn reads_as_one(text: &[u8])
    ensures { (r s : Result ℤ MoneyFault) → Reads text.now r → Reads text.now s → r ≡ s }
{}

/// The text of an amount reads as that amount and as nothing else.
///
/// [`text`](crate::text) writes the text of an amount, and [`parse`](crate::parse) answers what a text reads as, so an amount that is
/// written and read again is the same amount.
pub fn reads_back(nanos: Nanos)
    ensures reads { Reads (text_of nanos) (Ok nanos) }
    ensures alone { (r : Result ℤ MoneyFault) → Reads (text_of nanos) r → r ≡ Ok nanos }
{
    let _count = nanos.count();
}
