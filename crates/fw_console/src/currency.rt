//! The currency that an option names.
use clap::ArgMatches;
use fw_command_line::CURRENCY;
use fw_rows::Currency;

/// The currency that the options name.
pub fn read_currency(options: &ArgMatches<'_>) -> Option<Currency> {
    let text = options.get_str(CURRENCY).unwrap_or("USD");
    Currency::new(text.as_bytes())
}

/// The letters of a currency.
pub fn letters(currency: &Currency) -> &str {
    str::from_utf8(currency.code()).unwrap_or("")
}
