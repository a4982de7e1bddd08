//! What a command takes, before it is an argument of `clap`.
ghost use Rattle.std.specs.Prelude.{◌≡◌, [], None, Some, IfOk, true, false};
ghost use Rattle.clap.specs.declared.builder.action.ArgAction.TheVariants.{Append, Set, SetTrue};
ghost use Rattle.fw_command_line.specs.Parameters.{IsArgument, defaults_of, name_of, names_of};
ghost use Rattle.fw_command_line.specs.declared.parameter.Takes.TheVariants.{Many, Nothing, One};
ghost use Rattle.fw_command_line.specs.declared.parameter.Value.TheVariants.{Number, Word};

use clap::{Arg, ArgAction, value_parser};
use std::alloc::{AllocError, Global};

/// Which values are taken, and what help calls them.
#[derive(Clone, Copy, Drop)]
pub(crate) enum Takes {
    /// None: a flag.
    Nothing,
    /// One.
    One(&'static str),
    /// One or more in a row.
    Many(&'static str),
    /// As many as these are.
    Named(&'static [&'static str]),
}

/// What a value has to be.
#[derive(Clone, Copy, Drop)]
pub(crate) enum Value {
    /// Any text.
    Any,
    /// One of these words.
    Word(&'static [&'static str]),
    /// A number from 1 up to this one.
    Number(u8),
}

/// What a command takes: an option with its name, or an argument with its place. It is plain data, so that a list of them is; [`Parameter::to_argument`]
/// makes an argument of `clap` of it.
#[derive(Clone, Copy, Drop)]
pub(crate) struct Parameter {
    /// The id by which it is asked for, which is the name of an option too.
    pub(crate) id: &'static str,
    /// Whether it has a name; else its place says what it is.
    pub(crate) is_option: bool,
    pub(crate) takes: Takes,
    pub(crate) value: Value,
    pub(crate) action: ArgAction,
    pub(crate) help: &'static str,
    /// Whether it has to be given.
    pub(crate) is_needed: bool,
    /// The value where none is given.
    pub(crate) default: Option<&'static str>,
    /// The ids of what it doesn't go with.
    pub(crate) apart: &'static [&'static str],
    /// The id of what has to be given with it.
    pub(crate) beside: Option<&'static str>,
}

impl Parameter {
    // What takes a value of any text, and needn't be given.
    fn plain(id: &'static str, takes: Takes, help: &'static str) -> Parameter
        ensures id { result.id ≡ id.entry }
        ensures takes { result.takes ≡ takes }
        ensures help { result.help ≡ help.entry }
        ensures option { result.is_option ≡ true }
        ensures action { result.action ≡ Set }
        ensures needed { result.is_needed ≡ false }
        ensures default { result.default ≡ None }
        ensures apart { result.apart.now ≡ [] }
        ensures beside { result.beside ≡ None }
    {
        Parameter {
            id,
            is_option: true,
            takes,
            value: Value::Any,
            action: ArgAction::Set,
            help,
            is_needed: false,
            default: None,
            apart: &[],
            beside: None,
        }
    }

    /// An option that takes no value.
    pub(crate) fn flag(id: &'static str, help: &'static str) -> Parameter
        ensures id { result.id ≡ id.entry }
        ensures takes { result.takes ≡ Nothing }
        ensures action { result.action ≡ SetTrue }
        ensures needed { result.is_needed ≡ false }
        ensures apart { result.apart.now ≡ [] }
    {
        Parameter {
            action: ArgAction::SetTrue,
            ..Parameter::plain(id, Takes::Nothing, help)
        }
    }

    /// An option that takes one value, and needn't be given.
    pub(crate) fn option(id: &'static str, name: &'static str, help: &'static str) -> Parameter
        ensures id { result.id ≡ id.entry }
        ensures takes { result.takes ≡ One name.entry }
        ensures action { result.action ≡ Set }
        ensures needed { result.is_needed ≡ false }
        ensures apart { result.apart.now ≡ [] }
    {
        Parameter::plain(id, Takes::One(name), help)
    }

    /// What stands at its place among the words, and needn't be given.
    pub(crate) fn argument(id: &'static str, takes: Takes, help: &'static str) -> Parameter
        ensures id { result.id ≡ id.entry }
        ensures option { result.is_option ≡ false }
        ensures takes { result.takes ≡ takes }
        ensures needed { result.is_needed ≡ false }
    {
        Parameter {
            is_option: false,
            ..Parameter::plain(id, takes, help)
        }
    }

    /// The same, that may be given several times.
    pub(crate) fn again(self) -> Parameter
        ensures { result ≡ record self { action = Append } }
    {
        Parameter {
            action: ArgAction::Append,
            ..self
        }
    }

    /// The same, that has to be given.
    pub(crate) fn needed(self) -> Parameter
        ensures { result ≡ record self { is_needed = true } }
    {
        Parameter {
            is_needed: true,
            ..self
        }
    }

    /// The same with another help.
    pub(crate) fn saying(self, help: &'static str) -> Parameter
        ensures { result ≡ record self { help = help.entry } }
    {
        Parameter { help, ..self }
    }

    /// The same, that takes these values.
    pub(crate) fn taking(self, takes: Takes) -> Parameter
        ensures { result ≡ record self { takes = takes } }
    {
        Parameter { takes, ..self }
    }

    /// The same, where a value is one of these words.
    pub(crate) fn one_of(self, words: &'static [&'static str]) -> Parameter
        ensures { result ≡ record self { value = Word words.entry } }
    {
        Parameter {
            value: Value::Word(words),
            ..self
        }
    }

    /// The same, where a value is a number from 1 up to this one.
    pub(crate) fn up_to(self, most: u8) -> Parameter
        ensures { result ≡ record self { value = Number most } }
    {
        Parameter {
            value: Value::Number(most),
            ..self
        }
    }

    /// The same, with this value where none is given.
    pub(crate) fn or(self, default: &'static str) -> Parameter
        ensures { result ≡ record self { default = Some default.entry } }
    {
        Parameter {
            default: Some(default),
            ..self
        }
    }

    /// The same, that doesn't go with what has these ids.
    pub(crate) fn apart_from(self, apart: &'static [&'static str]) -> Parameter
        ensures { result ≡ record self { apart = apart.entry } }
    {
        Parameter { apart, ..self }
    }

    /// The same, that is given with what has this id alone.
    pub(crate) fn beside(self, other: &'static str) -> Parameter
        ensures { result ≡ record self { beside = Some other.entry } }
    {
        Parameter {
            beside: Some(other),
            ..self
        }
    }

    /// The argument of `clap` that it stands for.
    pub(crate) fn to_argument<'a>(&self, alloc: Global) -> Result<Arg<'a>, AllocError>
        ensures { IfOk result (IsArgument self.now) }
    {
        let argument = Arg::new(alloc, self.id)
            .action(self.action)
            .required(self.is_needed)
            .help(self.help);
        let argument = named(argument, self.id, self.is_option);
        let argument = taking(argument, self.takes);
        let argument = judged(argument, self.value);
        let argument = with_default(argument, self.default);
        let argument = argument.conflicts_with_all(self.apart)?;
        match self.beside {
            Some(other) => argument.requires_arg(other),
            None => Ok(argument),
        }
    }
}

// An argument that has a name, if it is an option.
fn named<'a>(argument: Arg<'a>, name: &'a str, is_option: bool) -> Arg<'a>
    ensures { result ≡ record argument.entry
        { long = name_of is_option name.entry argument.entry.long } }
{
    if is_option {
        argument.long(name)
    } else {
        argument
    }
}

// An argument that takes these values.
fn taking<'a>(argument: Arg<'a>, takes: Takes) -> Arg<'a>
    ensures others { result ≡ record argument.entry
        { val_names = result.val_names; num_vals = result.num_vals } }
    ensures names { result.val_names ≡ names_of takes argument.entry.val_names }
{
    match takes {
        Takes::Nothing => argument,
        Takes::One(name) => argument.value_name(name),
        Takes::Many(name) => argument.value_name(name).num_args(1..),
        Takes::Named(names) => argument.value_names(names),
    }
}

// An argument whose values have to be so.
fn judged<'a>(argument: Arg<'a>, value: Value) -> Arg<'a>
    ensures { result ≡ record argument.entry { value_parser = result.value_parser } }
{
    match value {
        Value::Any => argument,
        Value::Word(words) => argument.value_parser(words),
        Value::Number(most) => argument.value_parser(value_parser!(u8).range(1..=most as i64)),
    }
}

// An argument with a value where none is given.
fn with_default<'a>(argument: Arg<'a>, default: Option<&'a str>) -> Arg<'a>
    ensures { result ≡ record argument.entry
        { default_vals = defaults_of default.entry argument.entry.default_vals } }
{
    match default {
        Some(value) => argument.default_value(value),
        None => argument,
    }
}
