//! The commands of the program and their words: a row for each.

use clap::{Arg, ArgAction, Command, value_parser};
use std::alloc::{AllocError, Global};

/// What a word is, and what stands behind it.
#[derive(Clone, Copy)]
enum WordTakes {
    /// It is a file, which must be named.
    File,
    /// It is a file, which may be named.
    AnyFile,
    /// It is one file or more, up to 16.
    Files,
    /// Nothing: it is given or not.
    Nothing,
    /// Nothing: it is given in place of this word.
    InPlaceOf(&'static str),
    /// A text, which must be given.
    Text,
    /// A text, any number of times.
    Texts,
    /// A text, or this one.
    TextOr(&'static str),
    /// The number of a port, which must be given.
    Port,
    /// A number within these bounds, or the number that is written so.
    NumberOr(&'static str, i64, i64),
}

/// A word of a command.
struct UsageWord {
    name: &'static str,
    takes: WordTakes,
    /// How what it takes is called; of a word that takes nothing, or is a file, this is not shown.
    shown: &'static str,
    help: &'static str,
}

/// A command of the program.
struct CommandRow {
    name: &'static str,
    about: &'static str,
    words: &'static [UsageWord],
}

const FILE: UsageWord = UsageWord {
    name: "FILE",
    takes: WordTakes::File,
    shown: "FILE",
    help: "",
};

const CERT: UsageWord = UsageWord {
    name: "CERT",
    takes: WordTakes::File,
    shown: "CERT",
    help: "",
};

const MODULE: UsageWord = UsageWord {
    name: "FILE",
    takes: WordTakes::AnyFile,
    shown: "FILE",
    help: "",
};

const SLIM: UsageWord = UsageWord {
    name: "slim",
    takes: WordTakes::Nothing,
    shown: "",
    help: "Gives states only for the first instruction of each handler and for targets; the rules say the others",
};

/// What the operator sets.
const SET: UsageWord = UsageWord {
    name: "set",
    takes: WordTakes::Texts,
    shown: "NAME=VALUE",
    help: "Sets a param of the filter, or of each filter of a chain that has it; FILTER.NAME=VALUE names the filter",
};

/// Whether a filter is printed.
const FILTER: UsageWord = UsageWord {
    name: "filter",
    takes: WordTakes::Nothing,
    shown: "",
    help: "Prints a filter in the language for authors, which compiles as it stands",
};

/// Where a module is judged.
const EXPLAIN: UsageWord = UsageWord {
    name: "explain",
    takes: WordTakes::Nothing,
    shown: "",
    help: "Writes on the standard error why a module is refused, and what to write instead; so it does on a terminal",
};

/// Where a filter is compiled.
const EXPLAIN_SOURCE: UsageWord = UsageWord {
    name: "explain",
    takes: WordTakes::Nothing,
    shown: "",
    help: "Shows on the standard error the line of a fault, and a caret under its column; so it does on a terminal",
};

/// Where a script is played.
const EXPLAIN_PLAYS: UsageWord = UsageWord {
    name: "explain",
    takes: WordTakes::Nothing,
    shown: "",
    help: "Writes on the standard error, behind the answers, what faults and refusals mean, and what to write instead; so it does on a terminal",
};

const CHAIN: UsageWord = UsageWord {
    name: "MODULE",
    takes: WordTakes::Files,
    shown: "MODULE",
    help: "The filters, the first first: modules, the certificate of each in MODULE.cert, and files NAME.filter",
};

const BUDGET: UsageWord = UsageWord {
    name: "budget",
    takes: WordTakes::NumberOr("1000000", 0, 4_294_967_295),
    shown: "N",
    help: "How many instructions a call of the chain may take",
};

const SERVE: &[UsageWord] = &[
    UsageWord {
        name: "site",
        takes: WordTakes::Text,
        shown: "FILE",
        help: "The site file: on each line a path, a space and the name of a file",
    },
    UsageWord {
        name: "port",
        takes: WordTakes::Port,
        shown: "N",
        help: "The port that is listened on",
    },
    UsageWord {
        name: "listen",
        takes: WordTakes::TextOr("127.0.0.1"),
        shown: "ADDRESS",
        help: "The address that is listened on; 0.0.0.0 stands for all of them",
    },
    UsageWord {
        name: "conns",
        takes: WordTakes::NumberOr("1", 0, 4_294_967_295),
        shown: "N",
        help: "How many connections are served",
    },
    UsageWord {
        name: "forever",
        takes: WordTakes::InPlaceOf("conns"),
        shown: "",
        help: "Serves connections until it is stopped",
    },
    BUDGET,
    UsageWord {
        name: "timeout",
        takes: WordTakes::NumberOr("30", 1, 4_294_967_295),
        shown: "SECONDS",
        help: "How long a request may take to come, and a write",
    },
    UsageWord {
        name: "at-once",
        takes: WordTakes::NumberOr("1", 1, 65_535),
        shown: "N",
        help: "How many connections are served at once, by turns",
    },
    UsageWord {
        name: "log",
        takes: WordTakes::Nothing,
        shown: "",
        help: "Logs each request and each connection on the standard error",
    },
    SET,
    CHAIN,
];

const COMMANDS: &[CommandRow] = &[
    CommandRow {
        name: "play",
        about: "Plays a script from standard input; so it does with no command",
        words: &[EXPLAIN_PLAYS],
    },
    CommandRow {
        name: "new",
        about: "Prints a module to begin with, which is accepted as it stands, or a filter",
        words: &[FILTER],
    },
    CommandRow {
        name: "compile",
        about: "Prints the module of a filter in the language for authors, or the first fault of its text",
        words: &[FILE, SET, EXPLAIN_SOURCE],
    },
    CommandRow {
        name: "assemble",
        about: "Prints a module, or the first fault of its text",
        words: &[FILE],
    },
    CommandRow {
        name: "certify",
        about: "Makes a certificate of a module, or says why there is none; of standard input with no file",
        words: &[MODULE, SLIM, SET, EXPLAIN],
    },
    CommandRow {
        name: "check",
        about: "Checks a certificate of a module",
        words: &[FILE, CERT, SET, EXPLAIN],
    },
    CommandRow {
        name: "upgrade",
        about: "Prints a certificate of version 1, which is checked first, in version 2",
        words: &[FILE, CERT, SET, EXPLAIN],
    },
    CommandRow {
        name: "filter",
        about: "Puts standard input through a chain of filters, which is checked first, to standard output",
        words: &[BUDGET, SET, CHAIN],
    },
    CommandRow {
        name: "serve",
        about: "Serves the files of a site over HTTP/1.1, through a chain of filters that is checked first",
        words: SERVE,
    },
];

/// The word with the number of a port.
fn taking_port(arg: Arg<'_>) -> Arg<'_> {
    arg.required(true)
        .value_parser(value_parser!(u16).range(1..))
}

/// The word with a number within these bounds.
fn taking_number(arg: Arg<'_>, least: i64, most: i64) -> Arg<'_> {
    arg.value_parser(value_parser!(u32).range(least..=most))
}

/// The word with what it takes.
fn taking<'a>(arg: Arg<'a>, takes: WordTakes) -> Result<Arg<'a>, AllocError> {
    match takes {
        WordTakes::File | WordTakes::Text => Ok(arg.required(true)),
        WordTakes::AnyFile => Ok(arg),
        WordTakes::Files => Ok(arg.required(true).num_args(1..=16)),
        WordTakes::Nothing => Ok(arg.action(ArgAction::SetTrue)),
        WordTakes::InPlaceOf(other) => arg.action(ArgAction::SetTrue).conflicts_with(other),
        WordTakes::Texts => Ok(arg.action(ArgAction::Append)),
        WordTakes::TextOr(default) => Ok(arg.default_value(default)),
        WordTakes::Port => Ok(taking_port(arg)),
        WordTakes::NumberOr(default, least, most) => {
            Ok(taking_number(arg, least, most).default_value(default))
        }
    }
}

fn is_file(takes: WordTakes) -> bool {
    matches!(
        takes,
        WordTakes::File | WordTakes::AnyFile | WordTakes::Files
    )
}

/// The word as it is written and shown.
fn named<'a>(alloc: Global, word: &'static UsageWord) -> Arg<'a> {
    let arg = Arg::new(alloc, word.name);
    if is_file(word.takes) {
        return arg;
    }
    arg.long(word.name).value_name(word.shown)
}

fn arg_of<'a>(alloc: Global, word: &'static UsageWord) -> Result<Arg<'a>, AllocError> {
    let arg = named(alloc, word);
    if word.help.is_empty() {
        return taking(arg, word.takes);
    }
    taking(arg.help(word.help), word.takes)
}

fn command_of<'a>(alloc: Global, row: &'static CommandRow) -> Result<Command<'a>, AllocError> {
    let mut args = Vec::new(alloc);
    for word in row.words {
        args.push(arg_of(alloc, word)?)?;
    }
    Command::new(alloc, row.name).about(row.about).args(args)
}

/// What `--version` prints behind the name of the program.
const VERSION: &str = "0.1.0";

/// The program, with its commands.
pub fn program<'a>(alloc: Global) -> Result<Command<'a>, AllocError> {
    let mut commands = Vec::new(alloc);
    for row in COMMANDS {
        commands.push(command_of(alloc, row)?)?;
    }
    Command::new(alloc, "host_cli")
        .about("A host of output filters")
        .version(VERSION)
        .subcommands(commands)
}
