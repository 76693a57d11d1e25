//! The commands and the options, a row each: how they are spelled, and which command takes which option
//! how often. A new option is a variant and its row, and stands in the rows of the commands that take
//! it; a new command is a variant and its row. A spelling in two rows means the option that the command
//! takes. The contracts have rows of their own, which these are proved to be.

ghost use Rattle.std.specs.Prelude.{◌≡◌, ◌<◌, ◌&&◌, false, map, unwrap_or};
ghost use Rattle.std.specs.Str.{bytes_eq};
ghost use Rattle.command_words.specs.OptionTable.{first_row, times, names, same_option, same_command, option_number};
ghost use Rattle.command_words.specs.OptionTable.{option_rows, command_rows, takes_value, takes_option, short_named};
ghost use Rattle.command_words.specs.OptionTable.{long_named, option_named, command_named, times_among, times_of};
ghost use Rattle.command_words.specs.OptionTable.{takes_of, takes_groups};

/// An option of a command.
#[derive(Clone, Copy, Debug, PartialEq, Eq, Drop)]
pub enum OptionKind {
    Store,
    ChunkSize,
    Concurrency,
    Cache,
    InPlace,
    Seed,
    Repair,
    Yes,
    Listen,
    Writable,
    Digest,
    Offset,
    Length,
    Retries,
}

/// A command.
#[derive(Clone, Copy, Debug, PartialEq, Eq, Drop)]
pub enum CommandKind {
    Make,
    Extract,
    Cat,
    VerifyIndex,
    Chop,
    Cache,
    ListChunks,
    Info,
    Verify,
    Prune,
    ChunkServer,
    IndexServer,
    Demo,
}

/// How often something may stand: `least` to `greatest` times.
#[derive(Clone, Copy, Debug, Drop)]
pub struct Times {
    pub least: usize,
    pub greatest: usize,
}

/// What a command takes beside its options.
#[derive(Clone, Copy, Debug, Drop)]
pub struct Takes {
    pub operands: Times,
    /// How many of its first operands are indexes.
    pub indexes: usize,
    /// It writes its index, so that is a file, and no URL.
    pub writes_index: bool,
    /// The store has to be a folder, unless there is a cache before it.
    pub needs_folder: bool,
    /// The operands are a number and a size, else names.
    pub takes_numbers: bool,
}

/// An option, its spelling in one letter, where there is one, its spelling in words, and whether the
/// next word is its value.
pub type OptionRow = (OptionKind, &'static str, &'static str, bool);

/// A command, the word that it is called by, the options that it takes and how often, and what else.
pub type CommandRow = (
    CommandKind,
    &'static str,
    &'static [(OptionKind, Times)],
    Takes,
);

const NEVER: Times = Times {
    least: 0,
    greatest: 0,
};

const ONCE: Times = Times {
    least: 1,
    greatest: 1,
};

const AT_MOST_ONCE: Times = Times {
    least: 0,
    greatest: 1,
};

const TWICE: Times = Times {
    least: 2,
    greatest: 2,
};

const NOTHING: Takes = Takes {
    operands: NEVER,
    indexes: 0,
    writes_index: false,
    needs_folder: false,
    takes_numbers: false,
};

/// The options.
#[rattlefmt::skip]
static OPTIONS: [OptionRow; 14] = [
    (OptionKind::Store, "-s", "--store", true),
    (OptionKind::ChunkSize, "-m", "--chunk-size", true),
    (OptionKind::Concurrency, "-n", "--concurrency", true),
    (OptionKind::Cache, "-c", "--cache", true),
    (OptionKind::InPlace, "-k", "--in-place", false),
    (OptionKind::Seed, "--seed", "--seed", true),
    (OptionKind::Repair, "-r", "--repair", false),
    (OptionKind::Yes, "-y", "--yes", false),
    (OptionKind::Listen, "-l", "--listen", true),
    (OptionKind::Writable, "-w", "--writeable", false),
    (OptionKind::Digest, "--digest", "--digest", true),
    (OptionKind::Offset, "-o", "--offset", true),
    (OptionKind::Length, "-l", "--length", true),
    (OptionKind::Retries, "-e", "--error-retry", true),
];

/// The commands.
#[rattlefmt::skip]
static COMMANDS: [CommandRow; 13] = [
    (CommandKind::Make, "make",
        &[(OptionKind::Store, ONCE), (OptionKind::ChunkSize, AT_MOST_ONCE), (OptionKind::Concurrency, AT_MOST_ONCE),
            (OptionKind::Digest, AT_MOST_ONCE)],
        Takes { operands: TWICE, indexes: 1, writes_index: true, ..NOTHING }),
    (CommandKind::Extract, "extract",
        &[(OptionKind::Store, Times { least: 1, greatest: 16 }), (OptionKind::Retries, AT_MOST_ONCE),
            (OptionKind::Seed, Times { least: 0, greatest: 64 }), (OptionKind::Cache, AT_MOST_ONCE),
            (OptionKind::InPlace, AT_MOST_ONCE), (OptionKind::Concurrency, AT_MOST_ONCE)],
        Takes { operands: TWICE, indexes: 1, ..NOTHING }),
    (CommandKind::Cat, "cat",
        &[(OptionKind::Store, Times { least: 1, greatest: 16 }), (OptionKind::Retries, AT_MOST_ONCE),
            (OptionKind::Offset, AT_MOST_ONCE), (OptionKind::Length, AT_MOST_ONCE)],
        Takes { operands: ONCE, indexes: 1, ..NOTHING }),
    (CommandKind::VerifyIndex, "verify-index",
        &[(OptionKind::Concurrency, AT_MOST_ONCE)],
        Takes { operands: TWICE, indexes: 1, ..NOTHING }),
    (CommandKind::Chop, "chop",
        &[(OptionKind::Store, ONCE), (OptionKind::Concurrency, AT_MOST_ONCE)],
        Takes { operands: TWICE, indexes: 1, ..NOTHING }),
    (CommandKind::Cache, "cache",
        &[(OptionKind::Store, Times { least: 1, greatest: 16 }), (OptionKind::Retries, AT_MOST_ONCE),
            (OptionKind::Cache, ONCE), (OptionKind::Concurrency, AT_MOST_ONCE)],
        Takes { operands: Times { least: 1, greatest: 64 }, indexes: 64, ..NOTHING }),
    (CommandKind::ListChunks, "list-chunks",
        &[],
        Takes { operands: ONCE, indexes: 1, ..NOTHING }),
    (CommandKind::Info, "info",
        &[(OptionKind::Store, Times { least: 0, greatest: 16 }), (OptionKind::Retries, AT_MOST_ONCE)],
        Takes { operands: ONCE, indexes: 1, ..NOTHING }),
    (CommandKind::Verify, "verify",
        &[(OptionKind::Store, ONCE), (OptionKind::Repair, AT_MOST_ONCE), (OptionKind::Concurrency, AT_MOST_ONCE),
            (OptionKind::Digest, AT_MOST_ONCE)],
        Takes { needs_folder: true, ..NOTHING }),
    (CommandKind::Prune, "prune",
        &[(OptionKind::Store, ONCE), (OptionKind::Yes, ONCE)],
        Takes { operands: Times { least: 1, greatest: 64 }, indexes: 64, needs_folder: true, ..NOTHING }),
    (CommandKind::ChunkServer, "chunk-server",
        &[(OptionKind::Store, Times { least: 1, greatest: 16 }), (OptionKind::Retries, AT_MOST_ONCE),
            (OptionKind::Cache, AT_MOST_ONCE), (OptionKind::Listen, ONCE), (OptionKind::Writable, AT_MOST_ONCE),
            (OptionKind::Concurrency, AT_MOST_ONCE), (OptionKind::Digest, AT_MOST_ONCE)],
        Takes { needs_folder: true, ..NOTHING }),
    (CommandKind::IndexServer, "index-server",
        &[(OptionKind::Store, ONCE), (OptionKind::Listen, ONCE), (OptionKind::Writable, AT_MOST_ONCE)],
        Takes { needs_folder: true, ..NOTHING }),
    (CommandKind::Demo, "demo",
        &[(OptionKind::Concurrency, AT_MOST_ONCE), (OptionKind::Digest, AT_MOST_ONCE)],
        Takes { operands: TWICE, takes_numbers: true, ..NOTHING }),
];

// The rows of the options.
fn options() -> &'static [OptionRow]
    ensures { map (λ row. (row.0, row.1.now, row.2.now, row.3)) result.now ≡ option_rows }
{
    &OPTIONS
}

// The rows of the commands.
fn commands() -> &'static [CommandRow]
    ensures { map (λ row. (row.0, row.1.now, row.2.now, row.3)) result.now ≡ command_rows }
{
    &COMMANDS
}

fn short_among(rows: &[OptionRow], kind: CommandKind, word: &str) -> Option<OptionKind>
    ensures { result
        ≡ first_row (λ row. bytes_eq word.now row.1.now && takes_option kind row.0) (λ row. row.0) rows.now }
{
    let row = rows
        .iter()
        .find(|row| word == row.1 && kind.takes_option(row.0))?;
    Some(row.0)
}

fn long_among(rows: &[OptionRow], kind: CommandKind, word: &str) -> Option<OptionKind>
    ensures { result
        ≡ first_row (λ row. bytes_eq word.now row.2.now && takes_option kind row.0) (λ row. row.0) rows.now }
{
    let row = rows
        .iter()
        .find(|row| word == row.2 && kind.takes_option(row.0))?;
    Some(row.0)
}

fn value_among(rows: &[OptionRow], option: OptionKind) -> bool
    ensures { result ≡ unwrap_or (first_row (λ row. same_option row.0 option) (λ row. row.3) rows.now) false }
{
    match rows.iter().find(|row| row.0 == option) {
        Some(row) => row.3,
        None => false,
    }
}

fn command_among(rows: &[CommandRow], word: &str) -> Option<CommandKind>
    ensures { result ≡ first_row (λ row. bytes_eq word.now row.1.now) (λ row. row.0) rows.now }
{
    let row = rows.iter().find(|row| word == row.1)?;
    Some(row.0)
}

fn times_among(option: OptionKind, options: &[(OptionKind, Times)]) -> Times
    ensures { result ≡ times_among option options.now }
{
    match options.iter().find(|pair| pair.0 == option) {
        Some(pair) => pair.1,
        None => NEVER,
    }
}

fn times_by(rows: &[CommandRow], kind: CommandKind, option: OptionKind) -> Times
    ensures { let named = first_row (λ row. same_command row.0 kind) (λ row. times_among option row.2.now) rows.now in
        result ≡ unwrap_or named (times 0 0) }
{
    match rows.iter().find(|row| row.0 == kind) {
        Some(row) => times_among(option, row.2),
        None => NEVER,
    }
}

fn takes_by(rows: &[CommandRow], kind: CommandKind) -> Takes
    ensures { result ≡ unwrap_or (first_row (λ row. same_command row.0 kind) (λ row. row.3) rows.now) (names 0 0 0) }
{
    match rows.iter().find(|row| row.0 == kind) {
        Some(row) => row.3,
        None => NOTHING,
    }
}

impl OptionKind {
    /// A number of its own, from 0, by which options are told apart.
    pub fn number(self) -> u8
        ensures value { result ≡ option_number self }
        ensures size { result < 14 }
    {
        self as u8
    }

    /// Whether the next word is its value.
    pub fn takes_value(self) -> bool
        ensures { result ≡ takes_value self }
    {
        value_among(options(), self)
    }
}

impl CommandKind {
    /// How often it takes the option.
    pub fn times_of(self, option: OptionKind) -> Times
        ensures { result ≡ times_of self option }
    {
        times_by(commands(), self, option)
    }

    /// Whether it takes the option at all.
    pub fn takes_option(self, option: OptionKind) -> bool
        ensures { result ≡ takes_option self option }
    {
        self.times_of(option).greatest > 0
    }

    /// Whether it takes stores in groups, and makes calls that fail again.
    pub fn takes_groups(self) -> bool
        ensures { result ≡ takes_groups self }
    {
        self.takes_option(OptionKind::Retries)
    }

    /// What it takes beside its options.
    pub fn takes(self) -> Takes
        ensures { result ≡ takes_of self }
    {
        takes_by(commands(), self)
    }
}

// The option of the command that has this spelling in one letter, or has it alone.
fn short_named(kind: CommandKind, word: &str) -> Option<OptionKind>
    ensures { result ≡ short_named kind word.now }
{
    short_among(options(), kind, word)
}

// The option of the command that has this spelling in words.
fn long_named(kind: CommandKind, word: &str) -> Option<OptionKind>
    ensures { result ≡ long_named kind word.now }
{
    long_among(options(), kind, word)
}

/// The option of the command that is spelled so.
pub fn option_named(kind: CommandKind, word: &str) -> Option<OptionKind>
    ensures { result ≡ option_named kind word.now }
{
    short_named(kind, word).or(long_named(kind, word))
}

/// The command of this name.
pub fn command_named(word: &str) -> Option<CommandKind>
    ensures { result ≡ command_named word.now }
{
    command_among(commands(), word)
}
