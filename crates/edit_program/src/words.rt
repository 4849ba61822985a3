//! The words of the command line.
ghost use Rattle.std.specs.Prelude.{◌≡◌, map, string_bytes};
ghost use Rattle.edit_program.specs.Commands.{is_reading};
ghost use Rattle.edit_program.specs.Words.{command_alone, only_type, type_of, numbered_type, number_within};
ghost use Rattle.edit_program.specs.Words.{only_count, count_of, command_of};

use crate::generate::MAX_PARAMS;
use input_lines::numbers::number;
use wire_base::Rtype;

/// What the program is asked to do.
#[derive(Clone, Copy, Debug, PartialEq, Eq)]
pub enum Command {
    /// Adds parameters to record data.
    Edit,
    /// Writes record data as text.
    Show(Rtype),
    /// Reads record data from text.
    Scan(Rtype),
    /// Makes record data of so many parameters, and rebuilds it.
    Gen(u16),
    /// Chooses the endpoints of an owner's SVCB records.
    Choose,
    /// Checks CDS against CDNSKEY records.
    Cds,
    /// Checks a zone against its ZONEMD record.
    Zonemd,
}

impl Command {
    /// Whether the command reads the input.
    #[tactic(auto, unfolding(crate::specs::Commands::is_reading))]
    pub fn reads_input(self) -> bool
        ensures { result ≡ is_reading self }
    {
        match self {
            Command::Gen(_) => false,
            Command::Edit | Command::Show(_) | Command::Scan(_) => true,
            Command::Choose | Command::Cds | Command::Zonemd => true,
        }
    }
}

/// A command, where no word follows its name.
fn alone_in(command: Command, more: &[String]) -> Option<Command>
    ensures { result ≡ command_alone command (map string_bytes more.now) }
{
    if more.is_empty() { Some(command) } else { None }
}

/// The number that a word gives: one to so many digits, of a number within bounds.
fn number_in(word: &str, digits: usize, least: u16, greatest: u16) -> Option<u16>
    ensures { result ≡ number_within digits least greatest word.now }
{
    if word.len() > digits {
        return None;
    }
    let found = number(word.as_bytes())?;
    if found < u32::from(least) || found > u32::from(greatest) {
        return None;
    }
    Some(found as u16)
}

/// The record type that `type` and its number name.
fn numbered_type_in(word: &str) -> Option<Rtype>
    ensures { result ≡ numbered_type word.now }
{
    let digits = word.strip_prefix("type")?;
    Some(Rtype::from_int(number_in(digits, 5, 0, u16::MAX)?))
}

/// The record type that a word names.
#[tactic(auto, unfolding(crate::specs::Words::type_of))]
fn type_in(word: &str) -> Option<Rtype>
    ensures { result ≡ type_of word.now }
{
    match word {
        "a" => Some(Rtype::A),
        "aaaa" => Some(Rtype::AAAA),
        "sshfp" => Some(Rtype::SSHFP),
        "ipseckey" => Some(Rtype::IPSECKEY),
        "tlsa" => Some(Rtype::TLSA),
        "cds" => Some(Rtype::CDS),
        "cdnskey" => Some(Rtype::CDNSKEY),
        "openpgpkey" => Some(Rtype::OPENPGPKEY),
        "zonemd" => Some(Rtype::ZONEMD),
        "svcb" => Some(Rtype::SVCB),
        "https" => Some(Rtype::HTTPS),
        _ => numbered_type_in(word),
    }
}

/// The record type that the only word names.
fn only_type_in(words: &[String]) -> Option<Rtype>
    ensures { result ≡ only_type (map string_bytes words.now) }
{
    let (word, more) = words.split_first()?;
    if more.is_empty() {
        type_in(word.as_str())
    } else {
        None
    }
}

/// The count that a word gives: one to four digits of a number from 1 to `MAX_PARAMS`.
fn count_in(word: &str) -> Option<u16>
    ensures { result ≡ count_of word.now }
{
    number_in(word, 4, 1, MAX_PARAMS)
}

/// The count that the only word gives.
fn only_count_in(words: &[String]) -> Option<u16>
    ensures { result ≡ only_count (map string_bytes words.now) }
{
    let (word, more) = words.split_first()?;
    if more.is_empty() {
        count_in(word.as_str())
    } else {
        None
    }
}

/// The command that the words name.
pub fn command_in(words: &[String]) -> Option<Command>
    ensures { result ≡ command_of words.now }
{
    let (name, more) = words.split_first()?;
    match name.as_str() {
        "edit" => alone_in(Command::Edit, more),
        "show" => Some(Command::Show(only_type_in(more)?)),
        "scan" => Some(Command::Scan(only_type_in(more)?)),
        "gen" => Some(Command::Gen(only_count_in(more)?)),
        "choose" => alone_in(Command::Choose, more),
        "cds" => alone_in(Command::Cds, more),
        "zonemd" => alone_in(Command::Zonemd, more),
        _ => None,
    }
}
