//! The aliases of a name: CNAME records (RFC 1035, section 3.3.1).

ghost use Rattle.std.specs.Prelude.{◌≡◌};
ghost use Rattle.wire_base.specs.Faults.{Gives};
ghost use Rattle.dns_message.specs.Aliases.{is_alias, name_of_data, first_alias, labels_reached};
ghost use Rattle.dns_message.specs.Entries.{next_record, section_entries};

use crate::entries::Records;
use crate::errors::AliasError;
use crate::found::is_of;
use crate::record::ParsedRecord;
use wire_base::{LabelIter, Name, ParseError, ParsedName, Rtype};

/// The class of the internet.
const CLASS_IN: u16 = 1;

/// The type of an alias.
const CNAME: u16 = 5;

/// Whether a record is an alias of a name.
fn is_alias(found: &ParsedRecord<'_>, owner: &LabelIter<'_>) -> bool
    ensures { result ≡ is_alias owner.now found.now }
{
    found.class() == CLASS_IN && is_of(found, owner, Rtype::from_int(CNAME))
}

/// The name that the data of a record wholly is.
fn name_of_data<'a>(found: &ParsedRecord<'a>) -> Result<ParsedName<'a>, ParseError>
    ensures { Gives (λ name. name) result (name_of_data found.now) }
{
    let mut parser = found.parser();
    let name = ParsedName::parse(&mut parser)?;
    if parser.remaining() > 0 {
        return Err(ParseError::Form);
    }
    Ok(name)
}

/// What the first alias of a name leads to, if there is one.
fn first_alias<'a>(
    mut records: Records<'a>,
    owner: &LabelIter<'_>,
) -> Result<Option<ParsedName<'a>>, AliasError>
    ensures { result ≡ first_alias owner.now (section_entries next_record records.entry) }
{
    while let Some(item) = records.next() {
        let found = item?;
        if is_alias(&found, owner) {
            return Ok(Some(name_of_data(&found)?));
        }
    }
    Ok(None)
}

/// What the first alias of the last target leads to, or of the owner where no alias was followed.
pub(crate) fn next_alias<'a>(
    answers: Records<'a>,
    owner: &Name,
    reached: &Option<ParsedName<'a>>,
) -> Result<Option<ParsedName<'a>>, AliasError>
    ensures { result ≡ first_alias (labels_reached owner.now reached.now)
        (section_entries next_record answers.entry) }
{
    match reached {
        Some(target) => first_alias(answers, &target.labels()),
        None => first_alias(answers, &owner.labels()),
    }
}
