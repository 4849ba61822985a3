//! The answer to an HTTPS query.

use crate::cache::there_and_back;
use anyhow::{Context, Result, bail};
use hollywhist::base::iana::Rtype;
use hollywhist::base::message::Message;
use hollywhist::base::name::Name;
use hollywhist::rdata::svcb::Https;
use std::alloc::Global;

/// The name that is asked for.
pub fn asked_name(alloc: Global, message: &Message<'_>) -> Result<Name> {
    let Some(Ok(question)) = message.questions().next() else {
        bail!("no question");
    };
    Ok(question.qname().to_name(alloc)?)
}

/// The name that the aliases of the name asked for lead to, whose records are the answer.
pub fn canonical_name(alloc: Global, message: &Message<'_>, asked: Name) -> Result<Name> {
    let target = message.canonical_name(&asked).context("following aliases")?;
    match target {
        Some(name) => Ok(name.to_name(alloc)?),
        None => Ok(asked),
    }
}

/// The HTTPS records of an owner in an answer, kept as text and read again, by ascending priorities; records of one
/// priority as they stand.
pub fn https_records(alloc: Global, message: &Message<'_>, owner: &Name) -> Result<Vec<Https>> {
    let mut records = Vec::new(alloc);
    let mut found = message
        .find(owner, Rtype::HTTPS)
        .context("reading the question")?;
    while let Some(item) = found.next() {
        let Ok(record) = item else {
            bail!("a record that can't be read");
        };
        let https = Https::parse(alloc, &mut record.parser()).context("reading a record")?;
        records.push(there_and_back(alloc, &https).context("keeping a record")?)?;
    }
    records.sort_by_key(|found| found.priority())?;
    Ok(records)
}
