//! Record data of SVCB and HTTPS in a message.

ghost use Rattle.std.specs.Prelude.{◌≡◌, ◌==◌, not, IfOk, OnOk};
ghost use Rattle.wire_base.specs.Faults.{Gives};
ghost use Rattle.wire_base.specs.Moving.{TakesAll};
ghost use Rattle.svcb_params.specs.ParamsView.{seen_params};
ghost use Rattle.svcb_rdata.specs.Reading.{record_of, next_record, is_target_pointed};

use crate::rdata::SvcbRdata;
use std::alloc::Global;
use std::marker::{Model, PhantomData};
use svcb_params::SvcParamsRef;
use wire_base::{LongRecordData, NoMemory, ParseError, ParsedName, Parser};

/// A view of the data of an SVCB or HTTPS record in a message (RFC 9460, section 2.2): a priority, a target name, and
/// parameters, as [`SvcbRdata`] says. `V` marks the record type.
///
/// The octets stay where they are, and the target may be compressed. Reading takes no memory.
///
/// ```
/// let record = SvcbRef::<HttpsVariant>::parse(&mut parser)?;
/// let params = record.params();
/// if let Some(port) = params.port() {
///     println!(rt; "{}", port.port())?;
/// }
/// ```
///
/// Contracts see the priority, the target as a name in a message, and the parameters.
#[derive(Drop)]
#[derive_where(Debug)]
pub struct SvcbRef<'a, V> {
    priority: u16,
    target: ParsedName<'a>,
    params: SvcParamsRef<'a>,
    #[derive_where(skip)]
    variant: PhantomData<V>,
}

impl<'a, V> Model for SvcbRef<'a, V> {
    ghost use Rattle.svcb_spec.specs.Records.{Record, IsRecord};
    ghost use Rattle.svcb_params.specs.ParamsView.{seen_params};
    ghost use Rattle.svcb_rdata.specs.Reading.{SvcbView};

    ghost Value = { SvcbView };

    ghost view = { λ found. record {
      priority = found.priority;
      target = found.target;
      pairs = seen_params found.params;
    } };

    ghost invariant = { λ found. IsRecord (record {
      priority = found.priority;
      labels = found.target.labels;
      pairs = seen_params found.params;
    }) };
}

impl<'a, V> SvcbRef<'a, V> {
    /// Reads the record data in place. Where it is refused, the parser stands anywhere within the data.
    #[tactic(auto, using(crate::proofs::Records::reading_rules), unfolding(svcb_spec::specs::Records::read))]
    fn read(parser: &mut Parser<'a>) -> Result<SvcbRef<'a, V>, ParseError>
        ensures answer { Gives record_of result (next_record parser.old) }
        ensures pointed { IfOk result
            (λ found. found.target.is_compressed ≡ is_target_pointed parser.old) }
        ensures within { parser.new ≡ record parser.old { pos = parser.new.pos } }
    {
        LongRecordData::check_len(parser.remaining())?;
        let priority = parser.parse_u16()?;
        let target = ParsedName::parse(parser)?;
        let params = SvcParamsRef::parse(parser)?;
        LongRecordData::check_len(2 + usize::from(target.compose_len()) + params.len())?;
        Ok(SvcbRef {
            priority,
            target,
            params,
            variant: PhantomData,
        })
    }

    /// The record data in all octets before the end of the data. The parser stays.
    pub(crate) fn peek(parser: &Parser<'a>) -> Result<SvcbRef<'a, V>, ParseError>
        ensures answer { Gives record_of result (next_record parser.now) }
        ensures pointed { IfOk result
            (λ found. found.target.is_compressed ≡ is_target_pointed parser.now) }
    {
        SvcbRef::read(&mut parser.fork())
    }

    /// Reads the record data in all octets before the end of the data (RFC 9460, section 2.2). Takes no memory, so
    /// never fails with `NoMemory`.
    ///
    /// `Form`: the data has more than 65,535 octets, which is tested first. Then the first fault along it decides:
    /// `ShortInput` where it ends within the priority, the target, or a key, a length or a value; `Form` where the
    /// target has that fault, as [`ParsedName::parse`] tells it, or a key isn't above the one before it. Last,
    /// `Form`: with its target uncompressed the data would have more than 65,535 octets. The parser is then
    /// unchanged.
    pub fn parse(parser: &mut Parser<'a>) -> Result<SvcbRef<'a, V>, ParseError>
        ensures answer { Gives record_of result (next_record parser.old) }
        ensures pointed { IfOk result
            (λ found. found.target.is_compressed ≡ is_target_pointed parser.old) }
        ensures takes { TakesAll parser.old parser.new result }
    {
        let found = SvcbRef::peek(parser)?;
        parser.advance_to_end();
        Ok(found)
    }

    /// The priority; 0 is alias mode (RFC 9460, section 2.4.1).
    pub fn priority(&self) -> u16
        ensures { result ≡ self.now.priority }
    {
        self.priority
    }

    /// Whether the record is in alias mode.
    pub fn is_alias(&self) -> bool
        ensures { result ≡ (self.now.priority == 0) }
    {
        self.priority == 0
    }

    /// Whether the record is in service mode.
    pub fn is_service(&self) -> bool
        ensures { result ≡ not (self.now.priority == 0) }
    {
        self.priority != 0
    }

    /// The target name.
    ///
    /// RFC 9460, section 2.2, forbids a compressed target on the wire. It is read all the same, and
    /// `target().is_compressed()` is how a client tells.
    pub fn target(&self) -> &ParsedName<'a>
        ensures { result.now ≡ self.now.target }
    {
        &self.target
    }

    /// The parameters. Values that are read from them borrow what this call gives, so bind it first:
    /// `let params = found.params();`, and then `params.iter_all()` or `params.first()`.
    pub fn params(&self) -> SvcParamsRef<'a>
        ensures { seen_params result ≡ self.now.pairs }
    {
        self.params
    }

    /// The same record data by itself, its target uncompressed and in the same case.
    ///
    /// `NoMemory`: allocation failed.
    pub fn to_owned_data(&self, alloc: Global) -> Result<SvcbRdata<V>, NoMemory>
        ensures { IfOk result (λ owned. owned ≡ record_of self.now) }
    {
        let target = self.target.to_name(alloc)?;
        let params = self.params.to_owned_data(alloc)?;
        Ok(SvcbRdata::from_checked_parts(self.priority, target, params))
    }
}
