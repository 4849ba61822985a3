//! Owned record data of SVCB and HTTPS.

ghost use Rattle.std.specs.Prelude.{◌≡◌, ◌==◌, ◌≤◌, ◌<◌, not, refl, length, Some, IfOk, OnOk, OnErr};
ghost use Rattle.svcb_spec.specs.Records.{Record, rdata, IsRecord};
ghost use Rattle.wire_base.specs.Faults.{GivesCopy};
ghost use Rattle.wire_base.specs.Moving.{TakesAll, AppendsOctets};
ghost use Rattle.svcb_rdata.specs.Reading.{next_record, svcb_data_read};

use crate::svcb_ref::SvcbRef;
use crate::variant::{HttpsVariant, SvcVariant, SvcbVariant};
use std::alloc::Global;
use std::cmp::Ordering;
use std::fmt;
use std::marker::{Model, PhantomData};
use svcb_params::SvcParams;
use wire_base::{
    CanonicalOrd, ComposeRecordData, LongRecordData, Name, NoMemory, ParseError, ParseRecordData,
    Parser, RecordData, Rtype,
};

/// The data of an SVCB or HTTPS record (RFC 9460, section 2.2): a priority, a target name, and parameters.
///
/// Priority 0 is alias mode: the target is another name for the owner. Any other is service mode: the target is an
/// endpoint, which the parameters describe. In wire form these are two octets of priority, the target uncompressed, and
/// the parameters, at most 65,535 octets in all. `V` marks the record type: the data of SVCB is [`Svcb`], that of HTTPS
/// [`Https`]. [`SvcbRef`] is a view of the data in a message.
///
/// ```
/// let target = Name::from_octets(Octets::from_slice(alloc, b"\x03foo\x07example\x03com\x00")?)?;
/// let record = Https::new(1, target, params)?;
/// let mut octets = Vec::new(alloc);
/// record.compose_rdata(&mut octets)?;
/// ```
///
/// Data is compared by priority, then target, ASCII case ignored, then parameters by their octets. Contracts see the
/// priority, the labels of the target, and the parameters.
#[derive(Drop)]
pub struct SvcbRdata<V> {
    priority: u16,
    target: Name,
    params: SvcParams,
    variant: PhantomData<V>,
}

/// The data of an SVCB record.
pub type Svcb = SvcbRdata<SvcbVariant>;

/// The data of an HTTPS record.
pub type Https = SvcbRdata<HttpsVariant>;

impl<V> Model for SvcbRdata<V> {
    ghost use Rattle.svcb_spec.specs.Records.{Record, IsRecord};

    ghost Value = { Record };

    ghost view = { λ found. record
        { priority = found.priority; labels = found.target; pairs = found.params } };

    ghost invariant = { λ found. IsRecord (record
        { priority = found.priority; labels = found.target; pairs = found.params }) };
}

/// The name of the alias, and the parts.
impl<V: SvcVariant> fmt::Debug for SvcbRdata<V> {
    fn fmt<W: fmt::Write>(&self, f: &mut fmt::Formatter<W>) -> fmt::Result {
        f.debug_struct(V::NAME)
            .field("priority", &self.priority)
            .field("target", &self.target)
            .field("params", &self.params)
            .finish()
    }
}

impl<V> SvcbRdata<V> {
    /// The record data of parts that are known to be one.
    pub(crate) fn from_checked_parts(priority: u16, target: Name, params: SvcParams) -> SvcbRdata<V>
        requires { IsRecord (record { priority = priority; labels = target; pairs = params }) }
        ensures { result ≡ record { priority = priority; labels = target; pairs = params } }
    {
        SvcbRdata {
            priority,
            target,
            params,
            variant: PhantomData,
        }
    }

    /// The record data of its parts. Takes no memory.
    ///
    /// `LongRecordData`: it would have more than 65,535 octets. The parts are then dropped.
    pub fn new(
        priority: u16,
        target: Name,
        params: SvcParams,
    ) -> Result<SvcbRdata<V>, LongRecordData>
        ensures made { IfOk result
            (λ made. made ≡ record { priority = priority; labels = target; pairs = params }) }
        ensures ok { OnOk result (length (rdata priority target params) ≤ 65535) }
        ensures long { OnErr result (65535 < length (rdata priority target params)) }
    {
        LongRecordData::check_append_len(2 + usize::from(target.compose_len()), params.len())?;
        Ok(SvcbRdata::from_checked_parts(priority, target, params))
    }

    /// Reads the record data in all octets before the end of the data, and copies it. Its target is then
    /// uncompressed.
    ///
    /// `ShortInput`, `Form`: the first fault of the data, as [`SvcbRef::parse`] tells it. `NoMemory`: the data has no
    /// fault, and allocation failed. The parser is then unchanged.
    pub fn parse(alloc: Global, parser: &mut Parser<'_>) -> Result<SvcbRdata<V>, ParseError>
        ensures answer { GivesCopy (λ found. found) result (next_record parser.old) }
        ensures takes { TakesAll parser.old parser.new result }
    {
        let owned = SvcbRef::<'_, V>::peek(parser)?.to_owned_data(alloc)?;
        parser.advance_to_end();
        Ok(owned)
    }

    /// The priority; 0 is alias mode (RFC 9460, section 2.4.1).
    pub fn priority(&self) -> u16
        ensures { result ≡ self.now.priority }
    {
        self.priority
    }

    /// Whether the record is in alias mode.
    pub fn is_alias(&self) -> bool
        ensures { result ≡ (self.now.priority == 0) }
    {
        self.priority == 0
    }

    /// Whether the record is in service mode.
    pub fn is_service(&self) -> bool
        ensures { result ≡ not (self.now.priority == 0) }
    {
        self.priority != 0
    }

    /// The target name.
    pub fn target(&self) -> &Name
        ensures { result.now ≡ self.now.labels }
    {
        &self.target
    }

    /// The parameters.
    pub fn params(&self) -> &SvcParams
        ensures { result.now ≡ self.now.pairs }
    {
        &self.params
    }

    /// A copy.
    ///
    /// `NoMemory`: allocation failed.
    pub fn try_clone(&self, alloc: Global) -> Result<SvcbRdata<V>, NoMemory>
        ensures { IfOk result (λ copy. copy ≡ self.now) }
    {
        let target = self.target.try_clone(alloc)?;
        let params = self.params.try_clone(alloc)?;
        Ok(SvcbRdata::from_checked_parts(self.priority, target, params))
    }

    /// The count of octets.
    pub(crate) fn len(&self) -> u16
        ensures { result ≡ length (rdata self.now.priority self.now.labels self.now.pairs) }
    {
        2 + self.target.compose_len() + self.params.len() as u16
    }
}

impl<V: SvcVariant> RecordData for SvcbRdata<V> {
    ghost rtype_of = { λ _. V.RTYPE };

    fn rtype(&self) -> Rtype {
        V::RTYPE
    }
}

impl<V: SvcVariant> ComposeRecordData for SvcbRdata<V> {
    ghost octets = { λ found. rdata found.priority found.labels found.pairs };

    fn rdlen(&self, _compress: bool) -> Option<u16> {
        Some(self.len())
    }

    fn compose_rdata(&self, target: &mut Vec<u8>) -> Result<(), NoMemory> {
        target.reserve(usize::from(self.len()))?;
        let priority = self.priority.to_be_bytes();
        target.extend_from_slice(&priority).unwrap();
        target.extend_from_slice(self.target.as_slice()).unwrap();
        target.extend_from_slice(self.params.as_slice()).unwrap();
        Ok(())
    }

    /// The target's case stays in canonical form, so these are the octets of `compose_rdata`.
    fn compose_canonical_rdata(&self, target: &mut Vec<u8>) -> Result<(), NoMemory> {
        self.compose_rdata(target)
    }

    ghost by_type = { λ _. refl };
}

impl<V: SvcVariant> ParseRecordData for SvcbRdata<V> {
    ghost Seen = { Record };

    ghost seen = { λ found. found };

    ghost takes = { λ rtype. rtype == V.RTYPE };

    ghost reads = { λ _. svcb_data_read };

    fn parse_rdata(
        alloc: Global,
        rtype: Rtype,
        parser: &mut Parser<'_>,
    ) -> Result<Option<SvcbRdata<V>>, ParseError> {
        if rtype != V::RTYPE {
            return Ok(None);
        }
        let found = SvcbRdata::parse(alloc, parser)?;
        Ok(Some(found))
    }
}

/// By priority, then the target's octets, their case included, then the parameters' octets.
impl<V: SvcVariant> CanonicalOrd for SvcbRdata<V> {
    ghost group = { λ _. V.RTYPE };

    ghost canonical = { λ found. rdata found.priority found.labels found.pairs };

    #[tactic(auto, using(svcb_spec::proofs::OrderLaws::data_orders))]
    fn canonical_cmp(&self, other: &SvcbRdata<V>) -> Ordering {
        self.priority
            .cmp(&other.priority)
            .then(self.target.as_slice().cmp(other.target.as_slice()))
            .then(self.params.as_slice().cmp(other.params.as_slice()))
    }
}
