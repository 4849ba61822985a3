//! Data that is printed is scanned as that data, or allocation fails.

ghost use Rattle.std.specs.Prelude.{◌≡◌, false, IfOk, IfErr};
ghost use Rattle.hollywhist.specs.Views.{cds_of, data_of_zone};
ghost use Rattle.record_spec.specs.Ipseckeys.{lacks_key};
ghost use Rattle.record_laws.specs.UnionLaws.{IsKeyed};

use crate::entries::scanner_of;
use hollywhist::base::rdata::RecordData;
use hollywhist::base::scan::{ScanError, scan_a};
use hollywhist::laws::any_data::{
    fields_are_data, fields_scanned_back, ipseckey_is_data, ipv4_is_address, zone_is_data,
};
use hollywhist::laws::any_type::union_text_read_back;
use hollywhist::laws::data_texts::data_text_read_back;
use hollywhist::laws::entry_texts::{ipv4_token_text, token_is_entry, tokens_read};
use hollywhist::laws::names;
use hollywhist::laws::records::ipseckey_text_read_back;
use hollywhist::laws::svcb_data::made_of_octets;
use hollywhist::rdata::svcb::{SvcVariant, SvcbRdata};
use hollywhist::rdata::{A, Cds, Ipseckey, ZoneRecordData};
use std::alloc::Global;

/// An IPv4 address.
pub fn ipv4_read_back(alloc: Global, found: &A) -> Result<A, ScanError>
    ensures same { IfOk result (λ back. back ≡ found.now) }
    ensures only { IfErr result (λ fault. fault ≡ ScanError.NoMemory) }
{
    ipv4_is_address(found);
    ipv4_token_text();
    token_is_entry();
    tokens_read();
    names::ipv4_read_back();
    let text = format!(in alloc; "{found}")?;
    scan_a(alloc, &mut scanner_of(text.as_bytes()))
}

/// The data of a CDS record.
#[tactic(auto, using(text_spec::specs::ScanningLaws::answered, text_spec::specs::ScanningLaws::no_other_error))]
pub fn cds_read_back(alloc: Global, found: &Cds) -> Result<Cds, ScanError>
    ensures same { IfOk result (λ back. cds_of back ≡ cds_of found.now) }
    ensures only { IfErr result (λ fault. fault ≡ ScanError.NoMemory) }
{
    fields_are_data(found);
    fields_scanned_back(found);
    let text = format!(in alloc; "{found}")?;
    Cds::scan(alloc, &mut scanner_of(text.as_bytes()))
}

/// The data of an IPSECKEY record, whose key isn't missing.
#[tactic(auto, using(text_spec::specs::ScanningLaws::answered, text_spec::specs::ScanningLaws::no_other_error))]
pub fn ipseckey_read_back(alloc: Global, found: &Ipseckey) -> Result<Ipseckey, ScanError>
    requires { lacks_key found.now.algorithm found.now.key ≡ false }
    ensures same { IfOk result (λ back. back ≡ found.now) }
    ensures only { IfErr result (λ fault. fault ≡ ScanError.NoMemory) }
{
    ipseckey_is_data(found);
    ipseckey_text_read_back();
    let text = format!(in alloc; "{found}")?;
    Ipseckey::scan(alloc, &mut scanner_of(text.as_bytes()))
}

/// The data of an SVCB or HTTPS record.
#[tactic(auto, using(text_spec::specs::ScanningLaws::answered, text_spec::specs::ScanningLaws::no_other_error))]
pub fn svcb_read_back<V: SvcVariant>(
    alloc: Global,
    found: &SvcbRdata<V>,
) -> Result<SvcbRdata<V>, ScanError>
    ensures same { IfOk result (λ back. back ≡ found.now) }
    ensures only { IfErr result (λ fault. fault ≡ ScanError.NoMemory) }
{
    made_of_octets(found);
    data_text_read_back();
    let text = format!(in alloc; "{found}")?;
    SvcbRdata::scan(alloc, &mut scanner_of(text.as_bytes()))
}

/// Data of a zone, whatever its type, under the number of its type. No key of IPSECKEY data may be missing.
#[tactic(auto, using(text_spec::specs::ScanningLaws::answered, text_spec::specs::ScanningLaws::no_other_error))]
pub fn zone_read_back(alloc: Global, found: &ZoneRecordData) -> Result<ZoneRecordData, ScanError>
    requires { IsKeyed (data_of_zone found.now) }
    ensures same { IfOk result (λ back. data_of_zone back ≡ data_of_zone found.now) }
    ensures only { IfErr result (λ fault. fault ≡ ScanError.NoMemory) }
{
    zone_is_data(found);
    union_text_read_back();
    let text = format!(in alloc; "{found}")?;
    let rtype = found.rtype();
    ZoneRecordData::scan(alloc, rtype, &mut scanner_of(text.as_bytes()))
}
