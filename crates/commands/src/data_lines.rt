//! Record data in hexadecimal, each a message of its own.
ghost use Rattle.std.specs.Prelude.{◌≡◌, length, IfOk};
ghost use Rattle.std.specs.Option.{option_map};
ghost use Rattle.std.specs.Result.{result_ok};
ghost use Rattle.svcb_spec.specs.Records.{read};
ghost use Rattle.record_spec.specs.Wire.{read_data};
ghost use Rattle.digest_rdata.specs.FieldsView.{data_of};
ghost use Rattle.commands.specs.DataLines.{svcb_line, fields_line};

use digest_rdata::{AssociationData, AssociationFields};
use input_lines::hexadecimal::octets_in;
use std::alloc::Global;
use svcb_rdata::Svcb;
use wire_base::{NoMemory, ParseError, Parser};

/// The SVCB data that all octets are. Fails only with `NoMemory`.
fn svcb_of(alloc: Global, octets: &[u8]) -> Result<Option<Svcb>, NoMemory>
    ensures { IfOk result (λ found. found ≡ result_ok (read octets.now 0 (length octets.now))) }
{
    let mut parser = Parser::from_ref(octets);
    match Svcb::parse(alloc, &mut parser) {
        Ok(found) => Ok(Some(found)),
        Err(ParseError::ShortInput) => Ok(None),
        Err(ParseError::Form) => Ok(None),
        Err(ParseError::NoMemory) => Err(NoMemory),
    }
}

/// The SVCB data that the octets of digits are. Fails only with `NoMemory`.
pub fn svcb_in(alloc: Global, digits: &[u8]) -> Result<Option<Svcb>, NoMemory>
    ensures { IfOk result (λ found. found ≡ svcb_line digits.now) }
{
    match octets_in(alloc, digits)? {
        Some(octets) => svcb_of(alloc, octets.as_slice()),
        None => Ok(None),
    }
}

/// The data of numbers and a last field that all octets are. Fails only with `NoMemory`.
#[tactic(auto, using(crate::proofs::WholeData::whole_octets))]
fn fields_of<F: AssociationFields>(
    alloc: Global,
    octets: &[u8],
) -> Result<Option<AssociationData<F>>, NoMemory>
    ensures { IfOk result (λ found.
        option_map (data_of F.numbers) found ≡ result_ok (read_data F.definition octets.now)) }
{
    let mut parser = Parser::from_ref(octets);
    match AssociationData::<F>::parse(alloc, &mut parser) {
        Ok(found) => Ok(Some(found)),
        Err(ParseError::ShortInput) => Ok(None),
        Err(ParseError::Form) => Ok(None),
        Err(ParseError::NoMemory) => Err(NoMemory),
    }
}

/// The data of numbers and a last field that the octets of digits are. Fails only with `NoMemory`.
pub fn fields_in<F: AssociationFields>(
    alloc: Global,
    digits: &[u8],
) -> Result<Option<AssociationData<F>>, NoMemory>
    ensures { IfOk result (λ found.
        option_map (data_of F.numbers) found ≡ fields_line F.definition digits.now) }
{
    match octets_in(alloc, digits)? {
        Some(octets) => fields_of(alloc, octets.as_slice()),
        None => Ok(None),
    }
}
