//! Laws of rebuilding that speak of readers, each proved for all arguments. Those over the definitions alone stand in
//! `svcb_spec::laws`.

ghost use Rattle.std.specs.Prelude.{◌≡◌, Ok, length};
ghost use Rattle.svcb_spec.specs.Records.{read};
ghost use Rattle.wire_base.specs.Faults.{Gives};
ghost use Rattle.svcb_rdata.specs.Reading.{record_pairs};
ghost use Rattle.svcb_rdata.specs.Laws.{AcceptedRead, AreRebuilt};
ghost use Rattle.svcb_laws.specs.DataTextLaws.{IsRecordOfOctets};

use crate::rdata::SvcbRdata;
use crate::rebuild::read_record;
use svcb_params::RawIter;
pub use svcb_spec::laws::truncation;
use text_spec::laws::slice_of_octets;
use wire_base::ParseError;

/// A typed value that was accepted is what its type reads from the final map, as the getters of `SvcParams` and its
/// view do, whatever malformed values the parameters held. The function does nothing when it runs.
pub fn accepted_read()
    ensures { AcceptedRead }
{}

/// The parts of any data are made of octets, which is what the laws of `svcb_laws` on printed texts ask of it. The
/// function does nothing when it runs.
pub fn made_of_octets<V>(found: &SvcbRdata<V>)
    ensures { IsRecordOfOctets found.now }
{
    let _priority = found.priority();
    let _len = found.len();
    slice_of_octets(found.target().as_slice());
    slice_of_octets(found.params().as_slice());
}

/// All parameters of octets that are record data as a whole, by ascending keys: of data that was rebuilt each pair of
/// the final map once.
///
/// `ShortInput`: the data ends within a part of it. `Form`: it is no record data otherwise, as `SvcbRef::parse` says.
pub fn raw_pairs(octets: &[u8]) -> Result<RawIter<'_>, ParseError>
    ensures answer { Gives (λ pairs. pairs) result
        (record_pairs (read octets.now 0 (length octets.now))) }
    ensures rebuilt { (pairs : _) → AreRebuilt octets.now pairs → result ≡ Ok pairs }
{
    let found = read_record(octets, 0, octets.len())?;
    Ok(found.params().iter_raw())
}
