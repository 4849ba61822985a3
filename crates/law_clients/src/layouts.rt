//! Data that is laid out, in each layout, is scanned as that data, or allocation fails.

ghost use Rattle.std.specs.Prelude.{◌≡◌, IfOk, IfErr};
ghost use Rattle.hollywhist.specs.Views.{cds_of};

use crate::entries::scanner_of;
use hollywhist::base::scan::ScanError;
use hollywhist::base::zonefile_fmt::{DisplayKind, display_zonefile};
use hollywhist::laws::any_data::{fields_are_data, fields_scanned_back};
use hollywhist::laws::data_texts::data_layout_read_back;
use hollywhist::laws::svcb_data::made_of_octets;
use hollywhist::rdata::Cds;
use hollywhist::rdata::svcb::{SvcVariant, SvcbRdata};
use std::alloc::Global;

/// The data of a CDS record.
#[tactic(auto, using(text_spec::specs::ScanningLaws::answered, text_spec::specs::ScanningLaws::no_other_error))]
pub fn cds_read_back(alloc: Global, found: &Cds, kind: DisplayKind) -> Result<Cds, ScanError>
    ensures same { IfOk result (λ back. cds_of back ≡ cds_of found.now) }
    ensures only { IfErr result (λ fault. fault ≡ ScanError.NoMemory) }
{
    fields_are_data(found);
    fields_scanned_back(found);
    let text = display_zonefile(alloc, found, kind)?;
    Cds::scan(alloc, &mut scanner_of(text.as_slice()))
}

/// The data of an SVCB or HTTPS record.
#[tactic(auto, using(text_spec::specs::ScanningLaws::answered, text_spec::specs::ScanningLaws::no_other_error))]
pub fn svcb_read_back<V: SvcVariant>(
    alloc: Global,
    found: &SvcbRdata<V>,
    kind: DisplayKind,
) -> Result<SvcbRdata<V>, ScanError>
    ensures same { IfOk result (λ back. back ≡ found.now) }
    ensures only { IfErr result (λ fault. fault ≡ ScanError.NoMemory) }
{
    made_of_octets(found);
    data_layout_read_back();
    let text = display_zonefile(alloc, found, kind)?;
    SvcbRdata::scan(alloc, &mut scanner_of(text.as_slice()))
}
