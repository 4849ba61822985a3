//! Data of records of one type as data of records of any type.

use crate::all_data::AllRecordData;
use digest_rdata::{Cds, Sshfp, Tlsa, Zonemd};
use key_rdata::{Cdnskey, Ipseckey, Openpgpkey};
use svcb_rdata::{Https, Svcb};
use wire_records::{A, Aaaa, UnknownRecordData};

impl From<A> for AllRecordData {
    ghost use Rattle.std.specs.Prelude.{◌≡◌};
    ghost use Rattle.rdata_union.specs.declared.all_data.AllRecordData.TheVariants.{A};

    ghost from_gives = { λ found held. held ≡ A found };

    fn from(found: A) -> AllRecordData {
        AllRecordData::A(found)
    }
}

impl From<Aaaa> for AllRecordData {
    ghost use Rattle.std.specs.Prelude.{◌≡◌};
    ghost use Rattle.rdata_union.specs.declared.all_data.AllRecordData.TheVariants.{Aaaa};

    ghost from_gives = { λ found held. held ≡ Aaaa found };

    fn from(found: Aaaa) -> AllRecordData {
        AllRecordData::Aaaa(found)
    }
}

impl From<Sshfp> for AllRecordData {
    ghost use Rattle.std.specs.Prelude.{◌≡◌};
    ghost use Rattle.rdata_union.specs.declared.all_data.AllRecordData.TheVariants.{Sshfp};

    ghost from_gives = { λ found held. held ≡ Sshfp found };

    fn from(found: Sshfp) -> AllRecordData {
        AllRecordData::Sshfp(found)
    }
}

impl From<Ipseckey> for AllRecordData {
    ghost use Rattle.std.specs.Prelude.{◌≡◌};
    ghost use Rattle.rdata_union.specs.declared.all_data.AllRecordData.TheVariants.{Ipseckey};

    ghost from_gives = { λ found held. held ≡ Ipseckey found };

    fn from(found: Ipseckey) -> AllRecordData {
        AllRecordData::Ipseckey(found)
    }
}

impl From<Tlsa> for AllRecordData {
    ghost use Rattle.std.specs.Prelude.{◌≡◌};
    ghost use Rattle.rdata_union.specs.declared.all_data.AllRecordData.TheVariants.{Tlsa};

    ghost from_gives = { λ found held. held ≡ Tlsa found };

    fn from(found: Tlsa) -> AllRecordData {
        AllRecordData::Tlsa(found)
    }
}

impl From<Cds> for AllRecordData {
    ghost use Rattle.std.specs.Prelude.{◌≡◌};
    ghost use Rattle.rdata_union.specs.declared.all_data.AllRecordData.TheVariants.{Cds};

    ghost from_gives = { λ found held. held ≡ Cds found };

    fn from(found: Cds) -> AllRecordData {
        AllRecordData::Cds(found)
    }
}

impl From<Cdnskey> for AllRecordData {
    ghost use Rattle.std.specs.Prelude.{◌≡◌};
    ghost use Rattle.rdata_union.specs.declared.all_data.AllRecordData.TheVariants.{Cdnskey};

    ghost from_gives = { λ found held. held ≡ Cdnskey found };

    fn from(found: Cdnskey) -> AllRecordData {
        AllRecordData::Cdnskey(found)
    }
}

impl From<Openpgpkey> for AllRecordData {
    ghost use Rattle.std.specs.Prelude.{◌≡◌};
    ghost use Rattle.rdata_union.specs.declared.all_data.AllRecordData.TheVariants.{Openpgpkey};

    ghost from_gives = { λ found held. held ≡ Openpgpkey found };

    fn from(found: Openpgpkey) -> AllRecordData {
        AllRecordData::Openpgpkey(found)
    }
}

impl From<Zonemd> for AllRecordData {
    ghost use Rattle.std.specs.Prelude.{◌≡◌};
    ghost use Rattle.rdata_union.specs.declared.all_data.AllRecordData.TheVariants.{Zonemd};

    ghost from_gives = { λ found held. held ≡ Zonemd found };

    fn from(found: Zonemd) -> AllRecordData {
        AllRecordData::Zonemd(found)
    }
}

impl From<Svcb> for AllRecordData {
    ghost use Rattle.std.specs.Prelude.{◌≡◌};
    ghost use Rattle.rdata_union.specs.declared.all_data.AllRecordData.TheVariants.{Svcb};

    ghost from_gives = { λ found held. held ≡ Svcb found };

    fn from(found: Svcb) -> AllRecordData {
        AllRecordData::Svcb(found)
    }
}

impl From<Https> for AllRecordData {
    ghost use Rattle.std.specs.Prelude.{◌≡◌};
    ghost use Rattle.rdata_union.specs.declared.all_data.AllRecordData.TheVariants.{Https};

    ghost from_gives = { λ found held. held ≡ Https found };

    fn from(found: Https) -> AllRecordData {
        AllRecordData::Https(found)
    }
}

impl From<UnknownRecordData> for AllRecordData {
    ghost use Rattle.std.specs.Prelude.{◌≡◌};
    ghost use Rattle.rdata_union.specs.declared.all_data.AllRecordData.TheVariants.{Unknown};

    ghost from_gives = { λ found held. held ≡ Unknown found };

    fn from(found: UnknownRecordData) -> AllRecordData {
        AllRecordData::Unknown(found)
    }
}
