//! Data of records of one type as data of the records of a zone.

use crate::zone_data::ZoneRecordData;
use digest_rdata::{Cds, Sshfp, Tlsa, Zonemd};
use key_rdata::{Cdnskey, Ipseckey, Openpgpkey};
use svcb_rdata::{Https, Svcb};
use wire_records::{A, Aaaa, UnknownRecordData};

impl From<A> for ZoneRecordData {
    ghost use Rattle.std.specs.Prelude.{◌≡◌};
    ghost use Rattle.rdata_union.specs.declared.zone_data.ZoneRecordData.TheVariants.{A};

    ghost from_gives = { λ found held. held ≡ A found };

    fn from(found: A) -> ZoneRecordData {
        ZoneRecordData::A(found)
    }
}

impl From<Aaaa> for ZoneRecordData {
    ghost use Rattle.std.specs.Prelude.{◌≡◌};
    ghost use Rattle.rdata_union.specs.declared.zone_data.ZoneRecordData.TheVariants.{Aaaa};

    ghost from_gives = { λ found held. held ≡ Aaaa found };

    fn from(found: Aaaa) -> ZoneRecordData {
        ZoneRecordData::Aaaa(found)
    }
}

impl From<Sshfp> for ZoneRecordData {
    ghost use Rattle.std.specs.Prelude.{◌≡◌};
    ghost use Rattle.rdata_union.specs.declared.zone_data.ZoneRecordData.TheVariants.{Sshfp};

    ghost from_gives = { λ found held. held ≡ Sshfp found };

    fn from(found: Sshfp) -> ZoneRecordData {
        ZoneRecordData::Sshfp(found)
    }
}

impl From<Ipseckey> for ZoneRecordData {
    ghost use Rattle.std.specs.Prelude.{◌≡◌};
    ghost use Rattle.rdata_union.specs.declared.zone_data.ZoneRecordData.TheVariants.{Ipseckey};

    ghost from_gives = { λ found held. held ≡ Ipseckey found };

    fn from(found: Ipseckey) -> ZoneRecordData {
        ZoneRecordData::Ipseckey(found)
    }
}

impl From<Tlsa> for ZoneRecordData {
    ghost use Rattle.std.specs.Prelude.{◌≡◌};
    ghost use Rattle.rdata_union.specs.declared.zone_data.ZoneRecordData.TheVariants.{Tlsa};

    ghost from_gives = { λ found held. held ≡ Tlsa found };

    fn from(found: Tlsa) -> ZoneRecordData {
        ZoneRecordData::Tlsa(found)
    }
}

impl From<Cds> for ZoneRecordData {
    ghost use Rattle.std.specs.Prelude.{◌≡◌};
    ghost use Rattle.rdata_union.specs.declared.zone_data.ZoneRecordData.TheVariants.{Cds};

    ghost from_gives = { λ found held. held ≡ Cds found };

    fn from(found: Cds) -> ZoneRecordData {
        ZoneRecordData::Cds(found)
    }
}

impl From<Cdnskey> for ZoneRecordData {
    ghost use Rattle.std.specs.Prelude.{◌≡◌};
    ghost use Rattle.rdata_union.specs.declared.zone_data.ZoneRecordData.TheVariants.{Cdnskey};

    ghost from_gives = { λ found held. held ≡ Cdnskey found };

    fn from(found: Cdnskey) -> ZoneRecordData {
        ZoneRecordData::Cdnskey(found)
    }
}

impl From<Openpgpkey> for ZoneRecordData {
    ghost use Rattle.std.specs.Prelude.{◌≡◌};
    ghost use Rattle.rdata_union.specs.declared.zone_data.ZoneRecordData.TheVariants.{Openpgpkey};

    ghost from_gives = { λ found held. held ≡ Openpgpkey found };

    fn from(found: Openpgpkey) -> ZoneRecordData {
        ZoneRecordData::Openpgpkey(found)
    }
}

impl From<Zonemd> for ZoneRecordData {
    ghost use Rattle.std.specs.Prelude.{◌≡◌};
    ghost use Rattle.rdata_union.specs.declared.zone_data.ZoneRecordData.TheVariants.{Zonemd};

    ghost from_gives = { λ found held. held ≡ Zonemd found };

    fn from(found: Zonemd) -> ZoneRecordData {
        ZoneRecordData::Zonemd(found)
    }
}

impl From<Svcb> for ZoneRecordData {
    ghost use Rattle.std.specs.Prelude.{◌≡◌};
    ghost use Rattle.rdata_union.specs.declared.zone_data.ZoneRecordData.TheVariants.{Svcb};

    ghost from_gives = { λ found held. held ≡ Svcb found };

    fn from(found: Svcb) -> ZoneRecordData {
        ZoneRecordData::Svcb(found)
    }
}

impl From<Https> for ZoneRecordData {
    ghost use Rattle.std.specs.Prelude.{◌≡◌};
    ghost use Rattle.rdata_union.specs.declared.zone_data.ZoneRecordData.TheVariants.{Https};

    ghost from_gives = { λ found held. held ≡ Https found };

    fn from(found: Https) -> ZoneRecordData {
        ZoneRecordData::Https(found)
    }
}

impl From<UnknownRecordData> for ZoneRecordData {
    ghost use Rattle.std.specs.Prelude.{◌≡◌};
    ghost use Rattle.rdata_union.specs.declared.zone_data.ZoneRecordData.TheVariants.{Unknown};

    ghost from_gives = { λ found held. held ≡ Unknown found };

    fn from(found: UnknownRecordData) -> ZoneRecordData {
        ZoneRecordData::Unknown(found)
    }
}
