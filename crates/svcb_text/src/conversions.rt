//! Values of one type as values of every type.

ghost use Rattle.std.specs.Prelude.{◌≡◌};

use crate::all_values::AllValues;
use svcb_list::{Alpn, Ipv4Hint, Ipv6Hint, Mandatory, TlsSupportedGroups};
use svcb_value::{DohPath, Ech, NoDefaultAlpn, Ohttp, Port, UnknownSvcParam};

impl From<Mandatory> for AllValues {
    ghost use Rattle.std.specs.Prelude.{◌≡◌};
    ghost use Rattle.svcb_text.specs.declared.all_values.AllValues.TheVariants.{Mandatory};

    ghost from_gives = { λ value all. all ≡ Mandatory value };

    fn from(value: Mandatory) -> AllValues {
        AllValues::Mandatory(value)
    }
}

impl From<Alpn> for AllValues {
    ghost use Rattle.std.specs.Prelude.{◌≡◌};
    ghost use Rattle.svcb_text.specs.declared.all_values.AllValues.TheVariants.{Alpn};

    ghost from_gives = { λ value all. all ≡ Alpn value };

    fn from(value: Alpn) -> AllValues {
        AllValues::Alpn(value)
    }
}

impl From<NoDefaultAlpn> for AllValues {
    ghost use Rattle.std.specs.Prelude.{◌≡◌};
    ghost use Rattle.svcb_text.specs.declared.all_values.AllValues.TheVariants.{NoDefaultAlpn};

    ghost from_gives = { λ value all. all ≡ NoDefaultAlpn value };

    fn from(value: NoDefaultAlpn) -> AllValues {
        AllValues::NoDefaultAlpn(value)
    }
}

impl From<Port> for AllValues {
    ghost use Rattle.std.specs.Prelude.{◌≡◌};
    ghost use Rattle.svcb_text.specs.declared.all_values.AllValues.TheVariants.{Port};

    ghost from_gives = { λ value all. all ≡ Port value };

    fn from(value: Port) -> AllValues {
        AllValues::Port(value)
    }
}

impl From<Ech> for AllValues {
    ghost use Rattle.std.specs.Prelude.{◌≡◌};
    ghost use Rattle.svcb_text.specs.declared.all_values.AllValues.TheVariants.{Ech};

    ghost from_gives = { λ value all. all ≡ Ech value };

    fn from(value: Ech) -> AllValues {
        AllValues::Ech(value)
    }
}

impl From<Ipv4Hint> for AllValues {
    ghost use Rattle.std.specs.Prelude.{◌≡◌};
    ghost use Rattle.svcb_text.specs.declared.all_values.AllValues.TheVariants.{Ipv4Hint};

    ghost from_gives = { λ value all. all ≡ Ipv4Hint value };

    fn from(value: Ipv4Hint) -> AllValues {
        AllValues::Ipv4Hint(value)
    }
}

impl From<Ipv6Hint> for AllValues {
    ghost use Rattle.std.specs.Prelude.{◌≡◌};
    ghost use Rattle.svcb_text.specs.declared.all_values.AllValues.TheVariants.{Ipv6Hint};

    ghost from_gives = { λ value all. all ≡ Ipv6Hint value };

    fn from(value: Ipv6Hint) -> AllValues {
        AllValues::Ipv6Hint(value)
    }
}

impl From<DohPath> for AllValues {
    ghost use Rattle.std.specs.Prelude.{◌≡◌};
    ghost use Rattle.svcb_text.specs.declared.all_values.AllValues.TheVariants.{DohPath};

    ghost from_gives = { λ value all. all ≡ DohPath value };

    fn from(value: DohPath) -> AllValues {
        AllValues::DohPath(value)
    }
}

impl From<Ohttp> for AllValues {
    ghost use Rattle.std.specs.Prelude.{◌≡◌};
    ghost use Rattle.svcb_text.specs.declared.all_values.AllValues.TheVariants.{Ohttp};

    ghost from_gives = { λ value all. all ≡ Ohttp value };

    fn from(value: Ohttp) -> AllValues {
        AllValues::Ohttp(value)
    }
}

impl From<TlsSupportedGroups> for AllValues {
    ghost use Rattle.std.specs.Prelude.{◌≡◌};
    ghost use Rattle.svcb_text.specs.declared.all_values.AllValues.TheVariants.{TlsSupportedGroups};

    ghost from_gives = { λ value all. all ≡ TlsSupportedGroups value };

    fn from(value: TlsSupportedGroups) -> AllValues {
        AllValues::TlsSupportedGroups(value)
    }
}

impl From<UnknownSvcParam> for AllValues {
    ghost use Rattle.std.specs.Prelude.{◌≡◌};
    ghost use Rattle.svcb_text.specs.declared.all_values.AllValues.TheVariants.{Unknown};

    ghost from_gives = { λ value all. all ≡ Unknown value };

    fn from(value: UnknownSvcParam) -> AllValues {
        AllValues::Unknown(value)
    }
}
