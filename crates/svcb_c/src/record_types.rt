//! Record types whose data has names that are not read.

ghost use Rattle.std.specs.Prelude.{◌≡◌};
ghost use Rattle.svcb_c.specs.Records.{has_unread_names};

/// The types whose data has names that are compressed or compared in lower case (RFC 3597, section 4; RFC 4034, section
/// 6.2, without HINFO and NSEC by RFC 6840, section 5.1), and that have no fields here.
const TYPES_WITH_NAMES: [u16; 23] = [
    2, 3, 4, 5, 6, 7, 8, 9, 12, 14, 15, 17, 18, 21, 24, 26, 30, 33, 35, 36, 38, 39, 46,
];

/// Whether the data of a type has names that are not read.
pub(crate) fn has_unread_names(rtype: u16) -> bool
    ensures { result ≡ has_unread_names rtype }
{
    TYPES_WITH_NAMES.contains(&rtype)
}
