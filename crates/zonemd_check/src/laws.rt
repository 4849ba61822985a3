//! Laws of what is digested of a zone, each proved for all arguments. The functions do nothing when they run.

ghost use Rattle.zonemd_check.specs.Laws.{RepeatsLeftOut, FirstStands, OwnersInAnyCase, EqualsInAnyOrder};

/// A zone and the zone without its repeats are digested alike.
pub fn repeats_left_out()
    ensures { RepeatsLeftOut }
{}

/// A record with the owner, type and data of the one before it is of no account, whatever its class and TTL: of such
/// records the first is digested. So records that differ in class or TTL alone are to be in the order of the zone.
pub fn first_stands()
    ensures { FirstStands }
{}

/// The case of owners is of no account.
pub fn owners_in_any_case()
    ensures { OwnersInAnyCase }
{}

/// Two neighbours with one owner but for its case, class, TTL, type and data may change places.
pub fn equals_in_any_order()
    ensures { EqualsInAnyOrder }
{}
