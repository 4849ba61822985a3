//! The order of data of numbers and a last field is the canonical order.

ghost use Rattle.std.specs.Prelude.{◌≡◌};

use hollywhist::base::cmp::CanonicalOrd;
use hollywhist::laws::any_data::cmp_is_canonical;
use hollywhist::rdata::Cds;
use std::cmp::Ordering;

/// The order of two CDS records' data by its fields, and the canonical order, which are the same.
pub fn cds_orders(found: &Cds, other: &Cds) -> (Ordering, Ordering)
    ensures { result.0 ≡ result.1 }
{
    cmp_is_canonical(found, other);
    (found.cmp(other), found.canonical_cmp(other))
}
