//! How data of the records of a zone is compared.

use crate::zone_data::ZoneRecordData;
use std::cmp::Ordering;
use std::hash::{Hash, Hasher};

/// The number of the type, whether the data is held as octets under any type number, and what it holds.
impl PartialEq for ZoneRecordData {
    ghost use Rattle.std.specs.Ordering.{on};
    ghost use Rattle.std.specs.Cmp.{on_per, partial_equiv_from_equiv};
    ghost use Rattle.rdata_union.specs.Views.{data_of_zone};
    ghost use Rattle.rdata_union.specs.Comparing.{is_same_union, same_data_equivalence};

    ghost eq = { on data_of_zone is_same_union };

    ghost laws = { on_per data_of_zone (partial_equiv_from_equiv same_data_equivalence) };

    fn eq(&self, other: &ZoneRecordData) -> bool {
        self.for_ref().is_same(other.for_ref())
    }
}

impl Eq for ZoneRecordData {
    ghost use Rattle.std.specs.Cmp.{on_equiv};
    ghost use Rattle.rdata_union.specs.Views.{data_of_zone};
    ghost use Rattle.rdata_union.specs.Comparing.{same_data_equivalence};

    ghost laws = { on_equiv data_of_zone same_data_equivalence };
}

/// By the number of the type, then data by its fields before octets, then as the type of what it holds is ordered.
impl Ord for ZoneRecordData {
    ghost use Rattle.std.specs.Prelude.{refl};
    ghost use Rattle.std.specs.Ordering.{on};
    ghost use Rattle.std.specs.Cmp.{on_total};
    ghost use Rattle.rdata_union.specs.Views.{data_of_zone};
    ghost use Rattle.rdata_union.specs.Comparing.{union_cmp, union_total, same_union_ties};

    ghost cmp = { on data_of_zone union_cmp };

    ghost total = { on_total data_of_zone union_total };

    ghost matches_partial_cmp = { λ x y. refl };

    ghost matches_eq = { λ x y. same_union_ties (data_of_zone x) (data_of_zone y) };

    fn cmp(&self, other: &ZoneRecordData) -> Ordering {
        self.for_ref().compare(other.for_ref())
    }
}

impl PartialOrd for ZoneRecordData {
    ghost use Rattle.std.specs.Ordering.{on, as_partial_cmp};
    ghost use Rattle.std.specs.Cmp.{po, on_total};
    ghost use Rattle.rdata_union.specs.Views.{data_of_zone};
    ghost use Rattle.rdata_union.specs.Comparing.{union_cmp, union_total, same_union_ties};

    ghost partial_cmp = { as_partial_cmp (on data_of_zone union_cmp) };

    ghost laws = { po (on_total data_of_zone union_total)
        (λ x y. same_union_ties (data_of_zone x) (data_of_zone y)) };

    fn partial_cmp(&self, other: &ZoneRecordData) -> Option<Ordering> {
        Some(self.cmp(other))
    }
}

/// The number of the type, and what the data holds.
impl Hash for ZoneRecordData {
    ghost use Rattle.rdata_union.specs.Views.{data_of_zone};
    ghost use Rattle.rdata_union.specs.Comparing.{union_hash_input, same_union_hash_input};

    ghost hash_input = { λ found. union_hash_input (data_of_zone found) };

    ghost respects_eq = { λ x y. same_union_hash_input (data_of_zone x) (data_of_zone y) };

    fn hash<H: Hasher>(&self, state: &mut H) {
        self.for_ref().feed(state)
    }
}
