//! How data of records of any type is compared.

use crate::all_data::AllRecordData;
use std::cmp::Ordering;
use std::hash::{Hash, Hasher};

/// The number of the type, whether the data is held as octets under any type number, and what it holds.
impl PartialEq for AllRecordData {
    ghost use Rattle.std.specs.Ordering.{on};
    ghost use Rattle.std.specs.Cmp.{on_per, partial_equiv_from_equiv};
    ghost use Rattle.rdata_union.specs.Views.{data_of_all};
    ghost use Rattle.rdata_union.specs.Comparing.{is_same_union, same_data_equivalence};

    ghost eq = { on data_of_all is_same_union };

    ghost laws = { on_per data_of_all (partial_equiv_from_equiv same_data_equivalence) };

    fn eq(&self, other: &AllRecordData) -> bool {
        self.for_ref().is_same(other.for_ref())
    }
}

impl Eq for AllRecordData {
    ghost use Rattle.std.specs.Cmp.{on_equiv};
    ghost use Rattle.rdata_union.specs.Views.{data_of_all};
    ghost use Rattle.rdata_union.specs.Comparing.{same_data_equivalence};

    ghost laws = { on_equiv data_of_all same_data_equivalence };
}

/// By the number of the type, then data by its fields before octets, then as the type of what it holds is ordered.
impl Ord for AllRecordData {
    ghost use Rattle.std.specs.Prelude.{refl};
    ghost use Rattle.std.specs.Ordering.{on};
    ghost use Rattle.std.specs.Cmp.{on_total};
    ghost use Rattle.rdata_union.specs.Views.{data_of_all};
    ghost use Rattle.rdata_union.specs.Comparing.{union_cmp, union_total, same_union_ties};

    ghost cmp = { on data_of_all union_cmp };

    ghost total = { on_total data_of_all union_total };

    ghost matches_partial_cmp = { λ x y. refl };

    ghost matches_eq = { λ x y. same_union_ties (data_of_all x) (data_of_all y) };

    fn cmp(&self, other: &AllRecordData) -> Ordering {
        self.for_ref().compare(other.for_ref())
    }
}

impl PartialOrd for AllRecordData {
    ghost use Rattle.std.specs.Ordering.{on, as_partial_cmp};
    ghost use Rattle.std.specs.Cmp.{po, on_total};
    ghost use Rattle.rdata_union.specs.Views.{data_of_all};
    ghost use Rattle.rdata_union.specs.Comparing.{union_cmp, union_total, same_union_ties};

    ghost partial_cmp = { as_partial_cmp (on data_of_all union_cmp) };

    ghost laws = { po (on_total data_of_all union_total)
        (λ x y. same_union_ties (data_of_all x) (data_of_all y)) };

    fn partial_cmp(&self, other: &AllRecordData) -> Option<Ordering> {
        Some(self.cmp(other))
    }
}

/// The number of the type, and what the data holds.
impl Hash for AllRecordData {
    ghost use Rattle.rdata_union.specs.Views.{data_of_all};
    ghost use Rattle.rdata_union.specs.Comparing.{union_hash_input, same_union_hash_input};

    ghost hash_input = { λ found. union_hash_input (data_of_all found) };

    ghost respects_eq = { λ x y. same_union_hash_input (data_of_all x) (data_of_all y) };

    fn hash<H: Hasher>(&self, state: &mut H) {
        self.for_ref().feed(state)
    }
}
