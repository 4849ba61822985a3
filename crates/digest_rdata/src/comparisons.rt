//! How record data is compared.

use crate::association_data::AssociationData;
use crate::association_fields::AssociationFields;
use std::cmp::Ordering;
use std::hash::{Hash, Hasher};

/// All fields.
impl<F: AssociationFields> PartialEq for AssociationData<F> {
    ghost use Rattle.std.specs.Cmp.Rules.{comparing};
    ghost use Rattle.std.proofs.Common.{rules};
    ghost use Rattle.std.specs.Ordering.{on};
    ghost use Rattle.record_spec.specs.Comparing.{is_same_fields};
    ghost use Rattle.digest_rdata.specs.FieldsView.{data_of};

    ghost eq = { on (data_of F.numbers) is_same_fields };

    ghost laws = { Prim.search (comparing, rules) depth 16 };

    fn eq(&self, other: &AssociationData<F>) -> bool {
        self.fields() == other.fields() && self.last() == other.last()
    }
}

impl<F: AssociationFields> Eq for AssociationData<F> {
    ghost use Rattle.std.specs.Cmp.Rules.{comparing};
    ghost use Rattle.std.proofs.Common.{rules};

    ghost laws = { Prim.search (comparing, rules) depth 16 };
}

/// By the fixed fields in wire order, then the last field, octet by octet.
impl<F: AssociationFields> Ord for AssociationData<F> {
    ghost use Rattle.std.specs.Cmp.Rules.{comparing};
    ghost use Rattle.std.proofs.Common.{rules};
    ghost use Rattle.std.specs.Ordering.{on};
    ghost use Rattle.record_spec.specs.Comparing.{fields_cmp, same_fields_ties};
    ghost use Rattle.digest_rdata.specs.FieldsView.{data_of};

    ghost cmp = { on (data_of F.numbers) fields_cmp };

    ghost total = { Prim.search (comparing, rules) depth 16 };

    ghost matches_partial_cmp = { Prim.search (comparing, rules) };

    ghost matches_eq = { λ a b. same_fields_ties (data_of F.numbers a) (data_of F.numbers b) };

    fn cmp(&self, other: &AssociationData<F>) -> Ordering {
        let by_fields = self.fields().cmp(other.fields());
        by_fields.then(self.last().cmp(other.last()))
    }
}

impl<F: AssociationFields> PartialOrd for AssociationData<F> {
    ghost use Rattle.std.specs.Ordering.{on, as_partial_cmp};
    ghost use Rattle.std.specs.Cmp.{partial_order_from_own_ties};
    ghost use Rattle.std.specs.Cmp.Rules.{comparing};
    ghost use Rattle.std.proofs.Common.{rules};
    ghost use Rattle.record_spec.specs.Comparing.{fields_cmp, same_fields_ties};
    ghost use Rattle.digest_rdata.specs.FieldsView.{data_of};

    ghost partial_cmp = { as_partial_cmp (on (data_of F.numbers) fields_cmp) };

    ghost laws = { partial_order_from_own_ties (Prim.search (comparing, rules) depth 16)
        (λ a b. same_fields_ties (data_of F.numbers a) (data_of F.numbers b)) };

    fn partial_cmp(&self, other: &AssociationData<F>) -> Option<Ordering> {
        Some(self.cmp(other))
    }
}

/// The fixed fields as numbers, and the last field.
impl<F: AssociationFields> Hash for AssociationData<F> {
    ghost use Rattle.record_spec.specs.Comparing.{fields_hash_input, same_fields_hash_input};
    ghost use Rattle.digest_rdata.specs.FieldsView.{data_of};

    ghost hash_input = { λ found. fields_hash_input F.definition (data_of F.numbers found) };

    ghost respects_eq = { λ a b. same_fields_hash_input F.definition
        (data_of F.numbers a) (data_of F.numbers b) };

    fn hash<H: Hasher>(&self, state: &mut H) {
        self.fields().hash(state);
        self.last().hash(state);
    }
}
