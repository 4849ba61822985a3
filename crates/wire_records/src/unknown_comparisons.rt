//! How record data of any type is compared.

use crate::unknown::UnknownRecordData;
use std::cmp::Ordering;
use std::hash::{Hash, Hasher};
use wire_base::RecordData;

/// The number of the type, and the octets.
impl PartialEq for UnknownRecordData {
    ghost use Rattle.std.specs.Cmp.Rules.{comparing};
    ghost use Rattle.std.proofs.Common.{rules};
    ghost use Rattle.wire_records.specs.UnknownComparing.{is_same_unknown};

    ghost eq = { is_same_unknown };

    ghost laws = { Prim.search (comparing, rules) };

    fn eq(&self, other: &UnknownRecordData) -> bool {
        self.rtype() == other.rtype() && self.octets() == other.octets()
    }
}

impl Eq for UnknownRecordData {
    ghost use Rattle.std.specs.Cmp.Rules.{comparing};
    ghost use Rattle.std.proofs.Common.{rules};

    ghost laws = { Prim.search (comparing, rules) };
}

/// By the number of the type, then octet by octet, and a prefix of the other's octets first.
impl Ord for UnknownRecordData {
    ghost use Rattle.std.specs.Cmp.Rules.{comparing};
    ghost use Rattle.std.proofs.Common.{rules};
    ghost use Rattle.wire_records.specs.UnknownComparing.{unknown_cmp};

    ghost cmp = { unknown_cmp };

    ghost total = { Prim.search (comparing, rules) };

    ghost matches_partial_cmp = { Prim.search (comparing, rules) };

    ghost matches_eq = { Prim.search (comparing, rules) };

    fn cmp(&self, other: &UnknownRecordData) -> Ordering {
        self.rtype()
            .cmp(&other.rtype())
            .then(self.octets().cmp(other.octets()))
    }
}

impl PartialOrd for UnknownRecordData {
    ghost use Rattle.std.specs.Ordering.{as_partial_cmp};
    ghost use Rattle.std.specs.Cmp.{partial_order_from_own_ties};
    ghost use Rattle.std.specs.Cmp.Rules.{comparing};
    ghost use Rattle.std.proofs.Common.{rules};
    ghost use Rattle.wire_records.specs.UnknownComparing.{unknown_cmp};

    ghost partial_cmp = { as_partial_cmp unknown_cmp };

    ghost laws = { partial_order_from_own_ties
        (Prim.search (comparing, rules)) (Prim.search (comparing, rules)) };

    fn partial_cmp(&self, other: &UnknownRecordData) -> Option<Ordering> {
        Some(self.cmp(other))
    }
}

/// Equal data feeds equal hashes.
impl Hash for UnknownRecordData {
    ghost use Rattle.std.specs.Cmp.Rules.{hashing};
    ghost use Rattle.std.proofs.Common.{rules};
    ghost use Rattle.wire_records.specs.UnknownComparing.{unknown_hash_input};

    ghost hash_input = { unknown_hash_input };

    ghost respects_eq = { Prim.search (hashing, rules) };

    fn hash<H: Hasher>(&self, state: &mut H) {
        self.rtype().hash(state);
        self.octets().hash(state);
    }
}
