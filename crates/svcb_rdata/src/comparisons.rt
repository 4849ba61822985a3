//! How record data is compared.

use crate::rdata::SvcbRdata;
use std::cmp::Ordering;
use std::hash::{Hash, Hasher};

/// Priority, target with ASCII case ignored, and parameters by their octets.
impl<V> PartialEq for SvcbRdata<V> {
    ghost use Rattle.std.specs.Cmp.Rules.{comparing};
    ghost use Rattle.std.proofs.Common.{rules};
    ghost use Rattle.svcb_rdata.specs.Comparing.{is_same_svcb};

    ghost eq = { is_same_svcb };

    ghost laws = { Prim.search (comparing, rules) depth 16 };

    fn eq(&self, other: &SvcbRdata<V>) -> bool {
        self.priority() == other.priority()
            && self.target() == other.target()
            && self.params() == other.params()
    }
}

impl<V> Eq for SvcbRdata<V> {
    ghost use Rattle.std.specs.Cmp.Rules.{comparing};
    ghost use Rattle.std.proofs.Common.{rules};

    ghost laws = { Prim.search (comparing, rules) depth 16 };
}

/// By priority, then the target in the order of names, then the parameters' octets.
impl<V> Ord for SvcbRdata<V> {
    ghost use Rattle.std.specs.Cmp.Rules.{comparing};
    ghost use Rattle.std.proofs.Common.{rules};
    ghost use Rattle.svcb_rdata.specs.Comparing.{svcb_cmp, same_svcb_ties};

    ghost cmp = { svcb_cmp };

    ghost total = { Prim.search (comparing, rules) depth 16 };

    ghost matches_partial_cmp = { Prim.search (comparing, rules) };

    ghost matches_eq = { same_svcb_ties };

    fn cmp(&self, other: &SvcbRdata<V>) -> Ordering {
        self.priority()
            .cmp(&other.priority())
            .then(self.target().cmp(other.target()))
            .then(self.params().cmp(other.params()))
    }
}

impl<V> PartialOrd for SvcbRdata<V> {
    ghost use Rattle.std.specs.Ordering.{as_partial_cmp};
    ghost use Rattle.std.specs.Cmp.{partial_order_from_own_ties};
    ghost use Rattle.std.specs.Cmp.Rules.{comparing};
    ghost use Rattle.std.proofs.Common.{rules};
    ghost use Rattle.svcb_rdata.specs.Comparing.{svcb_cmp, same_svcb_ties};

    ghost partial_cmp = { as_partial_cmp svcb_cmp };

    ghost laws = { partial_order_from_own_ties
        (Prim.search (comparing, rules) depth 16) same_svcb_ties };

    fn partial_cmp(&self, other: &SvcbRdata<V>) -> Option<Ordering> {
        Some(self.cmp(other))
    }
}

/// The priority, the target's octets in lower case, and the parameters' octets.
impl<V> Hash for SvcbRdata<V> {
    ghost use Rattle.svcb_rdata.specs.Comparing.{svcb_hash_input, same_svcb_hash_input};

    ghost hash_input = { svcb_hash_input };

    ghost respects_eq = { same_svcb_hash_input };

    fn hash<H: Hasher>(&self, state: &mut H) {
        self.priority().hash(state);
        self.target().hash(state);
        self.params().hash(state);
    }
}
