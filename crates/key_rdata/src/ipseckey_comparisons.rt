//! How the data of IPSECKEY records is compared.

use crate::ipseckey::Ipseckey;
use std::cmp::Ordering;
use std::hash::{Hash, Hasher};

/// All fields, the name of a gateway with ASCII case ignored.
impl PartialEq for Ipseckey {
    ghost use Rattle.record_spec.specs.IpseckeyComparing.{is_same_ipseckey};
    ghost use Rattle.record_spec.specs.IpseckeyOrders.{ipseckey_equivalence};
    ghost use Rattle.std.specs.Cmp.{partial_equiv_from_equiv};

    ghost eq = { is_same_ipseckey };

    ghost laws = { partial_equiv_from_equiv ipseckey_equivalence };

    fn eq(&self, other: &Ipseckey) -> bool {
        self.precedence() == other.precedence()
            && self.algorithm() == other.algorithm()
            && self.gateway() == other.gateway()
            && self.key() == other.key()
    }
}

impl Eq for Ipseckey {
    ghost use Rattle.record_spec.specs.IpseckeyOrders.{ipseckey_equivalence};

    ghost laws = { ipseckey_equivalence };
}

/// By precedence, the gateway's type, algorithm, then the gateway, its name in the order of names, then the key octet
/// by octet.
impl Ord for Ipseckey {
    ghost use Rattle.std.specs.Prelude.{refl};
    ghost use Rattle.record_spec.specs.IpseckeyComparing.{ipseckey_cmp, same_ipseckey_ties};
    ghost use Rattle.record_spec.specs.IpseckeyOrders.{ipseckey_total};

    ghost cmp = { ipseckey_cmp };

    ghost total = { ipseckey_total };

    ghost matches_partial_cmp = { λ x y. refl };

    ghost matches_eq = { same_ipseckey_ties };

    fn cmp(&self, other: &Ipseckey) -> Ordering {
        self.precedence()
            .cmp(&other.precedence())
            .then(self.gateway_type().cmp(&other.gateway_type()))
            .then(self.algorithm().cmp(&other.algorithm()))
            .then(self.gateway().type_first_cmp(other.gateway()))
            .then(self.key().cmp(other.key()))
    }
}

impl PartialOrd for Ipseckey {
    ghost use Rattle.std.specs.Ordering.{as_partial_cmp};
    ghost use Rattle.std.specs.Cmp.{po};
    ghost use Rattle.record_spec.specs.IpseckeyComparing.{ipseckey_cmp, same_ipseckey_ties};
    ghost use Rattle.record_spec.specs.IpseckeyOrders.{ipseckey_total};

    ghost partial_cmp = { as_partial_cmp ipseckey_cmp };

    ghost laws = { po ipseckey_total same_ipseckey_ties };

    fn partial_cmp(&self, other: &Ipseckey) -> Option<Ordering> {
        Some(self.cmp(other))
    }
}

/// All fields, the name of a gateway as its octets in lower case.
impl Hash for Ipseckey {
    ghost use Rattle.record_spec.specs.IpseckeyComparing.{ipseckey_hash_input, same_ipseckey_hash_input};

    ghost hash_input = { ipseckey_hash_input };

    ghost respects_eq = { same_ipseckey_hash_input };

    fn hash<H: Hasher>(&self, state: &mut H) {
        self.precedence().hash(state);
        self.algorithm().hash(state);
        self.gateway().hash(state);
        self.key().hash(state);
    }
}
