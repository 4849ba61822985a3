//! The equality, the orders and the hash of owned names, ASCII case ignored (RFC 4343).

ghost use Rattle.std.specs.Prelude.{◌≡◌, ◌≤◌, length, map, drop};
ghost use Rattle.std.specs.Char.{to_ascii_lowercase};
ghost use Rattle.std.specs.Ordering.{nat_cmp, ordering_then};
ghost use Rattle.std.specs.Cmp.Lexicographic.{slice_cmp};
ghost use Rattle.name_spec.specs.OwnedNames.{is_same_name, from_last, name_cmp, composed_cmp};

use crate::label_iter::LabelIter;
use crate::owned_name::Name;
use std::cmp::Ordering;
use std::hash::{Hash, Hasher};

/// Compares octets in lower case, a prefix of the other's octets first.
fn lowercase_cmp(octets: &[u8], others: &[u8]) -> Ordering
    ensures { result ≡ slice_cmp nat_cmp
        (map to_ascii_lowercase octets.now) (map to_ascii_lowercase others.now) }
{
    for (octet, other) in octets.iter().zip(others) {
        match octet.to_ascii_lowercase().cmp(&other.to_ascii_lowercase()) {
            Ordering::Equal => {}
            order => return order,
        }
    }
    octets.len().cmp(&others.len())
}

/// The count of labels.
fn label_count(name: &Name) -> usize
    ensures { result ≡ length name.now }
{
    name.labels().count()
}

/// Passes over the first so many labels.
fn skip_labels(labels: &mut LabelIter<'_>, count: usize)
    requires { count ≤ length labels.old }
    ensures { labels.new ≡ drop count labels.old }
{
    for _ in 0..count {
        labels.next();
    }
}

/// Compares as many labels of two names from the last to the first. Where none differ, the order is that of the counts.
#[tactic(auto, using(name_spec::proofs::NameOrders::pair_rules))]
fn cmp_from_last(
    labels: LabelIter<'_>,
    mut others: LabelIter<'_>,
    count_order: Ordering,
) -> Ordering
    requires { length labels ≡ length others }
    ensures { result ≡ ordering_then
        (slice_cmp (slice_cmp nat_cmp) (from_last labels.entry) (from_last others.entry))
        count_order }
{
    let mut order = count_order;
    for (label, other) in labels.zip(others) {
        // A label that stands behind others tells before they do.
        order = lowercase_cmp(label, other).then(order);
    }
    order
}

impl Name {
    /// Whether the labels are equal, ASCII case ignored (RFC 4343, section 3).
    pub fn name_eq(&self, other: &Name) -> bool
        ensures { result ≡ is_same_name self.now other.now }
    {
        self.as_slice().eq_ignore_ascii_case(other.as_slice())
    }

    /// Compares names in their canonical order (RFC 4034, section 6.1): label by label from the last, in lower case,
    /// and the name with fewer labels first.
    #[tactic(auto, using(name_spec::proofs::NameOrders::order_rules))]
    pub fn name_cmp(&self, other: &Name) -> Ordering
        ensures { result ≡ name_cmp self.now other.now }
    {
        let count = label_count(self);
        let other_count = label_count(other);
        let mut labels = self.labels();
        let mut others = other.labels();
        skip_labels(&mut labels, count.saturating_sub(other_count));
        skip_labels(&mut others, other_count.saturating_sub(count));
        cmp_from_last(labels, others, count.cmp(&other_count))
    }

    /// Compares the octets in lower case, as in canonical record data (RFC 4034, section 6.2).
    pub fn lowercase_composed_cmp(&self, other: &Name) -> Ordering
        ensures { result ≡ composed_cmp self.now other.now }
    {
        lowercase_cmp(self.as_slice(), other.as_slice())
    }
}

impl PartialEq for Name {
    ghost use Rattle.std.specs.Cmp.Rules.{comparing};
    ghost use Rattle.std.proofs.Common.{rules};
    ghost use Rattle.name_spec.specs.OwnedNames.{is_same_name};

    ghost eq = { is_same_name };

    ghost laws = { Prim.search (comparing, rules) depth 9 };

    fn eq(&self, other: &Name) -> bool {
        self.name_eq(other)
    }
}

impl Eq for Name {
    ghost use Rattle.std.specs.Cmp.Rules.{comparing};
    ghost use Rattle.std.proofs.Common.{rules};

    ghost laws = { Prim.search (comparing, rules) depth 9 };
}

impl Ord for Name {
    ghost use Rattle.std.specs.Cmp.Rules.{comparing};
    ghost use Rattle.std.proofs.Common.{rules};
    ghost use Rattle.name_spec.specs.OwnedNames.{name_cmp};
    ghost use Rattle.name_spec.specs.NameOrderLaws.{same_name_ties};

    ghost cmp = { name_cmp };

    ghost total = { Prim.search (comparing, rules) depth 9 };

    ghost matches_partial_cmp = { Prim.search (comparing, rules) };

    ghost matches_eq = { same_name_ties };

    fn cmp(&self, other: &Name) -> Ordering {
        self.name_cmp(other)
    }
}

impl PartialOrd for Name {
    ghost use Rattle.std.specs.Ordering.{as_partial_cmp};
    ghost use Rattle.std.specs.Cmp.{partial_order_from_own_ties};
    ghost use Rattle.std.specs.Cmp.Rules.{comparing};
    ghost use Rattle.std.proofs.Common.{rules};
    ghost use Rattle.name_spec.specs.OwnedNames.{name_cmp};
    ghost use Rattle.name_spec.specs.NameOrderLaws.{same_name_ties};

    ghost partial_cmp = { as_partial_cmp name_cmp };

    ghost laws = { partial_order_from_own_ties
        (Prim.search (comparing, rules) depth 9) same_name_ties };

    fn partial_cmp(&self, other: &Name) -> Option<Ordering> {
        Some(self.cmp(other))
    }
}

/// The octets in lower case.
impl Hash for Name {
    ghost use Rattle.std.specs.List.{flat_map};
    ghost use Rattle.std.specs.Hash as fed;
    ghost use Rattle.name_spec.specs.OwnedNames.{lowered_wire};
    ghost use Rattle.name_spec.specs.NameOrderLaws.{fed-same};

    ghost hash_input = { λ labels. flat_map fed.u8 (lowered_wire labels) };

    ghost respects_eq = { fed-same (flat_map fed.u8) };

    fn hash<H: Hasher>(&self, state: &mut H) {
        for octet in self.as_slice() {
            octet.to_ascii_lowercase().hash(state);
        }
    }
}
