//! How octets that begin with a known prefix compare with others.

ghost use Rattle.digest_rdata.specs.Prefixes.{ComparesPrefix};

use std::cmp::Ordering;

/// The order of a prefix against octets, and the octets with which what stands behind the prefix is compared next. So
/// octets that are known in parts are compared part by part, without memory for the whole.
#[tactic(auto, using(crate::proofs::Prefixes::longer, crate::proofs::Prefixes::fitting))]
pub fn prefix_cmp<'a>(prefix: &[u8], octets: &'a [u8]) -> (Ordering, &'a [u8])
    ensures { ComparesPrefix prefix.now octets.now result.0 result.1.now }
{
    if octets.len() < prefix.len() {
        return (prefix.cmp(octets), &[]);
    }
    let (start, rest) = octets.split_at(prefix.len());
    (prefix.cmp(start), rest)
}
