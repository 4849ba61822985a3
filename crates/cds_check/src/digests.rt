//! Digests of keys (RFC 4034, section 5.1.4).

ghost use Rattle.std.specs.Prelude.{◌≡◌, ℕ, List, ◌++◌};
ghost use Rattle.std.specs.Option.{option_map};
ghost use Rattle.name_spec.specs.OwnedNames.{lowered_wire};
ghost use Rattle.cds_check.specs.Matching.{digested, key_digest};
ghost use Rattle.cds_check.specs.Digests.{octets_of};

use key_rdata::Cdnskey;
use key_registry::DigestAlgorithm;
use sha2::{Digest, Sha256, Sha384};
use wire_base::Name;

/// The digest of a key.
#[derive(Drop)]
pub(crate) enum KeyDigest {
    Sha256([u8; 32]),
    Sha384([u8; 48]),
}

/// Feeds the octets of a name in lower case (RFC 4034, section 6.2) to a hash.
fn feed_name<D: Digest>(hasher: &mut D, name: &Name)
    ensures { (m : List ℕ)
        → D.holds hasher.old m → D.holds hasher.new (m ++ lowered_wire name.now) }
{
    for octet in name.as_slice() {
        hasher.update(&[octet.to_ascii_lowercase()]);
    }
}

/// The digest of a key under an owner. What is digested is fed in pieces, so no memory is taken.
fn digest_of<D: Digest>(owner: &Name, key: &Cdnskey) -> D::Output
    ensures { D.digest_of (digested owner.now key.now) result }
{
    let mut hasher = D::new();
    feed_name(&mut hasher, owner);
    let [high, low] = key.flags().to_be_bytes();
    hasher.update(&[high, low, key.protocol(), u8::from(key.algorithm())]);
    hasher.update(key.public_key().as_slice());
    hasher.finalize()
}

impl KeyDigest {
    /// The digest of a key under an owner; `None` for a digest type other than SHA-256 and SHA-384.
    #[tactic(auto, unfolding(crate::specs::Matching::key_digest))]
    pub(crate) fn new(
        owner: &Name,
        key: &Cdnskey,
        digest_type: DigestAlgorithm,
    ) -> Option<KeyDigest>
        ensures { option_map octets_of result ≡ key_digest owner.now key.now digest_type }
    {
        if digest_type == DigestAlgorithm::SHA256 {
            Some(KeyDigest::Sha256(digest_of::<Sha256>(owner, key)))
        } else if digest_type == DigestAlgorithm::SHA384 {
            Some(KeyDigest::Sha384(digest_of::<Sha384>(owner, key)))
        } else {
            None
        }
    }

    /// The octets.
    pub(crate) fn as_slice(&self) -> &[u8]
        ensures { result.now ≡ octets_of self.now }
    {
        match self {
            KeyDigest::Sha256(octets) => octets,
            KeyDigest::Sha384(octets) => octets,
        }
    }
}
