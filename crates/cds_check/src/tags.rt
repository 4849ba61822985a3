//! Key tags (RFC 4034, appendix B).

ghost use Rattle.std.specs.Prelude.{◌≡◌, ◌*◌, ◌≤◌, length, true};
ghost use Rattle.cds_check.specs.KeyTags.{octet_sum, key_tag};

use key_rdata::Cdnskey;
use wire_base::ComposeRecordData;

/// The sum of octets, each at an even place taken 256 times. Places count from 0.
fn octet_sum(octets: &[u8]) -> u32
    requires { length octets.now ≤ 65535 }
    ensures sum { result ≡ octet_sum true octets.now }
    ensures fits { result ≤ 65280 * length octets.now }
{
    let mut sum = 0;
    let mut is_even = true;
    for octet in octets {
        let value = u32::from(*octet);
        sum += if is_even { 256 * value } else { value };
        is_even = !is_even;
    }
    sum
}

/// The key tag of a key (RFC 4034, appendix B), by which a CDS names it. It is computed from the fields, and no memory
/// is taken.
///
/// Algorithm 1 has no rule of its own, as it has in the RFC: no CDS matches such a key.
#[tactic(auto, using(crate::proofs::Sums::tag_of_fields))]
pub fn key_tag(key: &Cdnskey) -> u16
    ensures { result ≡ key_tag key.now }
{
    // its length tells that the sum fits
    let _len = key.rdlen(false);
    let numbers = u32::from(key.protocol()) * 256 + u32::from(u8::from(key.algorithm()));
    let sum = u32::from(key.flags()) + numbers + octet_sum(key.public_key().as_slice());
    ((sum + sum / 65536) % 65536) as u16
}
