//! Octets as numbers.

ghost use Rattle.std.specs.Prelude.{◌≡◌, ◌≤◌, length, take, drop};
ghost use Rattle.name_spec.specs.AddressLaws.{AreOctets};
ghost use Rattle.record_spec.specs.Wire.{number_of_octets};

/// The first octet as a number, and the octets behind it.
pub(crate) fn split_u8(octets: &[u8]) -> (u8, &[u8])
    requires { 1 ≤ length octets.now }
    ensures number { result.0 ≡ number_of_octets (take 1 octets.now) }
    ensures rest { result.1.now ≡ drop 1 octets.now }
{
    (octets[0], &octets[1..])
}

/// The number in the first two octets, the high one first, and the octets behind them.
pub(crate) fn split_u16(octets: &[u8]) -> (u16, &[u8])
    requires { 2 ≤ length octets.now }
    ensures number { result.0 ≡ number_of_octets (take 2 octets.now) }
    ensures rest { result.1.now ≡ drop 2 octets.now }
{
    (u16::from_be_bytes([octets[0], octets[1]]), &octets[2..])
}

/// The number in the first four octets, the highest one first, and the octets behind them.
pub(crate) fn split_u32(octets: &[u8]) -> (u32, &[u8])
    requires { 4 ≤ length octets.now }
    ensures number { result.0 ≡ number_of_octets (take 4 octets.now) }
    ensures rest { result.1.now ≡ drop 4 octets.now }
{
    let number = u32::from_be_bytes([octets[0], octets[1], octets[2], octets[3]]);
    (number, &octets[4..])
}

/// The count of octets.
#[tactic(auto, using(text_spec::proofs::EncodingTexts::AreOctets_from))]
pub(crate) fn count_octets(octets: &[u8]) -> u16
    requires { length octets.now ≤ 65535 }
    ensures len { result ≡ length octets.now }
    ensures octets { AreOctets octets.now }
{
    octets.len() as u16
}
