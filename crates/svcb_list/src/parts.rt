//! Octets that are parts of one length.

ghost use Rattle.std.specs.Prelude.{◌≡◌, ◌<◌, ◌∷◌, ◌%◌, ◌==◌, true, is_none, length, OnOk};
ghost use Rattle.wire_base.specs.Faults.{Gives};
ghost use Rattle.svcb_spec.specs.Values.{Value};
ghost use Rattle.svcb_spec.specs.ReadingValues.{numbers, parts, parts_fault, taking_all, take_all};

use registry::LongSvcParam;
use wire_base::{Address, ParseError};

/// Tests octets that are to be parts of `len` octets each.
///
/// `Form`: they are more than 65,535, or the last part is too short.
pub(crate) fn check_parts(octets: &[u8], len: usize) -> Result<(), ParseError>
    requires { 0 < len }
    ensures answer { (value : Value) → Gives (λ _. taking_all octets.now value) result
        (take_all (parts_fault len octets.now) value octets.now) }
    ensures sound { OnOk result (is_none (parts_fault len octets.now) ≡ true) }
    ensures whole { OnOk result ((length octets.now % len == 0) ≡ true) }
    ensures fits { OnOk result (length octets.now < 65536) }
{
    LongSvcParam::check_len(octets.len())?;
    if octets.len() % len != 0 {
        return Err(ParseError::Form);
    }
    Ok(())
}

/// The first of parts of `len` octets, and the others.
#[tactic(auto, using(crate::proofs::PartLemmas::first_rules))]
pub(crate) fn split_part(octets: &[u8], len: usize) -> (&[u8], &[u8])
    requires len { 0 < len }
    requires not_empty { 0 < length octets.now }
    requires whole { (length octets.now % len == 0) ≡ true }
    ensures parts { parts len octets.now ≡ result.0.now ∷ parts len result.1.now }
    ensures part { length result.0.now ≡ len }
    ensures whole { (length result.1.now % len == 0) ≡ true }
    ensures shorter { length result.1.now < length octets.now }
{
    octets.split_at(len)
}

/// The first of numbers of 16 bits, and the octets behind it.
pub(crate) fn split_number(octets: &[u8]) -> (u16, &[u8])
    requires not_empty { 0 < length octets.now }
    requires whole { (length octets.now % 2 == 0) ≡ true }
    ensures numbers { numbers octets.now ≡ result.0 ∷ numbers result.1.now }
    ensures whole { (length result.1.now % 2 == 0) ≡ true }
    ensures shorter { length result.1.now < length octets.now }
{
    let (part, others) = split_part(octets, 2);
    (u16::from_be_bytes([part[0], part[1]]), others)
}

/// The first of addresses of `N` octets each, and the octets behind it.
pub(crate) fn split_address<const N: usize>(octets: &[u8]) -> (Address<N>, &[u8])
    requires len { 0 < N }
    requires not_empty { 0 < length octets.now }
    requires whole { (length octets.now % N == 0) ≡ true }
    ensures addresses { parts N octets.now ≡ result.0 ∷ parts N result.1.now }
    ensures whole { (length result.1.now % N == 0) ≡ true }
    ensures shorter { length result.1.now < length octets.now }
{
    let (part, others) = split_part(octets, N);
    let mut address = [0; N];
    address.copy_from_slice(part);
    (Address::new(address), others)
}
