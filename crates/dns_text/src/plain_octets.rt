//! The octets that stand for themselves, in quotes and outside.

ghost use Rattle.std.specs.Prelude.{◌≡◌, ◌<◌, ◌==◌, ℕ, slice_index, not};
ghost use Rattle.std.specs.List.{prefix_len};
ghost use Rattle.text_spec.specs.Pieces.{is_bare, is_quotable};
ghost use Rattle.dns_text.specs.PlainOctets.{place_of};

// What the table has for an octet that never stands for itself, for one that does in quotes alone, and for one that does
// anywhere.
const NOWHERE: u8 = 0;

const ANYWHERE: u8 = 2;

// Where each octet stands for itself: a search for the end of a row of them looks each up.
const PLACES: &[u8; 256] = &[
    0, 0, 0, 0, 0, 0, 0, 0, 0, 1, 0, 0, 0, 0, 0, 0, 0, 0, 0, 0, 0, 0, 0, 0, 0, 0, 0, 0, 0, 0, 0, 0,
    1, 2, 0, 2, 2, 2, 2, 2, 1, 1, 2, 2, 2, 2, 2, 2, 2, 2, 2, 2, 2, 2, 2, 2, 2, 2, 2, 1, 2, 2, 2, 2,
    2, 2, 2, 2, 2, 2, 2, 2, 2, 2, 2, 2, 2, 2, 2, 2, 2, 2, 2, 2, 2, 2, 2, 2, 2, 2, 2, 2, 0, 2, 2, 2,
    2, 2, 2, 2, 2, 2, 2, 2, 2, 2, 2, 2, 2, 2, 2, 2, 2, 2, 2, 2, 2, 2, 2, 2, 2, 2, 2, 2, 2, 2, 2, 0,
    2, 2, 2, 2, 2, 2, 2, 2, 2, 2, 2, 2, 2, 2, 2, 2, 2, 2, 2, 2, 2, 2, 2, 2, 2, 2, 2, 2, 2, 2, 2, 2,
    2, 2, 2, 2, 2, 2, 2, 2, 2, 2, 2, 2, 2, 2, 2, 2, 2, 2, 2, 2, 2, 2, 2, 2, 2, 2, 2, 2, 2, 2, 2, 2,
    2, 2, 2, 2, 2, 2, 2, 2, 2, 2, 2, 2, 2, 2, 2, 2, 2, 2, 2, 2, 2, 2, 2, 2, 2, 2, 2, 2, 2, 2, 2, 2,
    2, 2, 2, 2, 2, 2, 2, 2, 2, 2, 2, 2, 2, 2, 2, 2, 2, 2, 2, 2, 2, 2, 2, 2, 2, 2, 2, 2, 2, 2, 2, 2,
];

// The table.
fn places() -> &'static [u8; 256]
    ensures { (c : ℕ) → c < 256 → slice_index result.now c ≡ place_of c }
{
    PLACES
}

// Whether an octet stands for itself outside quotes.
#[inline(always)]
#[tactic(auto, using(crate::proofs::PlainOctets::bare_place))]
pub(crate) fn is_bare(octet: u8) -> bool
    ensures { result ≡ is_bare octet }
{
    places()[usize::from(octet)] == ANYWHERE
}

// Whether an octet stands for itself in quotes.
#[inline(always)]
#[tactic(auto, using(crate::proofs::PlainOctets::quotable_place))]
fn is_quotable(octet: u8) -> bool
    ensures { result ≡ is_quotable octet }
{
    places()[usize::from(octet)] != NOWHERE
}

// How many octets stand for themselves outside quotes, before one that doesn't.
pub(crate) fn bare_len(text: &[u8]) -> usize
    ensures { result ≡ prefix_len is_bare text.now }
{
    text.iter().take_while(|octet| is_bare(**octet)).count()
}

// How many octets stand for themselves in quotes, before one that doesn't.
pub(crate) fn quotable_len(text: &[u8]) -> usize
    ensures { result ≡ prefix_len is_quotable text.now }
{
    text.iter().take_while(|octet| is_quotable(**octet)).count()
}
