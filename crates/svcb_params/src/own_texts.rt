//! Which values have a text that gives their octets back.

ghost use Rattle.std.specs.Prelude.{◌≡◌, ◌&&◌};
ghost use Rattle.std.specs.List.{list_all};
ghost use Rattle.svcb_spec.specs.ReadingValues.{numbers, protocols};
ghost use Rattle.svcb_spec.specs.PrintedParams as printed;
ghost use Rattle.svcb_spec.specs.PrintedParams.{holds_key, ascends_above, has_some};
ghost use Rattle.svcb_params.specs.ParamsView.{seen_params};
ghost use Rattle.svcb_text.specs.AllValuesRef.{seen_view};

use crate::number_set::NumberSet;
use crate::params_ref::SvcParamsRef;
use crate::raw_iter::RawIter;
use svcb_list::{AlpnIter, MandatoryIter, TlsSupportedGroupsIter};
use svcb_text::AllValuesRef;

/// Whether the text of a value gives its octets back, among all pairs.
#[tactic(auto, using(crate::proofs::OwnTexts::own_text_rules))]
pub(crate) fn has_own_text(all: SvcParamsRef<'_>, value: &AllValuesRef<'_>) -> bool
    ensures { result ≡ printed.has_own_text (seen_params all.entry) (seen_view value.now) }
{
    match value {
        AllValuesRef::Mandatory(view) => {
            !view.slice.is_empty() && are_there(view.iter(), all.iter_raw())
        }
        AllValuesRef::Alpn(view) => !view.slice.is_empty() && are_named(view.iter()),
        AllValuesRef::NoDefaultAlpn(_) | AllValuesRef::Port(_) | AllValuesRef::Ohttp(_) => true,
        AllValuesRef::Ipv4Hint(view) => !view.slice.is_empty(),
        AllValuesRef::Ipv6Hint(view) => !view.slice.is_empty(),
        AllValuesRef::Ech(view) => !view.slice.is_empty(),
        AllValuesRef::DohPath(view) => are_plain(view.slice),
        AllValuesRef::TlsSupportedGroups(view) => are_distinct(view.iter()),
        AllValuesRef::Unknown(_) => false,
    }
}

// Whether keys ascend strictly from above 0, and pairs have each of them. The pairs ascend too, so one walk over both
// tells.
#[tactic(auto, using(crate::proofs::HeldKeys::there_rules))]
fn are_there(keys: MandatoryIter<'_>, mut pairs: RawIter<'_>) -> bool
    ensures { result ≡ (ascends_above 0 (numbers keys.entry)
        && list_all (holds_key pairs.entry) (numbers keys.entry)) }
{
    let mut least = 0;
    for key in keys {
        let key = u16::from(key);
        if key <= least || !pairs.pass_to(key) {
            return false;
        }
        least = key;
    }
    true
}

// Whether an octet stands for itself in a token.
fn is_plain(octet: u8) -> bool
    ensures { result ≡ printed.is_plain octet }
{
    octet.is_ascii_graphic() && !matches!(octet, b'"' | b'\\' | b';' | b'(' | b')')
}

// Whether each octet stands for itself in a token.
fn are_plain(octets: &[u8]) -> bool
    ensures { result ≡ list_all printed.is_plain octets.now }
{
    for octet in octets {
        if !is_plain(*octet) {
            return false;
        }
    }
    true
}

// Whether each protocol has octets.
fn are_named(names: AlpnIter<'_>) -> bool
    ensures { result ≡ list_all has_some (protocols names.entry) }
{
    for name in names {
        if name.is_empty() {
            return false;
        }
    }
    true
}

// Whether groups are distinct.
#[tactic(auto, using(crate::proofs::Distinct::distinct_rules))]
fn are_distinct(groups: TlsSupportedGroupsIter<'_>) -> bool
    ensures { result ≡ printed.are_distinct (numbers groups.entry) }
{
    let mut met = NumberSet::new();
    for group in groups {
        if !met.insert(group) {
            return false;
        }
    }
    true
}
