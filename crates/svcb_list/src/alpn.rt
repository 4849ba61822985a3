//! The protocols that a server speaks (RFC 9460, section 7.1).

ghost use Rattle.std.specs.Prelude.{◌≡◌, ◌<◌, ◌∷◌, Some, true, ℕ, List, length, refl, OnOk, OnErr, IfOk};
ghost use Rattle.svcb_spec.specs.Values as values;
ghost use Rattle.svcb_list.specs.Holding.{protocols_hold};
ghost use Rattle.svcb_spec.specs.ReadingValues.{protocols, protocols_fault, are_whole};
ghost use Rattle.name_spec.specs.Printed.{printed_octets};
ghost use Rattle.svcb_spec.specs.ListTexts.{escaped_item};
ghost use Rattle.svcb_spec.specs.PrintedValues.{value_printed};

use crate::item_iter::ItemIter;
use crate::item_list::{ItemList, ItemListRef};
use crate::list_text::write_escaped;
use crate::list_type::{ListItems, ListType};
use registry::{LongSvcParam, SvcParamKey};
use std::fmt;
use wire_base::ParseError;

/// The type of `alpn` (RFC 9460, section 7.1), whose items are names of protocols of at most 255 octets. In the value's
/// octets each stands behind its length, which is one octet.
#[derive(Debug)]
pub struct AlpnType;

/// The value of `alpn`: the names of the protocols that a server speaks (ALPN, RFC 7301).
///
/// [`AlpnBuilder`](crate::AlpnBuilder) makes a value of names, and refuses an empty one. A value that is read may have
/// empty names.
///
/// ```
/// let alpn = Alpn::parse(alloc, &mut Parser::from_ref(b"\x02h2\x08http/1.1"))?;
/// let mut names = alpn.iter();
/// // names.next() is `h2`, then `http/1.1`; the value is printed as `alpn=h2,http/1.1`
/// ```
pub type Alpn = ItemList<AlpnType>;

/// A view of the value of `alpn`, which borrows the octets.
pub type AlpnRef<'a> = ItemListRef<'a, AlpnType>;

/// The names in order. Each is borrowed from the value's octets.
pub type AlpnIter<'a> = ItemIter<'a, AlpnType>;

/// The text of a view of the value.
impl fmt::Display for Alpn {
    ghost output = { λ list. Some (value_printed list) };

    fn fmt<W: fmt::Write>(&self, f: &mut fmt::Formatter<W>) -> fmt::Result {
        write!(f, "{}", self.for_ref())
    }
}

impl ListType for AlpnType {
    ghost key = { 1 };

    ghost value = { λ octets. values.Alpn (protocols octets) };

    ghost fault = { protocols_fault };

    ghost whole = { are_whole };

    ghost has_key = { λ octets. refl };

    ghost has_items = { λ octets small holds. protocols_hold octets small holds.whole };

    const NAME: &'static str = "Alpn";

    fn key() -> SvcParamKey {
        SvcParamKey::ALPN
    }

    #[tactic(auto, using(crate::proofs::ProtocolLemmas::protocols_encoded))]
    fn check(octets: &[u8]) -> Result<(), ParseError> {
        LongSvcParam::check_len(octets.len())?;
        if !are_protocols(octets) {
            return Err(ParseError::ShortInput);
        }
        Ok(())
    }
}

/// Whether octets are whole protocols, the last of which ends where the octets end.
#[tactic(auto, using(crate::proofs::ProtocolLemmas::whole_rules))]
fn are_protocols(octets: &[u8]) -> bool
    ensures { result ≡ are_whole octets.now }
{
    let mut rest = octets;
    while let Some((len, others)) = rest.split_first() {
        let len = usize::from(*len);
        if len > others.len() {
            return false;
        }
        let (_, behind) = others.split_at(len);
        rest = behind;
    }
    true
}

impl<'a> ListItems<'a> for AlpnType {
    type Item = &'a [u8];

    ghost Seen = { List ℕ };

    ghost seen = { λ protocol. protocol.now };

    ghost items = { protocols };

    ghost listed = { values.Alpn };

    ghost text = { λ protocol. printed_octets (escaped_item protocol) };

    ghost no_items = { refl };

    ghost lists = { λ octets. refl };

    ghost prints = { λ protocols. refl };

    #[tactic(auto, using(crate::proofs::ProtocolLemmas::first_rules))]
    fn split(octets: &'a [u8]) -> (&'a [u8], &'a [u8]) {
        let len = usize::from(octets[0]);
        let (_, others) = octets.split_at(1);
        others.split_at(len)
    }

    fn write_item<W: fmt::Write>(protocol: &'a [u8], f: &mut fmt::Formatter<W>) -> fmt::Result {
        write_escaped(protocol, f)
    }
}
