//! Lists of items as text (RFC 9460, appendix A.1).

ghost use Rattle.std.specs.Prelude.{◌≡◌, ℕ, Some, not};
ghost use Rattle.std.specs.List.{prefix_len};
ghost use Rattle.std.specs.Fmt.{WritesOnOk};
ghost use Rattle.name_spec.specs.Printed.{printed_octets};
ghost use Rattle.svcb_spec.specs.ListTexts.{escaped_item, is_escaped_in_item};
ghost use Rattle.svcb_spec.specs.PrintedValues.{value_printed};

use crate::item_list::ItemListRef;
use crate::list_type::ListItems;
use std::fmt;
use wire_base::PrintedOctets;

/// The key, `=`, and the items with commas between them, as `alpn=h2,h3`. A list without items is printed as nothing.
impl<'a, T: ListItems<'a>> fmt::Display for ItemListRef<'a, T> {
    ghost output = { λ view. Some (value_printed (T.value view.slice.now)) };

    fn fmt<W: fmt::Write>(&self, f: &mut fmt::Formatter<W>) -> fmt::Result {
        let mut items = self.iter();
        let Some(first) = items.next() else {
            return Ok(());
        };
        write!(f, "{}=", T::key())?;
        T::write_item(first, f)?;
        for item in items {
            write!(f, ",")?;
            T::write_item(item, f)?;
        }
        Ok(())
    }
}

/// Writes an item that is octets, as [`PrintedOctets`] prints them. A comma or a backslash of the item stands behind a
/// backslash, which is itself printed as two.
pub(crate) fn write_escaped<W: fmt::Write>(item: &[u8], f: &mut fmt::Formatter<W>) -> fmt::Result
    ensures { WritesOnOk W.Write.write_str_gives f.old result
        (printed_octets (escaped_item item.now)) f.new }
{
    let mut rest = item;
    loop {
        let (plain, behind) = rest.split_at(plain_len(rest));
        write!(f, "{}", PrintedOctets::new(plain))?;
        let Some((first, behind)) = behind.split_first() else {
            return Ok(());
        };
        write!(f, "{}", PrintedOctets::new(&[b'\\', *first]))?;
        rest = behind;
    }
}

/// How many octets stand before a comma or a backslash.
fn plain_len(item: &[u8]) -> usize
    ensures { result ≡ prefix_len (λ c. not (is_escaped_in_item c)) item.now }
{
    item.iter()
        .take_while(|octet| **octet != b',' && **octet != b'\\')
        .count()
}
