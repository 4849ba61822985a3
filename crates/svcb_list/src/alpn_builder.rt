//! Building a list of protocols.

ghost use Rattle.std.specs.Prelude.{◌≡◌, ◌+◌, ◌<◌, ◌≤◌, [], ◌∷◌, ◌++◌, length, IfOk, OnOk, OnErr};
ghost use Rattle.svcb_spec.specs.Values as values;
ghost use Rattle.svcb_spec.specs.Values.{protocols_wire};
ghost use Rattle.svcb_spec.specs.ReadingValues.{protocols};
ghost use Rattle.svcb_list.specs.Pushing.{AreProtocols, IsPushed};

use crate::alpn::Alpn;
use crate::errors::BuildAlpnError;
use crate::item_list::ItemList;
use registry::LongSvcParam;
use std::alloc::Global;
use std::marker::Model;
use wire_base::{NoMemory, Octets};

/// Builds the value of `alpn` of the names of protocols, one after another.
///
/// A name is copied behind its length into the builder's octets, so `freeze` copies nothing. After a push that is
/// refused the builder is as before. Contracts see the names.
///
/// ```
/// let mut builder = AlpnBuilder::empty(alloc);
/// builder.push(b"h2")?;
/// builder.push(b"http/1.1")?;
/// let alpn = builder.freeze(); // printed as `alpn=h2,http/1.1`
/// ```
#[derive(Debug, Drop)]
pub struct AlpnBuilder {
    octets: Vec<u8>,
}

impl Model for AlpnBuilder {
    ghost use Rattle.std.specs.Prelude.{List, ℕ};
    ghost use Rattle.svcb_spec.specs.ReadingValues.{protocols};
    ghost use Rattle.svcb_list.specs.Pushing.{AreProtocols};

    ghost Value = { List (List ℕ) };

    ghost view = { λ builder. protocols builder.octets.items };

    ghost invariant = { λ builder. AreProtocols builder.octets.items };
}

impl AlpnBuilder {
    /// The most octets of the name of a protocol (RFC 7301, section 3.1).
    pub const MAX_PROTOCOL_LEN: usize = 255;

    /// No protocols. Takes no memory.
    pub fn empty(alloc: Global) -> AlpnBuilder
        ensures { result ≡ [] }
    {
        AlpnBuilder {
            octets: Vec::new(alloc),
        }
    }

    /// Adds the name of a protocol behind the others.
    ///
    /// `InvalidProtocol`: the name is empty or has more than 255 octets (RFC 7301, section 3.1). `LongSvcParam`: the
    /// value would have more than 65,535 octets. `NoMemory`: allocation failed. The builder is then as before.
    pub fn push(&mut self, protocol: &[u8]) -> Result<(), BuildAlpnError>
        ensures answer { IsPushed result (length (protocols_wire self.old)) (length protocol.now) }
        ensures ok { OnOk result (self.new ≡ self.old ++ protocol.now ∷ []) }
        ensures err { OnErr result (self.new ≡ self.old) }
    {
        if protocol.is_empty() || protocol.len() > AlpnBuilder::MAX_PROTOCOL_LEN {
            return Err(BuildAlpnError::InvalidProtocol);
        }
        if self.octets.len() + 1 + protocol.len() > LongSvcParam::MAX_LEN {
            return Err(BuildAlpnError::LongSvcParam);
        }
        append_protocol(&mut self.octets, protocol)?;
        Ok(())
    }

    /// The value of the protocols. It takes the builder's octets; nothing is copied.
    pub fn freeze(self) -> Alpn
        ensures { result ≡ values.Alpn self }
    {
        let AlpnBuilder { octets } = self;
        ItemList::from_checked_octets(Octets::from_vec(octets))
    }

    /// A copy, to which more can be added too. Fails only with `NoMemory`.
    pub fn try_clone(&self) -> Result<AlpnBuilder, NoMemory>
        ensures { IfOk result (λ builder. builder ≡ self.now) }
    {
        Ok(AlpnBuilder {
            octets: self.octets.clone()?,
        })
    }
}

/// Appends a protocol behind its length to whole protocols. Room is made first, so the octets stay as they are when
/// allocation fails.
fn append_protocol(octets: &mut Vec<u8>, protocol: &[u8]) -> Result<(), NoMemory>
    requires are { AreProtocols octets.old.items }
    requires protocol { length protocol.now ≤ 255 }
    requires room { length octets.old.items + 1 + length protocol.now ≤ 65535 }
    ensures ok { OnOk result (protocols octets.new.items
        ≡ protocols octets.old.items ++ protocol.now ∷ []) }
    ensures err { OnErr result (octets.new.items ≡ octets.old.items) }
    ensures are { AreProtocols octets.new.items }
{
    octets.reserve(1 + protocol.len())?;
    octets.push(protocol.len() as u8).unwrap();
    octets.extend_from_slice(protocol).unwrap();
    Ok(())
}
