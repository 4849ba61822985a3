//! Views of values whose octets are not interpreted.

ghost use Rattle.std.specs.Prelude.{◌≡◌, ◌==◌, ℕ, List, ◌+◌, ◌≤◌, ◌<◌, Some, length, IfOk, OnOk, OnErr, ⊤};
ghost use Rattle.svcb_spec.specs.Values.{Value, key_of, encode, IsValue};
ghost use Rattle.svcb_spec.specs.ReadingValues.{taking_all, whole_value, long_fault};
ghost use Rattle.wire_base.specs.Faults.{Gives};
ghost use Rattle.wire_base.specs.Input.{octets_left};
ghost use Rattle.wire_base.specs.Moving.{TakesAll, AppendsOctets};
ghost use Rattle.svcb_spec.specs.PrintedValues.{value_printed};

use crate::opaque::{OpaqueType, OpaqueValue};
use registry::{
    ComposeSvcParamValue, LongSvcParam, ParseSvcParamValue, SvcParamKey, SvcParamValue,
};
use std::alloc::{AllocError, Global};
use std::fmt;
use std::marker::PhantomData;
use wire_base::{NoMemory, Octets, ParseError, Parser};

/// A view of a value whose octets are not interpreted: it borrows them, at most 65,535. Equality compares the octets.
#[derive_where(PartialEq, Eq, Hash)]
pub struct OpaqueRef<'a, T: OpaqueType> {
    /// The octets, at most 65,535.
    pub slice: &'a [u8],
    #[derive_where(skip)]
    pub(crate) kind: PhantomData<T>,
    ghost encodes: { encode (T.value slice.now) ≡ slice.now },
    ghost fits: { length slice.now < 65536 },
}

impl<'a, T: OpaqueType> Copy for OpaqueRef<'a, T> {}

impl<'a, T: OpaqueType> Clone for OpaqueRef<'a, T> {
    ghost is_clone = { λ view copy. copy ≡ view };

    ghost is_infallible = { λ _. ⊤ };

    fn clone(&self) -> Result<OpaqueRef<'a, T>, AllocError> {
        Ok(*self)
    }
}

impl<'a, T: OpaqueType> OpaqueRef<'a, T> {
    /// The view of octets.
    ///
    /// `LongSvcParam`: there are more than 65,535 octets.
    pub fn from_slice(slice: &'a [u8]) -> Result<OpaqueRef<'a, T>, LongSvcParam>
        ensures value { IfOk result (λ view. view.slice.now ≡ slice.now) }
        ensures ok { OnOk result (length slice.now ≤ 65535) }
        ensures long { OnErr result (65535 < length slice.now) }
    {
        LongSvcParam::check_len(slice.len())?;
        Ok(OpaqueRef {
            slice,
            kind: PhantomData,
        })
    }

    /// The view of all octets that remain.
    ///
    /// `Form`: more than 65,535 octets remain. The parser is then unchanged.
    pub fn parse(parser: &mut Parser<'a>) -> Result<OpaqueRef<'a, T>, ParseError>
        ensures answer { Gives (λ view. taking_all (octets_left parser.old) (T.value view.slice.now)) result
            (whole_value long_fault T.value (octets_left parser.old)) }
        ensures takes { TakesAll parser.old parser.new result }
        ensures len { parser.old.pos + length (octets_left parser.old) ≡ parser.old.end }
    {
        let slice = parser.remaining_octets();
        LongSvcParam::check_len(slice.len())?;
        parser.advance_to_end();
        Ok(OpaqueRef {
            slice,
            kind: PhantomData,
        })
    }

    /// The octets.
    pub fn as_slice(&self) -> &'a [u8]
        ensures octets { result.now ≡ self.now.slice.now }
        ensures fits { length result.now < 65536 }
    {
        self.slice
    }

    /// An owned copy. Fails only with `NoMemory`.
    pub fn to_owned_data(&self, alloc: Global) -> Result<OpaqueValue<T>, NoMemory>
        ensures { IfOk result (λ value. value ≡ T.value self.now.slice.now) }
    {
        Ok(OpaqueValue {
            octets: Octets::from_slice(alloc, self.slice)?,
            kind: PhantomData,
        })
    }
}

/// The name of the value, and its octets.
impl<'a, T: OpaqueType> fmt::Debug for OpaqueRef<'a, T> {
    fn fmt<W: fmt::Write>(&self, f: &mut fmt::Formatter<W>) -> fmt::Result {
        f.debug_tuple(T::NAME).field(&self.slice).finish()
    }
}

impl<'a, T: OpaqueType> SvcParamValue for OpaqueRef<'a, T> {
    ghost key_of = { λ view. key_of (T.value view.slice.now) };

    fn key(&self) -> SvcParamKey {
        T::key()
    }
}

impl<'a, T: OpaqueType> ParseSvcParamValue<'a> for OpaqueRef<'a, T> {
    ghost Seen = { Value };

    ghost seen = { λ view. T.value view.slice.now };

    ghost takes = { λ key. key == T.key };

    ghost reads = { λ _. whole_value long_fault T.value };

    fn parse_value(
        key: SvcParamKey,
        parser: &mut Parser<'a>,
    ) -> Result<Option<OpaqueRef<'a, T>>, ParseError> {
        if key != T::key() {
            return Ok(None);
        }
        let view = OpaqueRef::from_slice(parser.remaining_octets())?;
        parser.advance_to_end();
        Ok(Some(view))
    }
}

impl<'a, T: OpaqueType> ComposeSvcParamValue for OpaqueRef<'a, T> {
    ghost octets = { λ view. encode (T.value view.slice.now) };

    fn compose_len(&self) -> u16
        ensures len { result ≡ length (encode (T.value self.now.slice.now)) }
        ensures value { IsValue (T.value self.now.slice.now) }
    {
        self.slice.len() as u16
    }

    fn compose_value(&self, target: &mut Vec<u8>) -> Result<(), NoMemory> {
        target.extend_from_slice(self.slice)?;
        Ok(())
    }
}

/// The key, and `=` and the text of the octets, as [`OpaqueType`] has it. Without octets the key stands alone.
impl<'a, T: OpaqueType> fmt::Display for OpaqueRef<'a, T> {
    ghost output = { λ view. Some (value_printed (T.value view.slice.now)) };

    fn fmt<W: fmt::Write>(&self, f: &mut fmt::Formatter<W>) -> fmt::Result {
        if self.slice.is_empty() {
            return write!(f, "{}", T::key());
        }
        write!(f, "{}=", T::key())?;
        T::write_text(self.slice, f)
    }
}
