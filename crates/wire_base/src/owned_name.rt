//! Owned names.

ghost use Rattle.std.specs.Prelude.{◌≡◌, ◌≤◌, ◌==◌, [], length, MatchResult, IfOk, OnErr};
ghost use Rattle.name_spec.specs.Names.{name_wire, is_pointed, AreLabels};
ghost use Rattle.name_spec.specs.OwnedNames.{name_in};
ghost use Rattle.wire_base.specs.Faults.{IsFaultOf, Gives};
ghost use Rattle.wire_base.specs.Moving.{AppendsOctets, LacksRoom};
ghost use Rattle.wire_base.specs.OwnedNameView.{labels_in, IsWholeName};

use crate::errors::{NoMemory, ParseError};
use crate::label_iter::LabelIter;
use crate::name_parts::span_at;
use crate::octets::Octets;
use std::alloc::Global;
use std::fmt;
use std::marker::Model;

/// A name by itself, uncompressed (RFC 1035, section 3.1), which contracts see as its labels without the root.
#[derive(Drop)]
pub struct Name {
    octets: Octets,
}

impl Model for Name {
    ghost use Rattle.std.specs.Prelude.{List, ℕ};
    ghost use Rattle.wire_base.specs.OwnedNameView.{labels_in, IsWholeName};

    ghost Value = { List (List ℕ) };

    ghost view = { λ name. labels_in name.octets };

    ghost invariant = { λ name. IsWholeName name.octets };
}

impl fmt::Debug for Name {
    fn fmt<W: fmt::Write>(&self, f: &mut fmt::Formatter<W>) -> fmt::Result {
        f.debug_tuple("Name").field(&self.labels()).finish()
    }
}

/// Whether an octet of 64 or more stands where a label would begin.
#[tactic(auto, using(name_spec::proofs::NameLaws::pointed_rules))]
fn is_compressed(octets: &[u8]) -> bool
    ensures { result ≡ is_pointed octets.now (length octets.now) 0 }
{
    let mut pos = 0;
    while pos < octets.len() {
        match octets[pos] {
            0 => return false,
            len @ 1..=63 => pos += 1 + usize::from(len),
            64..=255 => return true,
        }
    }
    false
}

/// Tests that octets are wholly an uncompressed name.
#[tactic(auto, using(crate::proofs::OwnedNames::reading_rules))]
fn check_name(octets: &[u8]) -> Result<(), ParseError>
    ensures { MatchResult result (λ _. IsWholeName octets.now)
        (λ error. IsFaultOf error (name_in octets.now)) }
{
    if is_compressed(octets) {
        return Err(ParseError::Form);
    }
    let span = span_at(octets, octets.len(), 0)?;
    if span.next != octets.len() {
        return Err(ParseError::Form);
    }
    Ok(())
}

impl Name {
    /// The root, which has no labels.
    ///
    /// `NoMemory`: an allocation failed.
    #[tactic(auto, using(crate::proofs::OwnedNames::root_rules))]
    pub fn root(alloc: Global) -> Result<Name, NoMemory>
        ensures { IfOk result (λ name. name ≡ []) }
    {
        let octets = Octets::from_slice(alloc, b"\x00")?;
        Ok(Name { octets })
    }

    /// The name that these octets wholly are. They are not copied and nothing is allocated, so it never fails with
    /// `NoMemory`.
    ///
    /// `Form`: an octet of 64 or more where a label begins, since nothing is compressed here; this is tested first.
    /// Then the first along the name decides: `ShortInput` where the octets end within a label or before the root,
    /// `Form` where its labels with their lengths are more than 254 octets, and `Form` for octets behind the root.
    pub fn from_octets(octets: Octets) -> Result<Name, ParseError>
        ensures { Gives (λ name. name) result (name_in octets) }
    {
        check_name(octets.as_slice())?;
        Ok(Name { octets })
    }

    /// The name that these octets wholly are.
    pub(crate) fn from_wire(octets: Octets) -> Name
        requires { IsWholeName octets }
        ensures { result ≡ labels_in octets }
    {
        Name { octets }
    }

    /// The octets: each label behind its length, and the root's octet 0.
    #[tactic(auto, using(crate::proofs::OwnedNames::wire_rules))]
    pub fn as_slice(&self) -> &[u8]
        ensures octets { result.now ≡ name_wire self.now }
        ensures labels { AreLabels 0 self.now }
        ensures fits { length result.now ≤ 255 }
    {
        self.octets.as_slice()
    }

    /// The labels from the first to the last, without the root.
    #[tactic(auto, using(crate::proofs::OwnedNames::wire_rules))]
    pub fn labels(&self) -> LabelIter<'_>
        ensures labels { result ≡ self.now }
        ensures fits { length result ≤ 127 }
    {
        let octets = self.as_slice();
        LabelIter::new(octets, octets.len(), 0)
    }

    /// Whether this is the root, which has no labels.
    #[tactic(auto, using(crate::proofs::OwnedNames::wire_rules))]
    pub fn is_root(&self) -> bool
        ensures { result ≡ (length self.now == 0) }
    {
        self.as_slice().len() == 1
    }

    /// The count of octets.
    pub fn compose_len(&self) -> u16
        ensures len { result ≡ length (name_wire self.now) }
        ensures fits { result ≤ 255 }
    {
        self.as_slice().len() as u16
    }

    /// Appends the octets.
    ///
    /// `NoMemory`: the target has no room for them and can't grow; its octets are unchanged.
    pub fn compose(&self, target: &mut Vec<u8>) -> Result<(), NoMemory>
        ensures appends { AppendsOctets target.old.items target.new.items
            (name_wire self.now) result }
        ensures full { OnErr result (LacksRoom target.old (length (name_wire self.now))) }
    {
        target.extend_from_slice(self.as_slice())?;
        Ok(())
    }

    /// A copy.
    ///
    /// `NoMemory`: an allocation failed.
    pub fn try_clone(&self, alloc: Global) -> Result<Name, NoMemory>
        ensures { IfOk result (λ name. name ≡ self.now) }
    {
        let octets = self.octets.try_clone(alloc)?;
        Ok(Name { octets })
    }
}
