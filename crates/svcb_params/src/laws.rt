//! Laws of service parameters, each proved for all arguments. The functions do nothing when they run.

ghost use Rattle.svcb_spec.specs.Params.{IsMap};
ghost use Rattle.svcb_laws.specs.ParamTextLaws.{HaveOctets};
ghost use Rattle.svcb_params.specs.Laws.{ParametersAreLists, EqualByOctets, PairsAreFew, FirstUnderKey, PushedRead, AllReadThrough};

use crate::params::SvcParams;
use text_spec::laws::slice_of_octets;

/// Octets are service parameters exactly where they are a list of keys, lengths and that many octets of value, and the
/// keys ascend strictly.
pub fn parameters_are_lists()
    ensures { ParametersAreLists }
{}

/// Equal parameters have equal octets in wire form, and equal octets are equal parameters.
pub fn equal_by_octets()
    ensures { EqualByOctets }
{}

/// The values of parameters are made of octets, which the laws of `svcb_laws` on printed texts ask of them.
#[tactic(auto, using(svcb_laws::proofs::DataOctets::map_octets))]
pub fn params_of_octets(params: &SvcParams)
    ensures is_map { IsMap params.now }
    ensures octets { HaveOctets params.now }
{
    slice_of_octets(params.as_slice());
}

/// Each parameter has at least four octets, so an iterator over `len` octets gives at most `len / 4` items.
pub fn pairs_are_few()
    ensures { PairsAreFew }
{}

/// The first value of a type that takes one key, and reads octets under it as the key's own type does, is the value
/// that the octets under the key wholly are: it is there whatever the octets under lower keys are.
pub fn first_under_key()
    ensures { FirstUnderKey }
{}

/// A typed value that a builder has accepted is what the getter of its key reads from the builder's parameters.
pub fn pushed_read()
    ensures { PushedRead }
{}

/// `iter_all` gives a typed value too, in its place, where no lower key has octets that its type refuses.
pub fn all_read_through()
    ensures { AllReadThrough }
{}
