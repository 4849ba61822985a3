//! Parameters of the values that a closure pushes.

ghost use Rattle.std.specs.Prelude.{◌≡◌, ◌≢◌, Ok, Err, IfOk, IfErr};
ghost use Rattle.std.specs.Fn.{FnOnceReturnsAtMut};
ghost use Rattle.svcb_pairs.specs.BuilderState.{BuilderState, empty_builder};
ghost use Rattle.svcb_pairs.specs.declared.errors.PushError.TheVariants as errors;

use crate::builder::SvcParamsBuilder;
use crate::params::SvcParams;
use std::alloc::Global;
use svcb_pairs::PushError;

impl SvcParams {
    /// The parameters of a builder of [`SvcParamsBuilder::empty`] that `op` has filled. `op` may be called on a
    /// builder without parameters.
    ///
    /// `DuplicateKey`, `ShortBuf`: `op` answers it. `NoMemory`: `op` answers it, or allocation failed.
    pub fn from_values<F: FnOnce(&mut SvcParamsBuilder) -> Result<(), PushError>>(
        alloc: Global,
        op: F,
    ) -> Result<SvcParams, PushError>
        requires { (builder : _) → builder.now ≡ empty_builder → F.pre op builder }
        ensures ok { IfOk result (λ params. (left : BuilderState)
            × FnOnceReturnsAtMut F.FnOnce op empty_builder (Ok tt) left × (params ≡ left.pairs)) }
        ensures err { IfErr result (λ error. error ≢ errors.NoMemory → (left : BuilderState)
            × FnOnceReturnsAtMut F.FnOnce op empty_builder (Err error) left) }
    {
        let mut builder = SvcParamsBuilder::empty(alloc);
        op(&mut builder)?;
        Ok(builder.freeze(alloc)?)
    }
}
