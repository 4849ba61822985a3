//! A value that was pushed and accepted is read back from what was rebuilt.

ghost use Rattle.std.specs.Prelude.{◌≡◌, ◌<◌, ◌^◌, Some, IfOk};
ghost use Rattle.svcb_spec.specs.declared.Reply.TheVariants.{Accepted};

use hollywhist::base::wire::Parser;
use hollywhist::laws::svcb::rebuilt_read_back;
use hollywhist::laws::svcb_data::accepted_read;
use hollywhist::rdata::svcb::value::{AllValues, Port};
use hollywhist::rdata::svcb::{RebuildError, Reply, SvcbRef, SvcbVariant, rebuild_svcb};
use std::alloc::Global;

/// Record data with a port pushed: the reply, and the port that is read from the rebuilt data, which is the one that
/// was pushed where it was accepted.
pub fn pushed_port(
    alloc: Global,
    message: &[u8],
    port: Port,
    limit: usize,
) -> Result<(Option<Reply>, Option<Port>), RebuildError>
    requires { limit < 2 ^ 31 }
    ensures { IfOk result (λ found. found.0 ≡ Some Accepted → found.1 ≡ Some port) }
{
    accepted_read();
    rebuilt_read_back();
    let before = SvcbRef::<SvcbVariant>::parse(&mut Parser::from_ref(message))?;
    let pushes = [AllValues::Port(port)];
    let rebuilt = rebuild_svcb(alloc, message, 0, message.len(), &pushes, limit)?;
    let mut parser = Parser::from_ref(rebuilt.octets.as_slice());
    let found = SvcbRef::<SvcbVariant>::parse(&mut parser)?;
    let reply = rebuilt.replies.as_slice().first().copied();
    Ok((reply, found.params().port()))
}
