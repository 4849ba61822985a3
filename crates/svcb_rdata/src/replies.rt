//! The replies to pushes.

ghost use Rattle.std.specs.Prelude.{◌≡◌};

use std::marker::Model;
use svcb_spec::Reply;

/// A reply to each push, in the order of the pushes. Contracts see the list of them.
#[derive(Debug, Drop)]
pub struct Replies {
    replies: Vec<Reply>,
}

impl Model for Replies {
    ghost use Rattle.std.specs.Prelude.{List};
    ghost use Rattle.svcb_spec.specs.declared.Reply.{Reply};

    ghost Value = { List Reply };

    ghost view = { λ inside. inside.replies.items };
}

impl Replies {
    /// The replies of a vector, which are not copied.
    pub fn from_vec(vec: Vec<Reply>) -> Replies
        ensures { result ≡ vec.items }
    {
        Replies { replies: vec }
    }

    /// The replies as a vector, which are not copied.
    pub fn into_vec(self) -> Vec<Reply>
        ensures { result.items ≡ self }
    {
        let Replies { replies } = self;
        replies
    }

    /// The replies.
    pub fn as_slice(&self) -> &[Reply]
        ensures { result.now ≡ self.now }
    {
        self.replies.as_slice()
    }
}

impl PartialEq for Replies {
    ghost use Rattle.std.specs.Cmp.Lexicographic.{pointwise};
    ghost use Rattle.std.specs.Cmp.Rules.{comparing};
    ghost use Rattle.std.proofs.Common.{rules};
    ghost use Rattle.svcb_spec.specs.contracts.ReplyPartialEq.TheImpl.{ghosts};
    ghost use Rattle.svcb_spec.specs.contracts.ReplyPartialEq.TheImpl.Laws.{laws-law};

    ghost eq = { pointwise ghosts.eq };

    ghost laws = { Prim.search (comparing, rules, laws-law) };

    fn eq(&self, other: &Replies) -> bool {
        self.as_slice() == other.as_slice()
    }
}

impl Eq for Replies {
    ghost use Rattle.std.specs.Cmp.Rules.{comparing};
    ghost use Rattle.std.proofs.Common.{rules};
    ghost use Rattle.svcb_spec.specs.contracts.ReplyEq.TheImpl.Laws.{laws-law};

    ghost laws = { Prim.search (comparing, rules, laws-law) };
}
