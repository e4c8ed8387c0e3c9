// The key switch of a block for metered customers.
ghost use Rattle.std.specs.Prelude.{◌≡◌};
ghost use Rattle.rules.specs.Seal.{lets_do};

use crate::rule::Act;

// Its position, which is given with each call and kept nowhere.
#[derive(Clone, Copy)]
pub enum Switch {
    Unsealed,
    Sealed,
}

impl Switch {
    // Check 16, by what the command does: a sealed block stores nothing. By cases, since an act has no function in it (see `named_by`).
    pub(crate) fn lets_do(self, act: Act) -> bool
        ensures { result ≡ lets_do self act }
    {
        match self {
            Switch::Unsealed => true,
            Switch::Sealed => match act {
                Act::Show | Act::Sign => true,
                Act::Store(_) => false,
            },
        }
    }
}
