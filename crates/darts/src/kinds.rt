// A kind as the history has it: "2p for a removal and 2p+1 for a contraction".
ghost use Rattle.std.specs.Prelude.{◌≡◌, ◌%◌};
ghost use Rattle.darts.specs.Kinds.{bit, other};

use crate::Kind;

impl Kind {
    // The last bit of its history numbers.
    pub fn bit(self) -> usize
        ensures { result ≡ bit self }
    {
        match self {
            Kind::Contract => 1,
            Kind::Remove => 0,
        }
    }

    // The other kind.
    pub fn other(self) -> Kind
        ensures { result ≡ other self }
    {
        match self {
            Kind::Contract => Kind::Remove,
            Kind::Remove => Kind::Contract,
        }
    }
}

// The kind of the operation that has this history number.
impl From<usize> for Kind {
    ghost from_gives = { λ h k. bit k ≡ h % 2 };

    fn from(number: usize) -> Kind {
        match number % 2 {
            0 => Kind::Remove,
            _ => Kind::Contract,
        }
    }
}
