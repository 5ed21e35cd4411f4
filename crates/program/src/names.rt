// Actions and controllers are two types, as the paper keeps ACT and LOC apart: neither can stand where the other is
// asked for.
ghost use Rattle.std.specs.Prelude.{◌≡◌};
ghost use Rattle.program.specs.Names.{action_byte, controller_byte};

// An action, 0 to 15.
#[derive(Clone, Copy, Debug, PartialEq, Eq)]
pub struct Action(pub u8);

// A controller, 16 to 31 in a program; a free slot has 0, and a launch may name any: whoever uses one tests it.
#[repr(C)]
#[derive(Clone, Copy, Debug, Default, PartialEq, Eq)]
pub struct Controller(pub u8);

// A byte that names nothing of the kind that was asked for.
#[derive(Clone, Copy, Debug, PartialEq, Eq)]
pub struct Unnamed(pub u8);

// Two impls, since there are two types: the scope paper wants them apart.
impl TryFrom<u8> for Action {
    type Error = Unnamed;

    ghost try_from_gives = { λ b r. r ≡ action_byte b };

    fn try_from(b: u8) -> Result<Self, Unnamed> {
        match b {
            0..=15 => Ok(Action(b)),
            _ => Err(Unnamed(b)),
        }
    }
}

impl TryFrom<u8> for Controller {
    type Error = Unnamed;

    ghost try_from_gives = { λ b r. r ≡ controller_byte b };

    fn try_from(b: u8) -> Result<Self, Unnamed> {
        match b {
            16..=31 => Ok(Controller(b)),
            _ => Err(Unnamed(b)),
        }
    }
}
