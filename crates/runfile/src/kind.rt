// The kind of a move, by its number.
ghost use Rattle.runfile.specs.Kind.{Decodes};

// What a move does: it begins an operation, or makes one step of it.
#[derive(Clone, Copy, Debug, PartialEq, Eq)]
pub enum Kind {
    Begin,
    Step,
}

// A number that no kind has.
#[derive(Clone, Copy, Debug, PartialEq, Eq)]
pub struct UnknownKind(pub u64);

impl TryFrom<u64> for Kind {
    type Error = UnknownKind;

    ghost try_from_gives = { Decodes };

    fn try_from(number: u64) -> Result<Self, UnknownKind> {
        match number {
            0 => Ok(Kind::Begin),
            1 => Ok(Kind::Step),
            _ => Err(UnknownKind(number)),
        }
    }
}
