// Steps of a thread: what a step does to a lock, and where it leads.
ghost use Rattle.std.specs.Prelude.{◌≡◌};
ghost use Rattle.locks.specs.Steps.{kind_number};

// How many steps a location may have.
pub const MOST_STEPS: u8 = 16;

#[derive(Clone, Copy, Debug, PartialEq, Eq)]
pub enum Kind {
    Plain,
    Take,
    Give,
}

// 0 for plain, 1 for take, 2 for give.
impl From<Kind> for u8 {
    ghost from_gives = { λ kind number. number ≡ kind_number kind };

    fn from(kind: Kind) -> u8 {
        match kind {
            Kind::Plain => 0,
            Kind::Take => 1,
            Kind::Give => 2,
        }
    }
}

// One step of a thread graph. A plain step has lock 0: of whatever kind, a graph hands a step over as these three.
#[derive(Clone, Copy, Debug, PartialEq, Eq)]
pub struct Step {
    pub kind: Kind,
    pub lock: u8,
    pub target: u16,
}
