ghost use Rattle.std.specs.Prelude.{◌≡◌, ◌<◌, ◌-◌, false};
ghost use Rattle.readers.specs.Room.{at_height};
ghost use Rattle.readers.specs.Infix as rows;

use crate::code::Code;

/// How tight an operator binds, and whether it groups to the right.
#[derive(Clone, Copy, Debug, PartialEq, Eq)]
pub struct Fixity {
    pub tight: u8,
    pub right: bool,
}

/// The operators that an operand may have at its top: of this tightness at least, and, if strict, of just this one only
/// those to the right.
#[derive(Clone, Copy, Debug, PartialEq, Eq)]
pub struct Floor {
    pub least: u32,
    pub strict: bool,
}

impl Fixity {
    /// What may stand on the right of the operator.
    pub fn floor(self) -> Floor
        ensures { result ≡ rows.floor_of (λ v. v.tight) (λ v. v.right) self }
    {
        if self.right {
            Floor {
                least: u32::from(self.tight),
                strict: true,
            }
        } else {
            Floor {
                least: u32::from(self.tight) + 1,
                strict: false,
            }
        }
    }
}

impl Floor {
    /// The floor of a whole row: any operator may stand on it.
    pub fn ground() -> Floor
        ensures { result ≡ rows.ground }
    {
        Floor {
            least: 0,
            strict: false,
        }
    }

    /// Whether the operator may come next in an operand of this floor, clashes aside.
    pub fn is_reached(self, op: Fixity) -> bool
        ensures { result ≡ rows.reaches (λ v. v.tight) (λ v. v.right) self op }
    {
        self.least <= u32::from(op.tight)
    }
}

/// Why the operator cannot follow an operand of this height with this operator at its top, where the row stands on this
/// floor and its operands have this room; None where it can. Operators clash where they bind equally tight and one groups
/// to the left and one to the right.
pub fn judge(room: u32, floor: Floor, top: Option<Fixity>, height: u32, op: Fixity) -> Option<Code>
    ensures { result ≡ rows.judge (λ v. v.tight) (λ v. v.right) (at_height room false) floor top height op }
{
    let (before, agrees) = match top {
        None => (true, true),
        Some(left) => (
            op.tight < left.tight || (left.tight == op.tight && !left.right),
            !(left.tight == op.tight && op.right),
        ),
    };
    if !floor.is_reached(op) || !before {
        return Some(Code::Grammar);
    }
    let sided = !(floor.strict && (u32::from(op.tight) == floor.least && !op.right));
    if !sided || !agrees {
        return Some(Code::FixityClash);
    }
    if room < height {
        Some(Code::Depth)
    } else {
        None
    }
}
