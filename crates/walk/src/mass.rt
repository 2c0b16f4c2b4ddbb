// One new mass (rules 3.3).

ghost use Rattle.std.specs.Prelude.{◌≡◌, ◌≤◌};
ghost use Rattle.walk.specs.Units.{million, mass_limit};
ghost use Rattle.walk.specs.Mass.{mass_up, rounding};

use crate::MILLION;

// A unit in millionths of a unit, and one millionth less.
const MILLIONTHS: u64 = MILLION as u64;

const ALMOST_ONE: u64 = MILLIONTHS - 1;

// A new mass, and 1 where it was rounded, else 0.
#[derive(Clone, Copy)]
pub(crate) struct NewMass {
    pub mass: u64,
    pub rounding: u32,
}

// The mass that stays at a count with each draw 0 and the mass that comes from the count before with each draw 1: their sum is rounded
// up once, so that no mass is lost; the comparison tells whether, and is no branch. Live words are at most 2^43.
pub(crate) fn mass_up(a: u64, stay: u64, come: u64) -> NewMass
    requires { (a ≤ million) × (stay ≤ mass_limit) × (come ≤ mass_limit) }
    ensures { (result.mass ≡ mass_up a stay come) × (result.rounding ≡ rounding a stay come) }
{
    let sum = stay * (MILLIONTHS - a) + come * a;
    let mass = (sum + ALMOST_ONE) / MILLIONTHS;
    let rounding = (sum < mass * MILLIONTHS) as u32;
    NewMass { mass, rounding }
}
