//! What goes wrong while a machine runs.

use crate::dice::Dice;

/// How often something fails: one time in so many, and never if this is 0.
pub type Odds = usize;

/// What fails on a machine's disk.
#[derive(Clone, Copy, Debug, PartialEq, Eq)]
pub struct Faults {
    /// There is no room: a write that makes a file longer is cut short, or fails.
    pub full: bool,
    /// To open a file or a folder, and to ask what is at a path.
    pub opens_fail: Odds,
    /// To read a file.
    pub reads_fail: Odds,
    /// To write a file, some bytes of which may come all the same, or to set its length.
    pub writes_fail: Odds,
    /// To sync a file or a folder. What was written may then never reach the device.
    pub syncs_fail: Odds,
    /// To make, rename or remove a file, and to make a folder.
    pub names_fail: Odds,
}

impl Faults {
    /// Nothing fails.
    pub fn none() -> Faults {
        Faults {
            full: false,
            opens_fail: 0,
            reads_fail: 0,
            writes_fail: 0,
            syncs_fail: 0,
            names_fail: 0,
        }
    }
}

/// Whether something of these odds fails this time.
pub(crate) fn is_failing(dice: &mut Dice, odds: Odds) -> bool {
    odds != 0 && dice.one_in(odds)
}
