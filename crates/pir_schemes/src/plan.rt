//! What stays the same in every version of some records, and what a client keeps to itself.

ghost use Rattle.std.specs.Prelude.{◌≡◌, ℕ, List, IfOk, IfErr};
ghost use Rattle.digit_pack.specs.Layout.{IsLayout, IsLayoutFault, is_layout};
ghost use Rattle.pir_schemes.specs.Plans.{accepts_profile, shape_at};

use crate::scheme::{CLIENT_PROFILE, WIDE_PROFILE};
use digit_pack::{Layout, LayoutError, is_wide};
use std::marker::Model;

/// What stays the same in every version of some records. With a count of records it says how many
/// words hints, queries and answers have, and with the records of a version what these words are.
#[derive(Clone, Copy, Debug, PartialEq, Eq)]
pub struct Plan {
    /// 1 if all records have one length, 2 if each has its own and is in a slot; 129 and 130
    /// likewise, with a wide digit matrix.
    pub form: u16,
    /// How many bits a digit has.
    pub width: u8,
    /// How many bytes a record has.
    pub record_len: u16,
    /// How many records a column of the digit matrix has.
    pub groups: u16,
    /// The dimension n of the public matrices: how many words a secret has.
    pub dimension: u16,
    /// The public seed, which the words of the public matrices come from.
    pub seed: [u8; 32],
}

impl Plan {
    /// Whether a server of this plan accepts a greeting in a profile. A client of profile 1 knows
    /// records of one length alone, and one of profile 2 both kinds; of a wide store, profiles 129
    /// and 130 likewise.
    pub fn accepts_profile(&self, profile: u16) -> bool
        ensures { result ≡ accepts_profile self.now profile }
    {
        if is_wide(self.form) {
            profile == WIDE_PROFILE || profile == 129 && self.form == 129
        } else {
            profile == CLIENT_PROFILE || profile == 1 && self.form == 1
        }
    }

    /// The sizes of `count` records, accepted exactly when all are within the limits.
    ///
    /// # Errors
    ///
    /// The first cause, in the order of [`LayoutError`].
    pub fn layout(&self, count: usize) -> Result<Layout, LayoutError>
        ensures accepted { IfOk result (λ l. (l ≡ shape_at self.now count) × IsLayout l) }
        ensures refused { IfErr result (IsLayoutFault (shape_at self.now count)) }
    {
        Layout::of_form(
            self.form,
            u32::from(self.width),
            usize::from(self.record_len),
            usize::from(self.groups),
            count,
        )
    }

    /// Whether there is a layout of `count` records: whether all sizes are within the limits.
    #[tactic(auto, using(crate::proofs::Layouts::layout_accepted, crate::proofs::Layouts::layout_refused))]
    pub fn has_layout(&self, count: usize) -> bool
        ensures { result ≡ is_layout (shape_at self.now count) }
    {
        self.layout(count).is_ok()
    }
}

/// The seed of a client's secrets and noise, which no server learns. As a type of its own, it can't
/// be used where a public seed is wanted, nor a public one here. A contract sees it as its 32
/// bytes.
#[derive(Clone, Copy)]
pub struct SecretSeed {
    bytes: [u8; 32],
}

impl Model for SecretSeed {
    ghost Value = { List ℕ };

    ghost view = { λ s. s.bytes };

    ghost inverse = { λ bytes. record { bytes = bytes } };
}

impl SecretSeed {
    /// The seed of these bytes.
    pub fn new(bytes: [u8; 32]) -> SecretSeed
        ensures { result ≡ bytes }
    {
        SecretSeed { bytes }
    }

    /// Its bytes.
    pub fn bytes(&self) -> &[u8; 32]
        ensures { result.now ≡ self.now }
    {
        &self.bytes
    }
}
