//! The forms of a store: whether its records have one length, and how many rows and columns its
//! digit matrix may have.

ghost use Rattle.std.specs.Prelude.{◌≡◌};
ghost use Rattle.digit_pack.specs.Layout.{is_wide};
ghost use Rattle.digit_pack.specs.Slots.{is_form, is_slotted};

/// Whether the digit matrix of a form is a wide one: in all forms above 128.
pub fn is_wide(form: u16) -> bool
    ensures { result ≡ is_wide form }
{
    form > 128
}

/// Whether each record of a form has a length of its own, and is in a slot.
#[tactic(auto, unfolding(crate::specs::Slots::is_slotted))]
pub fn is_slotted(form: u16) -> bool
    ensures { result ≡ is_slotted form }
{
    form == 2 || form == 130
}

/// Whether there is such a form, for records of so many bytes: 1 and 129; 2 and 130 if a record has
/// at least two bytes.
#[tactic(auto, unfolding(crate::specs::Slots::is_form))]
pub fn is_form(form: u16, record_len: u16) -> bool
    ensures { result ≡ is_form form record_len }
{
    form == 1 || form == 129 || is_slotted(form) && record_len >= 2
}
