//! Slots that are options, and those that are none.
ghost use Rattle.std.specs.Prelude.{IfSome, IfNone, length};
ghost use Rattle.reference_check.specs.Forms.{form_slots};
ghost use Rattle.message_model.specs.Tables.{types_of};
ghost use Rattle.message_model.specs.Sound.{IsSoundForm};
ghost use Rattle.message_model.specs.Options.{IsFirmAt, AreOptions};
ghost use Rattle.message_model.specs.Views.{layout_form};

use crate::model::{Layout, Model};

impl Model {
    /// The first slot of the type from one on that is no option: that has to come, or may come more than once, or may not
    /// come; `None` where there is none.
    pub fn first_firm(&self, number: u32, from: u32) -> Option<u32>
        ensures some { IfSome result (λ at. IsFirmAt (form_slots (types_of self.now number)) from at) }
        ensures none { IfNone result (AreOptions (form_slots (types_of self.now number)) from (length (form_slots (types_of self.now number)))) }
    {
        match self.types.get(number as usize) {
            None => None,
            Some(entry) => layout_firm(&entry.layout, from),
        }
    }
}

/// The first slot of the layout from one on that is no option.
fn layout_firm(layout: &Layout, from: u32) -> Option<u32>
    requires { IsSoundForm (layout_form layout.now) }
    ensures some { IfSome result (λ at. IsFirmAt (form_slots (layout_form layout.now)) from at) }
    ensures none { IfNone result (AreOptions (form_slots (layout_form layout.now)) from (length (form_slots (layout_form layout.now)))) }
{
    match layout {
        Layout::Sequence(slots) => slots.first_firm(from),
        Layout::Choice(slots) => slots.first_firm(from),
        _ => None,
    }
}
