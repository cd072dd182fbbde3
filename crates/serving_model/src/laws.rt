//! What the definitions imply, for every seat, form and answer.

ghost use Rattle.serving_model.specs.Laws.{SomeNext, OneNext, FormStays, FormStaysAside, FormStaysInBand};

/// A form with an item not yet given has a next item.
// Promise: A form with an item that is not given has one next item
// - of `laws::some_next`, `laws::one_next`
// - by `SomeNext`, `OneNext`
pub fn some_next()
    ensures { SomeNext }
{}

/// It has only one.
pub fn one_next()
    ensures { OneNext }
{}

/// A form that was served from stays a form while the same items are unavailable.
// Promise: A form that an item was served from is still a form after the answer, at any estimate,
// if the same items are unavailable
// - by `FormStays`
pub fn form_stays()
    ensures { FormStays }
{}

/// The form last served from stays a form once eligibility is set aside: so a session that has
/// begun never lacks one.
// Promise: Once eligibility is set aside the form last served from is still a form, whatever the
// band of the estimate; while the estimate stays in its band it is one as it is
// - of `laws::form_stays_aside`, `laws::form_stays_in_band`
// - by `FormStaysAside`, `FormStaysInBand`
pub fn form_stays_aside()
    ensures { FormStaysAside }
{}

/// While the estimate stays in its band, it stays a form as it is.
pub fn form_stays_in_band()
    ensures { FormStaysInBand }
{}
