//! Laws of spelling. The calls do nothing: what they ensure holds of all bytes.
ghost use Rattle.tau_sexpr.specs.Laws.{SpellsOnce, SpellsWithoutFault, HasFormsOrFault, FailsOnce, ReadsFromPlace, ReadsFromStart, ReadsNothingBehind};

/// Bytes spell one list of forms at most, and what has forms has no fault (docs/formats.md, "Texts and forms").
pub fn spelling_is_unique(_bytes: &[u8])
    ensures once { SpellsOnce _bytes.now }
    ensures without_fault { SpellsWithoutFault _bytes.now }
{}

/// Bytes have forms, or a first fault, and only one (docs/formats.md, "Texts and forms").
pub fn forms_or_first_fault(_bytes: &[u8])
    ensures either { HasFormsOrFault _bytes.now }
    ensures one_fault { FailsOnce _bytes.now }
{}

/// From each place on bytes give what those behind it give, their forms or their first fault; so they give all their forms from
/// the start on, or their first fault, and nothing from the end on (docs/formats.md, "Texts and forms").
pub fn reading_goes_on(_bytes: &[u8])
    ensures place { ReadsFromPlace _bytes.now }
    ensures start { ReadsFromStart _bytes.now }
    ensures end { ReadsNothingBehind _bytes.now }
{}
