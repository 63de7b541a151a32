//! Laws of the forms of programs. The calls do nothing: what they ensure holds of all forms.
ghost use Rattle.tau_forms.specs.Laws.{MeanOneProgram};

/// Forms mean one program at most (docs/formats.md, "Programs").
pub fn forms_mean_one_program()
    ensures { MeanOneProgram }
{}
