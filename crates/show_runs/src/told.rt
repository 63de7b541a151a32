//! Lines that tell an answer.
use std::alloc::AllocError;
use tau_book::Next;

/// Adds what a hand is told that asks, and where that is Idle, how many turns are open.
pub fn add_told(text: &mut String, answer: &Next<'_>, who: &str) -> Result<(), AllocError> {
    writeln!(text, "the {who} hand asks: {}", name_of(answer))?;
    if let Next::Idle { out } = answer {
        writeln!(text, "the open turns: {out}")?;
    }
    Ok(())
}

/// The name of an answer.
fn name_of(answer: &Next<'_>) -> &'static str {
    match answer {
        Next::Work(_) => "Work",
        Next::Stepped => "Stepped",
        Next::Idle { .. } => "Idle",
        Next::Complete => "Complete",
        Next::Stopped => "Stopped",
    }
}
