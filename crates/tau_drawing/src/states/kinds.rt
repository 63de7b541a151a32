//! The classes of looks, and what is said of them.
ghost use Rattle.std.specs.Prelude.{◌≡◌, map};
ghost use Rattle.std.specs.Option.{option_map};
ghost use Rattle.tau_drawing.specs.States.Names as names;

use tau_scene::looks::{EndLook, Looks, MarkLook, Seen, StateLook};

/// The class of a state.
pub(crate) fn state_class(look: StateLook) -> &'static [u8]
    ensures { result.now ≡ names.state_class look }
{
    match look {
        StateLook::Fallen => b"fallen",
        StateLook::Kept => b"kept",
        StateLook::Broken => b"broken",
        StateLook::Unkept => b"unkept",
        StateLook::Doomed => b"doomed",
        StateLook::Open => b"open",
    }
}

/// What the title of a state says of it.
pub(crate) fn state_words(look: StateLook) -> &'static [u8]
    ensures { result.now ≡ names.state_words look }
{
    match look {
        StateLook::Fallen => b"rolled back",
        StateLook::Kept => b"saved, may be kept",
        StateLook::Broken => b"saved, not safe",
        StateLook::Unkept => b"saved, can't be kept",
        StateLook::Doomed => b"rests on a state that was rolled back",
        StateLook::Open => b"not saved",
    }
}

/// The class of the tick of a Checkpoint, a Hold or a falling step; `None` for other steps.
pub(crate) fn tick_class(look: MarkLook) -> Option<&'static [u8]>
    ensures { option_map (λ s. s.now) result ≡ names.tick_class look }
{
    match look {
        MarkLook::Kept => Some(b"tau-ok"),
        MarkLook::Unkept => Some(b"tau-amber"),
        MarkLook::Hold => Some(b"tau-pause"),
        MarkLook::Broken | MarkLook::Fall | MarkLook::Rollback | MarkLook::Trap | MarkLook::Fail =>
            Some(b"tau-red"),
        _ => None,
    }
}

/// The symbol of what may be kept.
pub(crate) fn end_symbol(look: EndLook) -> &'static [u8]
    ensures { result.now ≡ names.end_symbol look }
{
    match look {
        EndLook::Kept => b"kept",
        EndLook::First => b"first",
        EndLook::None => b"none",
    }
}

/// The class of the text of what may be kept.
pub(crate) fn end_class(look: EndLook) -> &'static [u8]
    ensures { result.now ≡ names.end_class look }
{
    match look {
        EndLook::Kept => b"good",
        EndLook::First => b"row",
        EndLook::None => b"minor",
    }
}

/// The states that are seen of the lane with so many lanes before it.
pub(crate) fn seen_at(looks: &Looks, rank: usize) -> &[Seen]
    ensures { result.now ≡ names.seen_at looks.now rank }
{
    match looks.states.get(rank) {
        Some(seen) => seen,
        None => &[],
    }
}
