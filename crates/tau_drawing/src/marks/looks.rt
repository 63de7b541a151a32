//! The looks of drawn steps, by place.
ghost use Rattle.std.specs.Prelude.{◌≡◌, ◌-◌, length, option_copied, IsSome, slice_get};
ghost use Rattle.tau_svg.specs.Shapes.Windows.{count, IsDrawn};

use tau_scene::looks::StepLook;
use tau_svg::shapes::Window;

/// The look of the step at a place.
pub(crate) fn look_at(looks: &[StepLook], window: Window, place: u32) -> Option<&StepLook>
    requires looks { length looks.now ≡ count window }
    requires drawn { IsDrawn window place }
    ensures look { option_copied result ≡ slice_get looks.now (place - window.from) }
    ensures there { IsSome result }
{
    looks.get((place - window.from) as usize)
}
