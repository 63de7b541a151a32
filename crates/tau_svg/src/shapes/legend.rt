//! The legend of a picture.
ghost use Rattle.std.specs.Prelude.{◌≡◌, OnOk, ◌∷◌, ◌++◌};
ghost use Rattle.tau_svg.specs.Markup.Lines.{with_attribute, with_line, with_lines};
ghost use Rattle.tau_svg.specs.Shapes.Fixed as fixed;
ghost use Rattle.tau_svg.specs.Shapes.Shapes.{moved_by, legend_line, end_lines};

use crate::markup::{begin, close, constant, line_break, name, number, plain, quote};
use std::alloc::AllocError;

#[tactic(auto, unfolding(crate::specs::Shapes::Fixed::legend_1))]
fn legend_1(out: &mut Vec<u8>) -> Result<(), AllocError>
    ensures { OnOk result (out.new.items ≡ with_lines out.old.items fixed.legend_1) }
{
    constant(
        out,
        b"<rect class=\"open\" x=\"-5\" y=\"-7\" width=\"10\" height=\"14\" rx=\"3\"/>\n<text class=\"minor\" x=\"12\" y=\"4\">volatile</text>\n<rect class=\"open\" x=\"77\" y=\"-7\" width=\"10\" height=\"14\" rx=\"3\"/>\n<rect class=\"open-s\" x=\"80\" y=\"-5\" width=\"4\" height=\"12\"/>\n<text class=\"minor\" x=\"94\" y=\"4\">stable</text>\n<rect class=\"kept\" x=\"145\" y=\"-7\" width=\"10\" height=\"14\" rx=\"3\"/>\n<text class=\"minor\" x=\"162\" y=\"4\">saved, may be kept</text>\n<rect class=\"unkept\" x=\"293\" y=\"-7\" width=\"10\" height=\"14\" rx=\"3\"/>\n<text class=\"minor\" x=\"310\" y=\"4\">saved, can't be kept</text>\n<rect class=\"fallen\" x=\"455\" y=\"-7\" width=\"10\" height=\"14\" rx=\"3\"/>",
    )
}

#[tactic(auto, unfolding(crate::specs::Shapes::Fixed::legend_2))]
fn legend_2(out: &mut Vec<u8>) -> Result<(), AllocError>
    ensures { OnOk result (out.new.items ≡ with_lines out.old.items fixed.legend_2) }
{
    constant(
        out,
        b"<text class=\"minor\" x=\"472\" y=\"4\">rolled back</text>\n<rect class=\"doomed\" x=\"557\" y=\"-7\" width=\"10\" height=\"14\" rx=\"3\"/>\n<text class=\"minor\" x=\"574\" y=\"4\">rests on a fallen one</text>\n<use xlink:href=\"#tau-take\" x=\"0\" y=\"18\"/>\n<text class=\"minor\" x=\"12\" y=\"22\">take</text>\n<use xlink:href=\"#tau-get\" x=\"55\" y=\"18\"/>\n<text class=\"minor\" x=\"67\" y=\"22\">get, ask</text>\n<use xlink:href=\"#tau-set\" x=\"137\" y=\"18\"/>\n<text class=\"minor\" x=\"149\" y=\"22\">set</text>\n<use xlink:href=\"#tau-skip\" x=\"185\" y=\"18\"/>",
    )
}

#[tactic(auto, unfolding(crate::specs::Shapes::Fixed::legend_3))]
fn legend_3(out: &mut Vec<u8>) -> Result<(), AllocError>
    ensures { OnOk result (out.new.items ≡ with_lines out.old.items fixed.legend_3) }
{
    constant(
        out,
        b"<text class=\"minor\" x=\"197\" y=\"22\">skip</text>\n<use xlink:href=\"#tau-send\" x=\"240\" y=\"18\"/>\n<text class=\"minor\" x=\"252\" y=\"22\">send</text>\n<use xlink:href=\"#tau-new\" x=\"295\" y=\"18\"/>\n<text class=\"minor\" x=\"307\" y=\"22\">new</text>\n<use xlink:href=\"#tau-stabilize\" x=\"343\" y=\"18\"/>\n<text class=\"minor\" x=\"357\" y=\"22\">stabilize</text>\n<use xlink:href=\"#tau-done\" x=\"433\" y=\"18\"/>\n<text class=\"minor\" x=\"445\" y=\"22\">done</text>\n<use xlink:href=\"#tau-stay\" x=\"488\" y=\"18\"/>",
    )
}

#[tactic(auto, unfolding(crate::specs::Shapes::Fixed::legend_4))]
fn legend_4(out: &mut Vec<u8>) -> Result<(), AllocError>
    ensures { OnOk result (out.new.items ≡ with_lines out.old.items fixed.legend_4) }
{
    constant(
        out,
        b"<text class=\"minor\" x=\"500\" y=\"22\">stay</text>\n<use xlink:href=\"#tau-fail-stable\" x=\"543\" y=\"18\"/>\n<text class=\"minor\" x=\"555\" y=\"22\">fail, no harm</text>\n<use xlink:href=\"#tau-trap-stable\" x=\"658\" y=\"18\"/>\n<text class=\"minor\" x=\"670\" y=\"22\">trap, no harm</text>\n<use xlink:href=\"#tau-kept\" x=\"0\" y=\"36\"/>\n<text class=\"minor\" x=\"12\" y=\"40\">checkpoint</text>\n<use xlink:href=\"#tau-unkept\" x=\"95\" y=\"36\"/>\n<text class=\"minor\" x=\"107\" y=\"40\">not kept</text>\n<use xlink:href=\"#tau-broken\" x=\"177\" y=\"36\"/>",
    )
}

#[tactic(auto, unfolding(crate::specs::Shapes::Fixed::legend_5))]
fn legend_5(out: &mut Vec<u8>) -> Result<(), AllocError>
    ensures { OnOk result (out.new.items ≡ with_lines out.old.items fixed.legend_5) }
{
    constant(
        out,
        b"<text class=\"minor\" x=\"189\" y=\"40\">not safe</text>\n<use xlink:href=\"#tau-hold\" x=\"259\" y=\"36\"/>\n<text class=\"minor\" x=\"271\" y=\"40\">hold</text>\n<use xlink:href=\"#tau-rollback\" x=\"314\" y=\"36\"/>\n<text class=\"minor\" x=\"326\" y=\"40\">rollback</text>\n<use xlink:href=\"#tau-fall\" x=\"396\" y=\"36\"/>\n<text class=\"minor\" x=\"408\" y=\"40\">fall</text>\n<use xlink:href=\"#tau-trap\" x=\"451\" y=\"36\"/>\n<text class=\"minor\" x=\"463\" y=\"40\">trap</text>\n<use xlink:href=\"#tau-fail\" x=\"506\" y=\"36\"/>",
    )
}

#[tactic(auto, unfolding(crate::specs::Shapes::Fixed::legend_6))]
fn legend_6(out: &mut Vec<u8>) -> Result<(), AllocError>
    ensures { OnOk result (out.new.items ≡ with_lines out.old.items fixed.legend_6) }
{
    constant(
        out,
        b"<text class=\"minor\" x=\"518\" y=\"40\">fail</text>\n<use xlink:href=\"#tau-drop\" x=\"561\" y=\"36\"/>\n<text class=\"minor\" x=\"573\" y=\"40\">drop</text>\n<use xlink:href=\"#tau-void\" x=\"616\" y=\"36\"/>\n<text class=\"minor\" x=\"628\" y=\"40\">void</text>\n<path class=\"m m-take\" d=\"M-6 54H16\"/>\n<text class=\"minor\" x=\"28\" y=\"58\">taken</text>\n<path class=\"m m-fall\" d=\"M72 54H94\"/>\n<text class=\"minor\" x=\"106\" y=\"58\">forces a fall</text>\n<path class=\"m m-drop\" d=\"M203 54H225\"/>",
    )
}

#[tactic(auto, unfolding(crate::specs::Shapes::Fixed::legend_7))]
fn legend_7(out: &mut Vec<u8>) -> Result<(), AllocError>
    ensures { OnOk result (out.new.items ≡ with_lines out.old.items fixed.legend_7) }
{
    constant(
        out,
        b"<text class=\"minor\" x=\"237\" y=\"58\">dropped</text>\n<path class=\"m m-void\" d=\"M294 54H316\"/>\n<text class=\"minor\" x=\"328\" y=\"58\">to an ended one</text>\n<path class=\"m m-lose\" d=\"M438 54H460\"/>\n<use xlink:href=\"#tau-lose\" x=\"462\" y=\"54\"/>\n<text class=\"minor\" x=\"472\" y=\"58\">lost</text>\n<path class=\"m m-fly\" d=\"M509 54H531\"/>\n<text class=\"minor\" x=\"543\" y=\"58\">in flight</text>\n<path class=\"m m-new\" d=\"M613 54H635\"/>\n<text class=\"minor\" x=\"647\" y=\"58\">creates</text>",
    )
}

/// The lines of the legend.
#[tactic(auto, using(crate::proofs::Joining::joined))]
fn put_key(out: &mut Vec<u8>) -> Result<(), AllocError>
    ensures { OnOk result (out.new.items ≡ with_lines out.old.items fixed.legend_lines) }
{
    legend_1(out)?;
    legend_2(out)?;
    legend_3(out)?;
    legend_4(out)?;
    legend_5(out)?;
    legend_6(out)?;
    legend_7(out)
}

/// Begins the group of the legend, at this height.
fn put_group(out: &mut Vec<u8>, y: u64) -> Result<(), AllocError>
    ensures { OnOk result (out.new.items ≡ with_line out.old.items (legend_line y)) }
{
    begin(out, b"g")?;
    put_move(out, y)?;
    line_break(out)
}

/// How far the group is moved.
fn put_move(out: &mut Vec<u8>, y: u64) -> Result<(), AllocError>
    ensures { OnOk result (out.new.items ≡ with_attribute out.old.items (moved_by y)) }
{
    name(out, b"transform")?;
    plain(out, b"translate(24 ")?;
    number(out, y)?;
    plain(out, b")")?;
    quote(out)
}

/// The end of the group and of the picture.
fn put_end(out: &mut Vec<u8>) -> Result<(), AllocError>
    ensures { OnOk result (out.new.items ≡ with_lines out.old.items end_lines) }
{
    close(out, b"g")?;
    close(out, b"svg")
}

/// The legend of a picture, at this height, and the end of the picture.
#[tactic(auto, using(crate::proofs::Joining::joined))]
pub fn put_legend(out: &mut Vec<u8>, y: u64) -> Result<(), AllocError>
    ensures { OnOk result (out.new.items ≡ with_lines out.old.items (legend_line y ∷ (fixed.legend_lines ++ end_lines))) }
{
    put_group(out, y)?;
    put_key(out)?;
    put_end(out)
}
