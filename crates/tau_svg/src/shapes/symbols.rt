//! The symbols of a picture.
ghost use Rattle.std.specs.Prelude.{◌≡◌, OnOk};
ghost use Rattle.tau_svg.specs.Markup.Lines.{with_lines};
ghost use Rattle.tau_svg.specs.Shapes.Fixed as fixed;

use crate::markup::constant;
use std::alloc::AllocError;

#[tactic(auto, unfolding(crate::specs::Shapes::Fixed::symbol_1))]
fn symbols_1(out: &mut Vec<u8>) -> Result<(), AllocError>
    ensures { OnOk result (out.new.items ≡ with_lines out.old.items fixed.symbol_1) }
{
    constant(
        out,
        b"<defs>\n<pattern id=\"tau-hatch\" width=\"6\" height=\"6\" patternUnits=\"userSpaceOnUse\"><rect class=\"tau-hatch\" width=\"6\" height=\"6\" fill=\"#ececec\"/><path class=\"tau-hair\" d=\"M0 6L6 0\" stroke=\"#a8a8a8\"/></pattern>\n<marker id=\"tau-to\" markerUnits=\"userSpaceOnUse\" markerWidth=\"9\" markerHeight=\"8\" refX=\"8\" refY=\"4\" orient=\"auto\"><path class=\"tau-head\" d=\"M0 0L9 4L0 8Z\" fill=\"#4a5560\"/></marker>\n<marker id=\"tau-to-fall\" markerUnits=\"userSpaceOnUse\" markerWidth=\"9\" markerHeight=\"8\" refX=\"8\" refY=\"4\" orient=\"auto\"><path d=\"M0 0L9 4L0 8Z\" fill=\"#d55e00\"/></marker>\n<marker id=\"tau-to-end\" markerUnits=\"userSpaceOnUse\" markerWidth=\"8\" markerHeight=\"8\" refX=\"6\" refY=\"4\" orient=\"auto\"><path d=\"M6 0V8\" stroke=\"#8a8a8a\" stroke-width=\"2\"/></marker>\n<marker id=\"tau-to-fly\" markerUnits=\"userSpaceOnUse\" markerWidth=\"8\" markerHeight=\"8\" refX=\"4\" refY=\"4\" orient=\"auto\"><circle class=\"tau-hole\" cx=\"4\" cy=\"4\" r=\"3\"/></marker>\n<marker id=\"tau-to-why\" markerUnits=\"userSpaceOnUse\" markerWidth=\"12\" markerHeight=\"12\" refX=\"8\" refY=\"5\" orient=\"auto\"><path d=\"M0 0L10 5L0 10Z\" fill=\"#b5318a\"/></marker>\n<g id=\"tau-take\"><circle class=\"tau-ink\" r=\"4\"/></g>\n<g id=\"tau-drop\"><path class=\"tau-dims\" d=\"M-4 -4L4 4M4 -4L-4 4\"/></g>\n<g id=\"tau-fall\"><path class=\"tau-redh\" d=\"M-6 5L0 -6L6 5Z\"/></g>",
    )
}

#[tactic(auto, unfolding(crate::specs::Shapes::Fixed::symbol_2))]
fn symbols_2(out: &mut Vec<u8>) -> Result<(), AllocError>
    ensures { OnOk result (out.new.items ≡ with_lines out.old.items fixed.symbol_2) }
{
    constant(
        out,
        b"<g id=\"tau-void\"><circle class=\"tau-hole\" r=\"4\"/><path class=\"tau-dims\" d=\"M-3 3L3 -3\"/></g>\n<g id=\"tau-get\"><circle class=\"tau-dim\" r=\"2\"/></g>\n<g id=\"tau-set\"><rect class=\"tau-act\" x=\"-4\" y=\"-4\" width=\"8\" height=\"8\"/></g>\n<g id=\"tau-skip\"><rect class=\"tau-hole\" x=\"-3\" y=\"-3\" width=\"6\" height=\"6\"/></g>\n<g id=\"tau-send\"><circle class=\"tau-hole\" r=\"2.5\"/></g>\n<g id=\"tau-new\"><circle class=\"tau-hole\" r=\"5\"/><path class=\"tau-inks\" d=\"M-3 0H3M0 -3V3\"/></g>\n<g id=\"tau-stabilize\"><rect class=\"tau-act\" x=\"-9\" y=\"-2\" width=\"18\" height=\"4\"/></g>\n<g id=\"tau-ask\"><circle class=\"tau-dim\" r=\"2\"/></g>\n<g id=\"tau-kept\"><rect class=\"tau-ok\" x=\"-7\" y=\"-7\" width=\"14\" height=\"14\" rx=\"2\"/><path class=\"tau-sign\" d=\"M-4 0L-1 3L4 -3\"/></g>\n<g id=\"tau-unkept\"><rect class=\"tau-amber\" x=\"-7\" y=\"-7\" width=\"14\" height=\"14\" rx=\"2\"/><path class=\"tau-sign\" d=\"M-4 0H4\"/></g>",
    )
}

#[tactic(auto, unfolding(crate::specs::Shapes::Fixed::symbol_3))]
fn symbols_3(out: &mut Vec<u8>) -> Result<(), AllocError>
    ensures { OnOk result (out.new.items ≡ with_lines out.old.items fixed.symbol_3) }
{
    constant(
        out,
        b"<g id=\"tau-broken\"><rect class=\"tau-red\" x=\"-7\" y=\"-7\" width=\"14\" height=\"14\" rx=\"2\"/><path class=\"tau-sign\" d=\"M-4 -4L4 4M4 -4L-4 4\"/></g>\n<g id=\"tau-hold\"><circle class=\"tau-pause\" r=\"7\"/><path class=\"tau-pauses\" d=\"M-2 -3V3M2 -3V3\"/></g>\n<g id=\"tau-rollback\"><path class=\"tau-red\" d=\"M-6 5L0 -6L6 5Z\"/></g>\n<g id=\"tau-stay\"><path class=\"tau-hole\" d=\"M-5 4L0 -5L5 4Z\"/></g>\n<g id=\"tau-done\"><path class=\"tau-dims\" d=\"M-5 0H5\"/></g>\n<g id=\"tau-trap\"><circle class=\"tau-red\" r=\"6\"/><path class=\"tau-sign\" d=\"M0 -4V1M0 2.5V4.5\"/></g>\n<g id=\"tau-trap-stable\"><circle class=\"tau-hole\" r=\"6\"/><path class=\"tau-dims\" d=\"M0 -4V1M0 2.5V4.5\"/></g>\n<g id=\"tau-fail\"><path class=\"tau-reds\" d=\"M-6 -6L6 6M6 -6L-6 6\"/></g>\n<g id=\"tau-fail-stable\"><path class=\"tau-dims\" d=\"M-5 -5L5 5M5 -5L-5 5\"/></g>\n<g id=\"tau-lose\"><path class=\"tau-reds\" d=\"M-4 -4L4 4M4 -4L-4 4\"/></g>",
    )
}

#[tactic(auto, unfolding(crate::specs::Shapes::Fixed::symbol_4))]
fn symbols_4(out: &mut Vec<u8>) -> Result<(), AllocError>
    ensures { OnOk result (out.new.items ≡ with_lines out.old.items fixed.symbol_4) }
{
    constant(
        out,
        b"<g id=\"tau-end-kept\"><circle class=\"tau-ok\" r=\"5\"/></g>\n<g id=\"tau-end-first\"><circle class=\"tau-oks\" r=\"4\"/></g>\n<g id=\"tau-end-none\"><circle class=\"tau-dims\" r=\"4\" stroke-dasharray=\"2 2\"/></g>\n</defs>",
    )
}

/// The symbols of a picture.
#[tactic(auto, using(crate::proofs::Joining::joined))]
pub fn put_symbols(out: &mut Vec<u8>) -> Result<(), AllocError>
    ensures { OnOk result (out.new.items ≡ with_lines out.old.items fixed.symbol_lines) }
{
    symbols_1(out)?;
    symbols_2(out)?;
    symbols_3(out)?;
    symbols_4(out)
}
