//! The style sheet of a picture.
ghost use Rattle.std.specs.Prelude.{◌≡◌, OnOk};
ghost use Rattle.tau_svg.specs.Markup.Lines.{with_lines};
ghost use Rattle.tau_svg.specs.Shapes.Fixed as fixed;

use crate::markup::constant;
use std::alloc::AllocError;

#[tactic(auto, unfolding(crate::specs::Shapes::Fixed::style_1))]
fn style_1(out: &mut Vec<u8>) -> Result<(), AllocError>
    ensures { OnOk result (out.new.items ≡ with_lines out.old.items fixed.style_1) }
{
    constant(
        out,
        b"<style type=\"text/css\">\n.tau .paper{fill:#fcfcfa}\n.tau text{font-family:ui-monospace,Menlo,Consolas,\"DejaVu Sans Mono\",monospace;font-size:11px;fill:#24292f}\n.tau .h{font-size:15px;font-weight:bold}\n.tau .b,.tau .tall{font-weight:bold}\n.tau .lane{font-weight:bold;font-size:12px;text-anchor:middle}\n.tau .num{fill:#6a737c;text-anchor:end}\n.tau .tiny{fill:#6a737c;text-anchor:end;font-size:8px}\n.tau .pt{fill:#6a737c;font-size:8px}\n.tau .minor{fill:#6a737c}",
    )
}

#[tactic(auto, unfolding(crate::specs::Shapes::Fixed::style_2))]
fn style_2(out: &mut Vec<u8>) -> Result<(), AllocError>
    ensures { OnOk result (out.new.items ≡ with_lines out.old.items fixed.style_2) }
{
    constant(
        out,
        b".tau .gone{fill:#6a737c;text-decoration:line-through}\n.tau .good{fill:#005a8f;font-weight:bold}\n.tau .bad{fill:#a33400;font-weight:bold}\n.tau .warn{fill:#7a5200;font-weight:bold}\n.tau .said{fill:#8a2a6b;font-weight:bold}\n.tau .node{fill:#f1f2ee}\n.tau .guide{stroke:#d4d6d0;stroke-dasharray:1 3;fill:none}\n.tau .axis{stroke:#c3c8cd;fill:none}\n.tau .open{fill:#fff;stroke:#8793a0}\n.tau .kept{fill:#a9d4f5;stroke:#0072b2}",
    )
}

#[tactic(auto, unfolding(crate::specs::Shapes::Fixed::style_3))]
fn style_3(out: &mut Vec<u8>) -> Result<(), AllocError>
    ensures { OnOk result (out.new.items ≡ with_lines out.old.items fixed.style_3) }
{
    constant(
        out,
        b".tau .unkept{fill:#ffe0a3;stroke:#d08700}\n.tau .fallen{fill:url(#tau-hatch);stroke:#a8a8a8}\n.tau .doomed,.tau .broken{fill:#fbe6db;stroke:#d55e00;stroke-dasharray:3 2}\n.tau .flat{stroke:none}\n.tau .open-s{fill:#5f6b77}\n.tau .kept-s{fill:#0072b2}\n.tau .unkept-s{fill:#d08700}\n.tau .fallen-s{fill:#8f8f8f}\n.tau .doomed-s,.tau .broken-s{fill:#d55e00}\n.tau .m{fill:none;stroke:#4a5560;stroke-width:1.2}",
    )
}

#[tactic(auto, unfolding(crate::specs::Shapes::Fixed::style_4))]
fn style_4(out: &mut Vec<u8>) -> Result<(), AllocError>
    ensures { OnOk result (out.new.items ≡ with_lines out.old.items fixed.style_4) }
{
    constant(
        out,
        b".tau .m-take,.tau .m-new{marker-end:url(#tau-to)}\n.tau .m-new{stroke-dasharray:1 2}\n.tau .m-fall{stroke:#d55e00;marker-end:url(#tau-to-fall)}\n.tau .m-drop{stroke:#8a8a8a;stroke-dasharray:5 3;marker-end:url(#tau-to-end)}\n.tau .m-void{stroke:#8a8a8a;stroke-dasharray:1 3;marker-end:url(#tau-to-end)}\n.tau .m-lose{stroke:#d55e00;stroke-dasharray:2 3}\n.tau .m-fly{marker-end:url(#tau-to-fly)}\n.tau .long{stroke-width:.7;stroke-opacity:.55}\n.tau .m:hover{stroke-width:3;stroke-opacity:1}\n.tau .undone{opacity:.45}",
    )
}

#[tactic(auto, unfolding(crate::specs::Shapes::Fixed::style_5))]
fn style_5(out: &mut Vec<u8>) -> Result<(), AllocError>
    ensures { OnOk result (out.new.items ≡ with_lines out.old.items fixed.style_5) }
{
    constant(
        out,
        b".tau .why{fill:none;stroke:#b5318a;stroke-width:2}\n.tau .link{stroke-dasharray:6 3;marker-end:url(#tau-to-why)}\n.tau-ink{fill:#24292f}\n.tau-inks{fill:none;stroke:#24292f}\n.tau-dim{fill:#6a737c;stroke:#fff;stroke-width:.8}\n.tau-dims{fill:none;stroke:#6a737c;stroke-width:1.5}\n.tau-hole{fill:#fff;stroke:#5a636b;stroke-width:1.5}\n.tau-act{fill:#24292f}\n.tau-ok{fill:#0068a8}\n.tau-oks{fill:#fff;stroke:#0068a8;stroke-width:2}",
    )
}

#[tactic(auto, unfolding(crate::specs::Shapes::Fixed::style_6))]
fn style_6(out: &mut Vec<u8>) -> Result<(), AllocError>
    ensures { OnOk result (out.new.items ≡ with_lines out.old.items fixed.style_6) }
{
    constant(
        out,
        b".tau-amber{fill:#d08700}\n.tau-pause{fill:#f0e442;stroke:#7a5200}\n.tau-pauses{stroke:#24292f;stroke-width:2}\n.tau-red{fill:#d55e00}\n.tau-reds{fill:none;stroke:#d55e00;stroke-width:2.5}\n.tau-redh{fill:#fff;stroke:#d55e00;stroke-width:2}\n.tau-sign{fill:none;stroke:#fff;stroke-width:2}\n@media (prefers-color-scheme:dark){\n.tau .paper{fill:#15181c}\n.tau text,.tau-ink{fill:#e3e6e9}",
    )
}

#[tactic(auto, unfolding(crate::specs::Shapes::Fixed::style_7))]
fn style_7(out: &mut Vec<u8>) -> Result<(), AllocError>
    ensures { OnOk result (out.new.items ≡ with_lines out.old.items fixed.style_7) }
{
    constant(
        out,
        b".tau .num,.tau .tiny,.tau .pt,.tau .minor,.tau .gone,.tau-dim{fill:#98a2ab}\n.tau-dim{stroke:#15181c}\n.tau .good{fill:#7cc4f5}\n.tau .bad{fill:#ff9a66}\n.tau .warn{fill:#e8b94a}\n.tau .said{fill:#f08fd0}\n.tau .node{fill:#1e2227}\n.tau .guide,.tau .axis{stroke:#3a4047}\n.tau .open{fill:#2c3239;stroke:#7d8894}\n.tau .kept{fill:#164a6e;stroke:#4aa8e0}",
    )
}

#[tactic(auto, unfolding(crate::specs::Shapes::Fixed::style_8))]
fn style_8(out: &mut Vec<u8>) -> Result<(), AllocError>
    ensures { OnOk result (out.new.items ≡ with_lines out.old.items fixed.style_8) }
{
    constant(
        out,
        b".tau .unkept{fill:#5a4210}\n.tau .fallen{stroke:#6b7177}\n.tau .doomed,.tau .broken{fill:#4a2a1a}\n.tau .open-s{fill:#aab4be}\n.tau .kept-s{fill:#4aa8e0}\n.tau .m{stroke:#a9b3bc}\n.tau .m-fall,.tau .m-lose{stroke:#f0803c}\n.tau .m-drop,.tau .m-void,.tau-dims{stroke:#98a2ab}\n.tau-inks{stroke:#e3e6e9}\n.tau-hole,.tau-redh,.tau-oks{fill:#15181c}",
    )
}

#[tactic(auto, unfolding(crate::specs::Shapes::Fixed::style_9))]
fn style_9(out: &mut Vec<u8>) -> Result<(), AllocError>
    ensures { OnOk result (out.new.items ≡ with_lines out.old.items fixed.style_9) }
{
    constant(
        out,
        b".tau-ok{fill:#2b8fd0}\n.tau-oks{stroke:#4aa8e0}\n.tau-hole{stroke:#c4ccd3}\n.tau-act{fill:#e3e6e9}\n.tau .why{stroke:#f06ac4}\n.tau-head{fill:#a9b3bc}\n.tau-hatch{fill:#2a2e33}\n.tau-hair{stroke:#5a6168}\n}\n</style>",
    )
}

/// The style sheet of a picture.
#[tactic(auto, using(crate::proofs::Joining::joined))]
pub fn put_style(out: &mut Vec<u8>) -> Result<(), AllocError>
    ensures { OnOk result (out.new.items ≡ with_lines out.old.items fixed.style_lines) }
{
    style_1(out)?;
    style_2(out)?;
    style_3(out)?;
    style_4(out)?;
    style_5(out)?;
    style_6(out)?;
    style_7(out)?;
    style_8(out)?;
    style_9(out)
}
